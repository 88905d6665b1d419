// Quotients rounded to whole numbers (A7, A10), and counts in units (H2).
ghost use Rattle.std.specs.Prelude.{◌≡◌, ◌*◌, ◌^◌, ◌<◌, pos, nat_abs, ◌*ℤ◌, ◌≤ℤ◌};
ghost use Rattle.numbers.specs.Rounding.{half_up, half_away, units_of, nearest_count};

use crate::signed::with_sign;

// Units of a count.
pub const UNITS: u64 = 262144;

// A10: n / d to the nearest, a half up. The bounds here and below are of plain numbers: a type for them would only rename them.
#[tactic(auto, unfolding(crate::specs::Rounding::half_up))]
pub fn half_up(n: u64, d: u64) -> u64
    requires { (n < 2 ^ 62) × ((0 < d) × (d < 2 ^ 62)) }
    ensures { result ≡ half_up n d }
{
    (2 * n + d) / (2 * d)
}

// A7: z / d to the nearest, a half away from zero.
#[tactic(auto, using(crate::proofs::Laws::Rounding::half_up_self), unfolding(crate::specs::Rounding::half_away))]
pub fn half_away(z: i64, d: u64) -> i64
    requires { (nat_abs z < 2 ^ 62) × ((0 < d) × (d < 2 ^ 62)) }
    ensures { result ≡ half_away z d }
{
    with_sign(z, half_up(z.unsigned_abs(), d))
}

// A7: k × z / d to the nearest, a half away from zero.
pub fn scaled(k: u64, z: i64, d: u64) -> i64
    requires { (k < 2 ^ 62) × ((k * nat_abs z < 2 ^ 62) × ((0 < d) × (d < 2 ^ 62))) }
    ensures { result ≡ half_away (pos k *ℤ z) d }
{
    half_away(k as i64 * z, d)
}

// A count in units.
pub fn units(count: u16) -> i64
    ensures { result ≡ pos (units_of count) }
{
    (u64::from(count) * UNITS) as i64
}

// A10: units in the nearest count, a half up.
#[tactic(auto, using(crate::proofs::Laws::Rounding::half_up_high))]
pub fn nearest_count(x: i64) -> u16
    requires { (pos 0 ≤ℤ x) × (x ≤ℤ pos (units_of 65535)) }
    ensures { result ≡ nearest_count (nat_abs x) }
{
    half_up(x as u64, UNITS) as u16
}
