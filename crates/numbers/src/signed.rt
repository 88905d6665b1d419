// Signs of numbers, and differences of words.
ghost use Rattle.std.specs.Prelude.{◌≡◌, ◌^◌, ◌<◌, pos, ◌-ℤ◌};
ghost use Rattle.numbers.specs.Rounding.{with_sign};

// The magnitude m with the sign of z.
pub fn with_sign(z: i64, m: u64) -> i64
    requires { m < 2 ^ 63 }
    ensures { result ≡ with_sign z m }
{
    let s = m as i64;
    if z < 0 { -s } else { s }
}

// a − b of two words.
pub fn difference(a: u16, b: u16) -> i64
    ensures { result ≡ pos a -ℤ pos b }
{
    i64::from(a) - i64::from(b)
}
