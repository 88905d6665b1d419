// A8 and A9: what a sample makes of the bias and the output, in position and in velocity form.
ghost use Rattle.std.specs.Prelude.{◌≡◌, ◌^◌, ◌≤◌, nat_abs};
ghost use Rattle.control.specs.Forms.{outside_of, position_of, velocity_of};
ghost use Rattle.control.specs.Premises.{Ready};

use crate::terms::Terms;

// The carried bias and output, in units.
#[derive(Clone, Copy)]
pub struct Drive {
    pub bias: i64,
    pub output: i64,
}

// The output's limits, in units.
#[derive(Clone, Copy)]
pub struct Limits {
    pub low: i64,
    pub high: i64,
}

// A8 outside the limits: with freeze the bias stays, else it is taken back from the output.
// `base` is P − D, `limit` the limit that was passed.
#[tactic(auto, unfolding(crate::specs::Forms::outside_of))]
fn outside(freeze: bool, drive: Drive, base: i64, limit: i64) -> Drive
    requires { (nat_abs base ≤ 2 ^ 60) × (nat_abs limit ≤ 2 ^ 34) }
    ensures { result ≡ outside_of freeze drive base limit }
{
    let bias = if freeze { drive.bias } else { limit - base };
    Drive {
        bias,
        output: limit,
    }
}

// A8.
pub fn position(freeze: bool, drive: Drive, terms: Terms, limits: Limits) -> Drive
    requires { Ready drive terms limits.low limits.high }
    ensures { result ≡ position_of freeze drive terms limits.low limits.high }
{
    let Limits { low, high } = limits;
    let base = terms.p - terms.d;
    let trial = drive.bias + terms.i;
    let m = base + trial;
    if m < low {
        outside(freeze, drive, base, low)
    } else if high < m {
        outside(freeze, drive, base, high)
    } else {
        Drive {
            bias: trial,
            output: m,
        }
    }
}

// A9.
pub fn velocity(drive: Drive, terms: Terms, limits: Limits) -> Drive
    requires { Ready drive terms limits.low limits.high }
    ensures { result ≡ velocity_of drive terms limits.low limits.high }
{
    let output = numbers::clamp(
        drive.output + terms.p + terms.i - terms.d,
        limits.low,
        limits.high,
    );
    Drive { output, ..drive }
}
