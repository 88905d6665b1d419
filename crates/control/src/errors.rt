// A5: the error, squared and with its deadband.
ghost use Rattle.std.specs.Prelude.{◌≡◌, ◌<◌, nat_abs};
ghost use Rattle.control.specs.Errors.{in_deadband, squared_over, error_of};

// Whether the deadband is on and the setpoint nearer to the PV than that, both in counts of the input.
#[tactic(auto, using(numbers::specs::Distances::Laws::apart_diff), unfolding(crate::specs::Errors::in_deadband))]
pub fn in_deadband(on: bool, deadband: u16, setpoint: u16, pv: u16) -> bool
    ensures { result ≡ in_deadband on deadband setpoint pv }
{
    on & (setpoint.abs_diff(pv) < deadband)
}

// The square of e over the scale without the fraction, with the sign of e.
#[tactic(auto, unfolding(crate::specs::Errors::squared_over))]
fn squared_over(e: i64, scale: u16) -> i64
    requires { (nat_abs e < 65536) × (0 < scale) }
    ensures { result ≡ squared_over e scale }
{
    let size = e.unsigned_abs();
    numbers::with_sign(e, size * size / u64::from(scale))
}

// The error of a setpoint and a PV in counts of the output, whose full scale is `scale`. `quiet`: they are in the
// deadband. `squared`: the bit for error squared.
#[tactic(auto, unfolding(crate::specs::Errors::error_of))]
pub fn error(quiet: bool, squared: bool, scale: u16, setpoint: u16, pv: u16) -> i64
    requires { 0 < scale }
    ensures { result ≡ error_of quiet squared scale setpoint pv }
{
    if quiet {
        return 0;
    }
    let e = numbers::difference(setpoint, pv);
    if squared { squared_over(e, scale) } else { e }
}
