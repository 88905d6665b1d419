// Whether a sample is accepted, by what it read of the words and its raw PV: N7, N8, N12, N13, N14 and N9, in this order
// (O3); and N11, by its PV.
#![tactic(auto)]

ghost use Rattle.std.specs.Prelude.{◌≡◌, ltb};
ghost use Rattle.refusals.specs.Refusals.{first_of};
ghost use Rattle.judging.specs.Judging.{bad_modes, bad_times, bad_limits, bad_setpoint, setting_cases, bad_major};

use reading::{Major, Mode1, OutputLimits, Reading, Tuning};
use refusals::Refusal;
use table::LAST_ADDRESS;

const LEAST_PERIOD: u16 = 5; // 0.05 s

const MOST_HYSTERESIS: u16 = 200;

// N8: a setting of the mode bits, velocity with Bumpless II, or the hysteresis of alarms that are on.
fn bad_modes(bits: Mode1, unused: bool, hysteresis: u16) -> bool
    ensures { result ≡ bad_modes bits unused hysteresis }
{
    (bits.velocity & bits.bumpless)
        | bits.limited
        | unused
        | ((bits.level | bits.deviation) & !(1..=MOST_HYSTERESIS).contains(&hysteresis))
}

// N12: the period or the reset time.
fn bad_times(t: Tuning) -> bool
    ensures { result ≡ bad_times t }
{
    (t.period < LEAST_PERIOD) | (t.reset == 0)
}

// N13: an output limit.
fn bad_limits(limits: OutputLimits, scale: u16) -> bool
    ensures { result ≡ bad_limits limits scale }
{
    (limits.high < limits.low) | (scale < limits.high)
}

// N14: the setpoint or, in Cascade, the pointer and the word that it names.
fn bad_setpoint(cascade: bool, scale: u16, setpoint: u16, pointer: u16, remote: u16) -> bool
    ensures { result ≡ bad_setpoint cascade scale setpoint pointer remote }
{
    (!cascade & (scale < setpoint))
        | (cascade & ((LAST_ADDRESS < u64::from(pointer)) | (scale < remote)))
}

// N9: the raw PV, of any size, above full scale.
fn above(scale: u16, raw: u64) -> bool
    ensures { result ≡ ltb scale raw }
{
    u64::from(scale) < raw
}

// O4: the first refusal whose condition holds, in O3's order.
pub fn judge(reading: Reading, raw: u64) -> Result<(), Refusal>
    ensures { result ≡ first_of (setting_cases reading raw) }
{
    let s = reading.settings;
    let scale = s.mode2.input.scale;
    let cascade = reading.mode.is_cascade();
    if s.baddigit | reading.program.baddigit {
        return Err(Refusal::Digit);
    }
    if bad_modes(s.mode1, s.mode2.unused, s.alarms.hysteresis) | reading.program.highend {
        return Err(Refusal::Setting);
    }
    if bad_times(s.tuning) {
        return Err(Refusal::Times);
    }
    if bad_limits(s.limits, s.mode2.output.scale) {
        return Err(Refusal::Limits);
    }
    if bad_setpoint(cascade, scale, s.stored.setpoint, s.pointer, reading.remote) {
        return Err(Refusal::Setpoint);
    }
    if above(scale, raw) {
        return Err(Refusal::Above);
    }
    Ok(())
}

// N11: at a transfer, no major loop, or a PV outside that loop's output limits.
pub fn bad_major(transfer: bool, m: Major, pv: u16) -> bool
    ensures { result ≡ bad_major transfer m pv }
{
    if transfer {
        (m.number == 0) | (pv < m.limits.low) | (m.limits.high < pv)
    } else {
        false
    }
}
