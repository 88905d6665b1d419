// Single alarms, on numbers wide enough that no sum wraps.
ghost use Rattle.std.specs.Prelude.{◌≡◌, cond};
ghost use Rattle.alarms.specs.Status.{high_alarm, low_alarm, unordered, rate_alarm, at_limit};
ghost use Rattle.alarms.specs.Sums.{Valued};

use crate::status::Seen;
use reading::{AlarmLimits, Mode1, OutputLimits};

// B3: what the hold adds, the hysteresis of an alarm that was on.
fn margin(was: bool, hysteresis: u16) -> u32
    ensures { Valued result (cond was hysteresis 0) 65535 }
{
    if was { u32::from(hysteresis) } else { 0 }
}

// B2, B4: on where x, or with the hold the sum, is larger than the limit.
pub(crate) fn high_alarm(was: bool, limit: u16, hysteresis: u16, x: u16) -> bool
    ensures { result ≡ high_alarm was limit hysteresis x }
{
    u32::from(limit) < u32::from(x) + margin(was, hysteresis)
}

// B2: on where x is smaller than the limit, or with the hold than the sum. One function for both would take the order
// as a parameter, and be no plainer than two comparisons.
pub(crate) fn low_alarm(was: bool, limit: u16, hysteresis: u16, x: u16) -> bool
    ensures { result ≡ low_alarm was limit hysteresis x }
{
    u32::from(x) < u32::from(limit) + margin(was, hysteresis)
}

// B6: the settings of watched alarms contradict each other.
pub(crate) fn contradiction(bits: Mode1, limits: AlarmLimits) -> bool
    ensures { result ≡ unordered bits limits }
{
    (bits.level
        & !((limits.lowlow < limits.low)
            & (limits.low < limits.high)
            & (limits.high < limits.highhigh)))
        | (bits.deviation & !((limits.yellow < limits.red) & (limits.hysteresis < limits.yellow)))
}

// B5: the PV is off the recorded last one by more than the limit.
#[tactic(auto, using(numbers::specs::Distances::Laws::apart_diff))]
pub(crate) fn rate_alarm(limit: u16, pv: u16, last: Option<u16>) -> bool
    ensures { result ≡ rate_alarm limit pv last }
{
    last.is_some_and(|last| limit < pv.abs_diff(last))
}

// B7: the output stands at one of its limits while the PV is off the setpoint.
pub(crate) fn saturated(manual: bool, limits: OutputLimits, seen: Seen) -> bool
    ensures { result ≡ at_limit manual limits seen.output seen.setpoint seen.pv }
{
    !manual
        & ((seen.output == limits.low) | (seen.output == limits.high))
        & (seen.pv != seen.setpoint)
}
