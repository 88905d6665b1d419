// The status word and its twelve bits.
ghost use Rattle.std.specs.Prelude.{◌≡◌, cond, ◌^◌, ◌<◌};
ghost use Rattle.numbers.specs.Distances.{apart};
ghost use Rattle.table.specs.Words.{bit, flag_of};
ghost use Rattle.alarms.specs.Status.{high_alarm, low_alarm, bits_word, bits_of, status_of};
ghost use Rattle.alarms.specs.Sums.{Valued, mode_bit, level_bits, deviation_bits};

use crate::alarm::{contradiction, high_alarm, low_alarm, rate_alarm, saturated};
use reading::{AlarmLimits, Mode1, OutputLimits};
use table::{Mode, bit, flag};

// What the status word tells of one sample.
#[derive(Clone, Copy)]
pub struct Seen {
    pub pv: u16,
    pub setpoint: u16,
    pub last: Option<u16>, // the recorded last PV; none at the first accepted sample
    pub output: u16, // word 5 as written
}

// B1: bits 0 to 2. A match and no From: the word is B1's, and Mode is of another crate.
fn mode_bit(mode: Mode) -> u16
    ensures { Valued result (mode_bit mode) 4 }
{
    match mode {
        Mode::Manual => 1,
        Mode::Automatic => 2,
        Mode::Cascade => 4,
    }
}

// What alarms with a hold go by: word 6 before the sample, the hysteresis, and the number that is watched.
#[derive(Clone, Copy)]
struct Watched {
    stored: u16,
    hysteresis: u16,
    x: u16,
}

impl Watched {
    // B2, B3: what the low alarm of bit k adds to the word.
    fn low(self, k: u32, limit: u16) -> u16
        requires { k < 16 }
        ensures { Valued result (flag_of (low_alarm (bit k self.stored) limit self.hysteresis self.x) (2 ^ k)) (2 ^ k) }
    {
        let on = low_alarm(bit(self.stored, k), limit, self.hysteresis, self.x);
        flag(on, 1 << k)
    }

    // B2 to B4: what the high one does.
    fn high(self, k: u32, limit: u16) -> u16
        requires { k < 16 }
        ensures { Valued result (flag_of (high_alarm (bit k self.stored) limit self.hysteresis self.x) (2 ^ k)) (2 ^ k) }
    {
        let on = high_alarm(bit(self.stored, k), limit, self.hysteresis, self.x);
        flag(on, 1 << k)
    }
}

// B2, B3: bits 3 to 6, where the PV is watched. `stored` is the status word before the sample.
fn level_bits(on: bool, limits: AlarmLimits, stored: u16, pv: u16) -> u16
    ensures { Valued result (cond on (level_bits limits stored pv) 0) 120 }
{
    if !on {
        return 0;
    }
    let level = Watched {
        stored,
        hysteresis: limits.hysteresis,
        x: pv,
    };
    level.low(3, limits.lowlow)
        + level.low(4, limits.low)
        + level.high(5, limits.high)
        + level.high(6, limits.highhigh)
}

// B4, B3: bits 7 and 8, where the deviation is watched.
#[tactic(auto, using(numbers::specs::Distances::Laws::apart_diff))]
fn deviation_bits(on: bool, limits: AlarmLimits, stored: u16, setpoint: u16, pv: u16) -> u16
    ensures { Valued result (cond on (deviation_bits limits stored (apart setpoint pv)) 0) 384 }
{
    if !on {
        return 0;
    }
    let deviation = Watched {
        stored,
        hysteresis: limits.hysteresis,
        x: setpoint.abs_diff(pv),
    };
    deviation.high(7, limits.yellow) + deviation.high(8, limits.red)
}

// Word 6 after a sample: `mode` is the one of A2, `stored` the word before the sample. It takes the parts that it
// reads of the settings: to take them whole would ask more of a caller.
#[tactic(auto, using(crate::specs::Sums::Laws::word_sum))]
pub fn status_word(
    mode: Mode,
    bits: Mode1,
    limits: AlarmLimits,
    output: OutputLimits,
    stored: u16,
    seen: Seen,
) -> u16
    ensures { result ≡ bits_word (bits_of (status_of mode bits limits output stored seen)) }
{
    let manual = mode.is_manual();
    let deviating = bits.deviation & !manual;
    let changing = bits.change & rate_alarm(limits.change, seen.pv, seen.last);
    mode_bit(mode)
        + level_bits(bits.level, limits, stored, seen.pv)
        + deviation_bits(deviating, limits, stored, seen.setpoint, seen.pv)
        + flag(changing, 512)
        + flag(contradiction(bits, limits), 1024)
        + flag(saturated(manual, output, seen), 2048)
}
