// What a sample writes (A10 to A12): eight words, and the record that the loop carries on.
ghost use Rattle.std.specs.Prelude.{◌≡◌, cond, ◌+◌, ◌≤◌, length};
ghost use Rattle.table.specs.Words.{base_of};
ghost use Rattle.engine.specs.Writing.{output_word, bias_word, status_word, written_of, next_of, written_to};
ghost use Rattle.engine.specs.Premises.{Counted};

use crate::sensing::Sensed;
use alarms::Seen;
use carried::{Carried, Past};
use control::Drive;
use reading::Reading;
use table::{BIAS, MODE_1, OUTPUT, PROFILE_FAULT, PROFILE_FLAGS, PV, SETPOINT, STATUS};

// A12: the words that a sample writes: 0, 2, 3, 4, 5, 6, 27 and 29.
#[derive(Clone, Copy)]
pub struct Written {
    pub word: u16,
    pub setpoint: u16,
    pub pv: u16,
    pub bias: u16,
    pub output: u16,
    pub status: u16,
    pub flags: u16,
    pub fault: u16,
}

// A10: word 5.
#[tactic(auto, unfolding(crate::specs::Writing::output_word))]
fn output_word(manual: bool, held: u16, drive: Drive) -> u16
    requires { Counted drive.output }
    ensures { result ≡ output_word manual held drive.output }
{
    if manual {
        held
    } else {
        numbers::nearest_count(drive.output)
    }
}

// A10: word 4. `kept` where nothing writes it: it chooses between two words, and both are there, so it is no Option.
#[tactic(auto, unfolding(crate::specs::Writing::bias_word))]
fn bias_word(kept: bool, stored: u16, scale: u16, drive: Drive) -> u16
    ensures { result ≡ bias_word kept stored scale drive.bias }
{
    if kept {
        stored
    } else {
        numbers::nearest_count(numbers::clamp(drive.bias, 0, numbers::units(scale)))
    }
}

// A11: what is recorded. The PV before the last is at the first accepted sample the PV itself.
#[tactic(auto, unfolding(crate::specs::Writing::next_of))]
pub(crate) fn next_record(carried: Carried, sensed: Sensed, drive: Drive) -> Carried
    ensures { result ≡ next_of carried sensed drive }
{
    let prior = if carried.sampled {
        carried.past.last
    } else {
        sensed.pv
    };
    Carried {
        state: sensed.state,
        drive,
        past: Past {
            last: sensed.pv,
            prior,
            error: sensed.error,
        },
        sampled: true,
    }
}

// B1 to B8: word 6.
#[tactic(auto, unfolding(crate::specs::Writing::status_word))]
fn status_after(reading: Reading, carried: Carried, sensed: Sensed, output: u16) -> u16
    ensures { result ≡ status_word reading carried sensed output }
{
    let s = reading.settings;
    alarms::status_word(
        reading.mode,
        s.mode1,
        s.alarms,
        s.limits,
        s.stored.status,
        Seen {
            pv: sensed.pv,
            setpoint: sensed.setpoint,
            last: carried.sampled.then_some(carried.past.last),
            output,
        },
    )
}

// The words that the sample writes.
#[tactic(auto, unfolding(crate::specs::Writing::written_of))]
pub(crate) fn words_after(
    reading: Reading,
    carried: Carried,
    sensed: Sensed,
    held: u16,
    drive: Drive,
) -> Written
    requires { Counted drive.output }
    ensures { result ≡ written_of reading carried sensed held drive }
{
    let s = reading.settings;
    let manual = reading.mode.is_manual();
    let output = output_word(manual, held, drive);
    let kept = manual | s.mode1.velocity;
    Written {
        word: table::clear_requests(s.stored.word),
        setpoint: sensed.setpoint,
        pv: sensed.pv,
        bias: bias_word(kept, s.stored.bias, s.mode2.output.scale, drive),
        output,
        status: status_after(reading, carried, sensed, output),
        flags: sensed.flags,
        fault: sensed.fault,
    }
}

// The eight words stored: those of loop `number`.
#[tactic(auto, unfolding(crate::specs::Writing::written_to))]
pub fn write_words(words: &mut [u16], number: u8, w: Written)
    requires { base_of number + 32 ≤ length words.old }
    ensures { words.new ≡ written_to words.old (base_of number) w }
{
    let base = table::base_of(number);
    words[base + MODE_1] = w.word;
    words[base + SETPOINT] = w.setpoint;
    words[base + PV] = w.pv;
    words[base + BIAS] = w.bias;
    words[base + OUTPUT] = w.output;
    words[base + STATUS] = w.status;
    words[base + PROFILE_FLAGS] = w.flags;
    words[base + PROFILE_FAULT] = w.fault;
}
