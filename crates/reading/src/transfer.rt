// What a transfer (A13) asks of the major loop, whose output word the setpoint pointer names: number and output limits.
ghost use Rattle.std.specs.Prelude.{◌≡◌};
ghost use Rattle.reading.specs.Transfers.{major_of, limits_at, major_in};

use crate::settings::OutputLimits;
use table::{FIRST_FREE, LOOP_WORDS, OUTPUT, OUTPUT_HIGH, OUTPUT_LOW, base_of, word_at};

// No Option: there are three cases, and `claims/specs/Calls.major_at` and `judging/specs/Judging/Laws.MajorGood` have the 0.
#[derive(Clone, Copy)]
pub struct Major {
    pub number: u8, // 0 without a transfer, and where the pointer is no other loop's output word
    pub limits: OutputLimits,
}

// N11: the loop, other than `number`, whose output word has the address; 0 where there is none.
#[tactic(auto, unfolding(crate::specs::Transfers::major_of))]
fn major_of(number: u8, pointer: u16) -> u8
    ensures { result ≡ major_of number pointer }
{
    let at = usize::from(pointer);
    let major = at / LOOP_WORDS + 1;
    if (u64::from(pointer) < FIRST_FREE)
        & (at % LOOP_WORDS == OUTPUT)
        & (major != usize::from(number))
    {
        major as u8
    } else {
        0
    }
}

// Words 24 and 25 of the major loop.
#[tactic(auto, unfolding(crate::specs::Transfers::limits_at))]
fn limits_at(words: &[u16], major: u8) -> OutputLimits
    ensures { result ≡ limits_at words.now major }
{
    if major == 0 {
        return OutputLimits { low: 0, high: 0 };
    }
    let base = base_of(major);
    OutputLimits {
        low: word_at(words, base + OUTPUT_LOW),
        high: word_at(words, base + OUTPUT_HIGH),
    }
}

// What a sample of loop `number` reads of the major loop, if it is a transfer.
#[tactic(auto, unfolding(crate::specs::Transfers::major_in))]
pub(crate) fn read_major(words: &[u16], transfer: bool, number: u8, pointer: u16) -> Major
    ensures { result ≡ major_in words.now transfer number pointer }
{
    let number = if transfer {
        major_of(number, pointer)
    } else {
        0
    };
    Major {
        number,
        limits: limits_at(words, number),
    }
}
