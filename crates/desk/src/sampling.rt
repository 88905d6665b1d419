// Q3: a sample of one loop, refused, or carried out and written back; at a transfer (A13) to the major loop too.
ghost use Rattle.std.specs.Prelude.{◌≡◌, ◌≤◌, length};
ghost use Rattle.carried.specs.Layout.{number_count};
ghost use Rattle.desk.specs.Desk.{lent, words_of, transfer_left, done_by, sampled_at, sample_left};

use crate::admitting::admit;
use carried::{numbers_of, put_mark, put_numbers, slot_of};
use engine::{Stepped, write_words};
use reading::Reading;
use refusals::Refusal;
use table::{OUTPUT, base_of};

// What is shown of a loop: words 2, 3, 5 and 6.
#[derive(Clone, Copy)]
pub struct Line {
    pub setpoint: u16,
    pub pv: u16,
    pub output: u16,
    pub status: u16,
}

impl From<Line> for [u16; 4] {
    ghost from_gives = { λ l r. r ≡ words_of l };

    fn from(line: Line) -> [u16; 4] {
        [line.setpoint, line.pv, line.output, line.status]
    }
}

// A13: at a transfer, the PV into the major loop's output word, and the mark into its record.
#[tactic(auto, unfolding(crate::specs::Desk::transfer_left))]
fn put_transfer(words: &mut [u16], numbers: &mut [i64], transfer: bool, major: u8, pv: u16)
    requires { (length words.old ≡ 1024) × (length numbers.old ≡ number_count) × (major ≤ 16) }
    ensures { lent words.new numbers.new ≡ transfer_left transfer major pv (lent words.old numbers.old) }
{
    if transfer {
        let at = base_of(major) + OUTPUT;
        words[at] = pv;
        put_mark(numbers, major);
    }
}

// What an accepted sample comes to, written.
#[tactic(auto, unfolding(crate::specs::Desk::done_by))]
fn write_back(words: &mut [u16], numbers: &mut [i64], number: u8, reading: Reading, done: Stepped)
    requires { (length words.old ≡ 1024) × (length numbers.old ≡ number_count) × (number ≤ 16) × (reading.major.number ≤ 16) }
    ensures { lent words.new numbers.new ≡ done_by (lent words.old numbers.old) number reading done }
{
    write_words(words, number, done.written);
    put_numbers(numbers, slot_of(number), numbers_of(done.carried));
    put_transfer(
        words,
        numbers,
        reading.transfer,
        reading.major.number,
        done.written.pv,
    );
}

// Q3: a sample of loop `number` with the raw PV `raw`.
pub fn sample(
    words: &mut [u16],
    numbers: &mut [i64],
    number: u64,
    raw: u64,
) -> Result<Line, Refusal>
    ensures sampled { result ≡ sampled_at (lent words.old numbers.old) number raw }
    ensures left { lent words.new numbers.new ≡ sample_left (lent words.old numbers.old) number raw }
{
    let a = admit(words, numbers, number, raw)?;
    let done = engine::step(a.reading, a.carried, a.pv);
    write_back(words, numbers, number as u8, a.reading, done);
    let written = done.written;
    Ok(Line {
        setpoint: written.setpoint,
        pv: written.pv,
        output: written.output,
        status: written.status,
    })
}
