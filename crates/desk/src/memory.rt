// What every call tests first: the lengths of the lent memory (O1); and of a call on a loop, its number (N4) and its
// record (N5).
ghost use Rattle.std.specs.Prelude.{◌≡◌, length};
ghost use Rattle.refusals.specs.Refusals.{first_of};
ghost use Rattle.carried.specs.Layout.{number_count};
ghost use Rattle.desk.specs.Desk.{lent, fitting_of, no_loop, loop_cases};

use carried::{NUMBERS, numbers_at, out_of_range, slot_of};
use refusals::Refusal;
use table::{LOOPS, WORDS};

const LAST_LOOP: u64 = LOOPS as u64;

#[tactic(auto, unfolding(crate::specs::Desk::fitting_of))]
pub fn fitting(words: &[u16], numbers: &[i64]) -> bool
    ensures { result ≡ fitting_of (lent words.now numbers.now) }
{
    (words.len() == WORDS) & (numbers.len() == NUMBERS)
}

// N4: there is no loop of that number.
#[tactic(auto, unfolding(crate::specs::Desk::no_loop))]
fn no_loop(number: u64) -> bool
    ensures { result ≡ no_loop number }
{
    !(1..=LAST_LOOP).contains(&number)
}

// N4, N5: there is such a loop, and its record is in range.
#[tactic(auto, using(crate::proofs::Laws::Desk::loop_there))]
pub(crate) fn known_loop(numbers: &[i64], number: u64) -> Result<(), Refusal>
    requires { length numbers.now ≡ number_count }
    ensures { result ≡ first_of (loop_cases numbers.now number) }
{
    if no_loop(number) {
        return Err(Refusal::Loop);
    }
    if out_of_range(numbers_at(numbers, slot_of(number as u8))) {
        return Err(Refusal::Record);
    }
    Ok(())
}
