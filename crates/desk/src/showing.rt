// What is shown of a loop's record: its numbers (Q4).
ghost use Rattle.std.specs.Prelude.{◌≡◌};
ghost use Rattle.desk.specs.Desk.{fields_answer, fields_left};

use crate::memory::known_loop;
use carried::{FIELDS, NUMBERS, numbers_at, put_numbers, slot_of};
use refusals::Refusal;

// Q4: the numbers of a loop's record copied out, if they are in range.
#[tactic(auto, using(crate::proofs::Laws::Desk::known_loop_lem), unfolding(crate::specs::Desk::fields_answer, crate::specs::Desk::fields_left))]
pub fn fields(numbers: &[i64], number: u64, copied: &mut [i64; FIELDS]) -> Result<(), Refusal>
    ensures answer { result ≡ fields_answer numbers.now number }
    ensures left { copied.new ≡ fields_left numbers.now number copied.old }
{
    if numbers.len() != NUMBERS {
        return Err(Refusal::Memory);
    }
    known_loop(numbers, number)?;
    put_numbers(copied, 0, numbers_at(numbers, slot_of(number as u8)));
    Ok(())
}
