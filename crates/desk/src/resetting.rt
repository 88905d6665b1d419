// Q1, H3: words and records as at reset.
ghost use Rattle.std.specs.Prelude.{◌≡◌};
ghost use Rattle.desk.specs.Desk.{lent, reset_answer, reset_left};

use crate::memory::fitting;
use refusals::Refusal;

#[tactic(auto, using(crate::proofs::Laws::Desk::reset_done), unfolding(crate::specs::Desk::reset_answer, crate::specs::Desk::reset_left))]
pub fn reset(words: &mut [u16], numbers: &mut [i64]) -> Result<(), Refusal>
    ensures answer { result ≡ reset_answer (lent words.old numbers.old) }
    ensures left { lent words.new numbers.new ≡ reset_left (lent words.old numbers.old) }
{
    if !fitting(words, numbers) {
        return Err(Refusal::Memory);
    }
    words.fill(0);
    numbers.fill(0);
    Ok(())
}
