// Q2: a word stored into the lent table.
ghost use Rattle.std.specs.Prelude.{◌≡◌};
ghost use Rattle.desk.specs.Desk.{lent, engine_word, store_answer, store_left};

use crate::memory::fitting;
use refusals::Refusal;
use table::{BIAS, FIRST_FREE, LAST_ADDRESS, LOOP_WORDS, PROFILE_FAULT, PV, STATUS};

// N6: the words of a loop that no store reaches: PV, bias and status, which samples write, and word 29.
pub fn engine_word(address: u64) -> bool
    ensures { result ≡ engine_word address }
{
    if FIRST_FREE <= address {
        return false;
    }
    matches!(
        address as usize % LOOP_WORDS,
        PV | BIAS | STATUS | PROFILE_FAULT
    )
}

// Q2. No record is looked at; the numbers are lent whole all the same, as to every call.
#[tactic(auto, using(crate::proofs::Laws::Desk::sound), unfolding(crate::specs::Desk::store_answer, crate::specs::Desk::store_left))]
pub fn store(
    words: &mut [u16],
    numbers: &mut [i64],
    address: u64,
    value: u16,
) -> Result<(), Refusal>
    ensures answer { result ≡ store_answer (lent words.old numbers.old) address }
    ensures left { lent words.new numbers.new ≡ store_left (lent words.old numbers.old) address value }
{
    if !fitting(words, numbers) {
        return Err(Refusal::Memory);
    }
    if LAST_ADDRESS < address {
        return Err(Refusal::Store);
    }
    if engine_word(address) {
        return Err(Refusal::Store);
    }
    words[address as usize] = value;
    Ok(())
}
