// Q5: a whole file carried out, with no line printed.
ghost use Rattle.std.specs.Prelude.{◌≡◌, set};
ghost use Rattle.std.proofs.lemmas.List.Edits.{sets};
ghost use Rattle.reader.specs.File.{records_of};
ghost use Rattle.desk.specs.Desk.{lent};
ghost use Rattle.session.specs.Session.{state, begun, run_of, answers_for, ended_of, left_of, answers_of};

use crate::turn::{act, number_in};
use refusals::Refusal;

// How many records were read, and how many of them refused.
#[derive(Clone, Copy, Debug, PartialEq, Eq)]
pub struct Totals {
    pub count: usize,
    pub refused: usize,
}

// An answer kept at its place, where there is one. A test and an index: of a slice's `get_mut` no clause says what element it lends.
fn keep(answers: &mut [u8], at: usize, number: u8)
    ensures { answers.new ≡ set answers.old at number }
{
    if at < answers.len() {
        answers[at] = number;
    }
}

// Every record of a file in turn.
#[tactic(auto, using(crate::proofs::Loops::few, crate::proofs::Loops::counts, crate::proofs::Loops::end, crate::proofs::Loops::end_answering))]
fn carry_all(file: &[u8], words: &mut [u16], numbers: &mut [i64], answers: &mut [u8]) -> Totals
    ensures state_after { state words.new numbers.new result.count result.refused ≡ run_of (begun (lent words.old numbers.old)) (records_of file.now) }
    ensures answers_after { answers.new ≡ sets answers.old 0 (answers_for (lent words.old numbers.old) (records_of file.now)) }
{
    let mut count = 0; // not by enumerate: the answer needs it behind the loop
    let mut refused = 0;
    for item in reader::read_records(file) {
        let acted = act(item, words, numbers);
        keep(answers, count, number_in(acted));
        count += 1;
        refused += usize::from(acted.is_err());
    }
    Totals { count, refused }
}

// Q5: a file of any length. Where the memory does not have its lengths, nothing is read or written. Else
// the answer to each record, 0 or its number of refusal, goes into `answers` in order, as far as there
// is room.
#[tactic(auto, unfolding(crate::specs::Session::ended_of, crate::specs::Session::left_of, crate::specs::Session::answers_of))]
pub fn run(
    file: &[u8],
    words: &mut [u16],
    numbers: &mut [i64],
    answers: &mut [u8],
) -> Result<Totals, Refusal>
    ensures ended { result ≡ ended_of file.now (lent words.old numbers.old) }
    ensures left { lent words.new numbers.new ≡ left_of file.now (lent words.old numbers.old) }
    ensures answers { answers.new ≡ sets answers.old 0 (answers_of file.now (lent words.old numbers.old)) }
{
    if !desk::fitting(words, numbers) {
        return Err(Refusal::Memory);
    }
    Ok(carry_all(file, words, numbers, answers))
}
