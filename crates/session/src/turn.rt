// One record of a drill file carried out on the desk (O2).
ghost use Rattle.std.specs.Prelude.{◌≡◌};
ghost use Rattle.desk.specs.Desk.{lent};
ghost use Rattle.refusals.specs.Refusals.{number_of};
ghost use Rattle.session.specs.Session.{left_for, acted_for, answer_in};

use reader::Record;
use refusals::Refusal;

// The words and the numbers stay two parameters, as C lends them and as the desk's calls take them.
// What is shown of the loop of a sample that is carried out, and four zeros of a store; or why the record is refused.
#[tactic(auto, using(crate::specs::Session::Laws::sample_shown, crate::specs::Session::Laws::sample_refused), unfolding(desk::specs::Lists::answer_to, desk::specs::Lists::desk_after))]
pub(crate) fn act(
    item: Result<Record, Refusal>,
    words: &mut [u16],
    numbers: &mut [i64],
) -> Result<[u16; 4], Refusal>
    ensures acted { result ≡ acted_for (lent words.old numbers.old) item }
    ensures left { lent words.new numbers.new ≡ left_for (lent words.old numbers.old) item }
{
    match item? {
        Record::Store(address, value) => {
            desk::store(words, numbers, u64::from(address), value)?;
            Ok([0; 4])
        }
        Record::Sample(number, raw) => {
            let line = desk::sample(words, numbers, u64::from(number), u64::from(raw))?;
            Ok(line.into())
        }
    }
}

// The number of its answer, 0 where it was carried out, else that of the refusal.
pub(crate) fn number_in(acted: Result<[u16; 4], Refusal>) -> u8
    ensures { result ≡ number_of (answer_in acted) }
{
    refusals::number_of(acted.map(|_| ()))
}
