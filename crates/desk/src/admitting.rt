// O3: the tests of a sample, in their one order; what passes them is all that a sample works on. A forecast is tested
// as a sample with raw PV 0 is (Q11).
ghost use Rattle.std.specs.Prelude.{◌≡◌, ◌≤◌};
ghost use Rattle.desk.specs.Desk.{lent, admission_of, admission_at};

use crate::memory::{fitting, known_loop};
use carried::{Carried, numbers_at, record_of, slot_of};
use judging::{bad_major, judge};
use measuring::measure;
use reading::{Former, Reading, read_loop};
use refusals::Refusal;

// The loop's record, what was read of the words, and the PV.
#[derive(Clone, Copy)]
pub struct Admitted {
    pub carried: Carried,
    pub reading: Reading,
    pub pv: u16,
}

// By what was read, and the raw PV: what judging tests, N11 last, when the PV is measured.
fn admit_read(reading: Reading, carried: Carried, raw: u64) -> Result<Admitted, Refusal>
    requires { reading.settings.mode2.input.scale ≤ 65535 }
    ensures { result ≡ admission_of carried reading raw }
{
    judge(reading, raw)?;
    let pv = measure(reading, raw as u16);
    if bad_major(reading.transfer, reading.major, pv) {
        return Err(Refusal::Transfer);
    }
    Ok(Admitted {
        carried,
        reading,
        pv,
    })
}

// A sample of loop `number` with the raw PV `raw`: N5 (lengths), N4, N5 (the record), and what judging tests.
pub(crate) fn admit(
    words: &[u16],
    numbers: &[i64],
    number: u64,
    raw: u64,
) -> Result<Admitted, Refusal>
    ensures { result ≡ admission_at (lent words.now numbers.now) number raw }
{
    if !fitting(words, numbers) {
        return Err(Refusal::Memory);
    }
    known_loop(numbers, number)?;
    let k = number as u8;
    let carried = record_of(numbers_at(numbers, slot_of(k)));
    let reading = read_loop(words, k, Former::from(carried.state));
    admit_read(reading, carried, raw)
}
