// The C interface on a desk (Q1 to Q4, Q10): reset, store, sample, and a record's numbers read out.
// include/kexbardi.h declares it.
//
// Every function works on memory that the caller lends and keeps nothing between calls. It answers 0,
// or the number of the refusal, and no `Result`, since C calls it; a refusal leaves all lent memory as it was. A `&[T]` is a pointer and
// then a length for a C caller, a `&mut [T; N]` a pointer.
#![tactic(auto)]

ghost use Rattle.std.specs.Prelude.{◌≡◌};
ghost use Rattle.refusals.specs.Refusals.{number_of};
ghost use Rattle.desk.specs.Desk.{lent, reset_answer, reset_left, store_answer, store_left, sample_answer, sample_left, fields_answer, fields_left};
ghost use Rattle.kexbardi.specs.Interface.{line_left};

use desk::FIELDS;
use refusals::{ACCEPTED, number_of};

// Q10: the version of functions and layout, major, minor and patch as MMmmpp: its one source (package/make).
const VERSION: u32 = 50201;

#[unsafe(no_mangle)]
pub extern "C" fn kexbardi_version() -> u32
    ensures { result ≡ 50201 }
{
    VERSION
}

// Q1: words and records as at reset. 5.
#[unsafe(no_mangle)]
pub extern "C" fn kexbardi_reset(words: &mut [u16], records: &mut [i64]) -> u8
    ensures number { result ≡ number_of (reset_answer (lent words.old records.old)) }
    ensures left { lent words.new records.new ≡ reset_left (lent words.old records.old) }
{
    number_of(desk::reset(words, records))
}

// Q2: a word stored. 5 or 6.
#[unsafe(no_mangle)]
pub extern "C" fn kexbardi_store(
    words: &mut [u16],
    records: &mut [i64],
    address: u64,
    value: u16,
) -> u8
    ensures number { result ≡ number_of (store_answer (lent words.old records.old) address) }
    ensures left { lent words.new records.new ≡ store_left (lent words.old records.old) address value }
{
    number_of(desk::store(words, records, address, value))
}

// Q3: a sample of a loop with a raw PV. 5, 4, 5, 7, 8, 12, 13, 14, 9 or 11; else the words and the loop's record after it, and
// the line: setpoint, PV, output and status.
#[unsafe(no_mangle)]
pub extern "C" fn kexbardi_sample(
    words: &mut [u16],
    records: &mut [i64],
    number: u64,
    raw: u64,
    line: &mut [u16; 4],
) -> u8
    ensures number { result ≡ number_of (sample_answer (lent words.old records.old) number raw) }
    ensures left { lent words.new records.new ≡ sample_left (lent words.old records.old) number raw }
    ensures line { line.new ≡ line_left (lent words.old records.old) number raw line.old }
{
    match desk::sample(words, records, number, raw) {
        Err(why) => number_of(Err(why)),
        Ok(shown) => {
            *line = shown.into();
            ACCEPTED
        }
    }
}

// Q4: the numbers of a loop's record, in the order of the layout. 5 or 4.
#[unsafe(no_mangle)]
pub extern "C" fn kexbardi_record(records: &[i64], number: u64, fields: &mut [i64; FIELDS]) -> u8
    ensures number { result ≡ number_of (fields_answer records.now number) }
    ensures left { fields.new ≡ fields_left records.now number fields.old }
{
    number_of(desk::fields(records, number, fields))
}
