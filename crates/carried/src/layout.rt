// A carried record as numbers of 64 bits (H1), and its place in the lent buffer (H4). A new field is a place, a row of
// `RANGES` and a line of `record_of` and `numbers_of`; in the definitions a row of `ranges` and a line of
// `numbers_of` and `record_from`.
ghost use Rattle.std.specs.Prelude.{◌≡◌, false, ◌+◌, ◌≤◌, pos, length};
ghost use Rattle.std.proofs.lemmas.List.Edits.{sets};
ghost use Rattle.carried.specs.Layout.{mode_number, numbers_of, mode_from, profile_from, record_from, field_count, ◌to◌, outside_row, out_of_range, slot_of, numbers_at, marked_at};

use crate::record::{Carried, Past, State};
use control::Drive;
use profile::Profile;
use table::{LOOPS, Mode};

pub const FIELDS: usize = 14; // numbers of a record

pub const NUMBERS: usize = LOOPS as usize * FIELDS; // numbers of the buffer

// The place of each number in a record, as in the header: the layout is the C interface's.
const MODE: usize = 0;

const BIAS: usize = 1;

const OUTPUT: usize = 2;

const LAST_PV: usize = 3;

const PRIOR_PV: usize = 4;

const ERROR: usize = 5;

const VELOCITY: usize = 6;

const SAMPLED: usize = 7;

const SEGMENT: usize = 8;

const HOLD: usize = 9;

const COMPLETE: usize = 10;

const FRACTION: usize = 11;

const TIME: usize = 12;

const MARK: usize = 13;

// H1: the rows of `ranges`: the lowest number of each field, and the highest.
const RANGES: [(i64, i64); FIELDS] = [
    (0, 2), // mode
    (-4503599627370496, 4503599627370496), // bias
    (0, 17179607040), // output
    (0, 65535), // last PV
    (0, 65535), // PV before
    (-65535, 65535), // error
    (0, 1), // form
    (0, 1), // sampled
    (0, 16), // segment
    (0, 1), // hold
    (0, 1), // complete
    (0, 9999), // fraction
    (0, 6000000), // time
    (0, 1), // mark
];

// H1's number of a mode. No From of Mode, which would stand in table: the wrong version `modes_numbered_otherwise` numbers
// the modes otherwise here and in the definition.
fn mode_number(mode: Mode) -> i64
    ensures { result ≡ pos (mode_number mode) }
{
    match mode {
        Mode::Manual => 0,
        Mode::Automatic => 1,
        Mode::Cascade => 2,
    }
}

fn mode_from(n: i64) -> Mode
    ensures { result ≡ mode_from n }
{
    match n {
        ..=0 => Mode::Manual,
        1 => Mode::Automatic,
        _ => Mode::Cascade,
    }
}

// H5: a number of a record is out of range.
pub fn out_of_range(n: [i64; FIELDS]) -> bool
    ensures { result ≡ out_of_range n }
{
    let mut found = false;
    for (n, (low, high)) in n.iter().zip(&RANGES) {
        found |= (*n < *low) | (*high < *n);
    }
    found
}

// The profile that numbers in range stand for.
#[tactic(auto, using(crate::specs::Layout::Laws::rows_in, crate::specs::Layout::Laws::up_to), unfolding(crate::specs::Layout::profile_from))]
fn profile_of(n: [i64; FIELDS]) -> Profile
    requires { out_of_range n ≡ false }
    ensures { result ≡ profile_from n }
{
    Profile {
        segment: n[SEGMENT] as u8,
        hold: 0 < n[HOLD],
        complete: 0 < n[COMPLETE],
        fraction: n[FRACTION] as u16,
        time: n[TIME] as u32,
    }
}

// The record that numbers in range stand for.
#[tactic(auto, using(crate::specs::Layout::Laws::rows_in, crate::specs::Layout::Laws::up_to))]
pub fn record_of(n: [i64; FIELDS]) -> Carried
    requires { out_of_range n ≡ false }
    ensures { result ≡ record_from n }
{
    Carried {
        state: State {
            mode: mode_from(n[MODE]),
            velocity: 0 < n[VELOCITY],
            profile: profile_of(n),
            mark: 0 < n[MARK],
        },
        drive: Drive {
            bias: n[BIAS],
            output: n[OUTPUT],
        },
        past: Past {
            last: n[LAST_PV] as u16,
            prior: n[PRIOR_PV] as u16,
            error: n[ERROR],
        },
        sampled: 0 < n[SAMPLED],
    }
}

// A record's numbers, in the order of the layout.
pub fn numbers_of(c: Carried) -> [i64; FIELDS]
    ensures { result ≡ numbers_of c }
{
    let state = c.state;
    let profile = state.profile;
    [
        mode_number(state.mode),
        c.drive.bias,
        c.drive.output,
        i64::from(c.past.last),
        i64::from(c.past.prior),
        c.past.error,
        i64::from(state.velocity),
        i64::from(c.sampled),
        i64::from(profile.segment),
        i64::from(profile.hold),
        i64::from(profile.complete),
        i64::from(profile.fraction),
        i64::from(profile.time),
        i64::from(state.mark),
    ]
}

// The place of the record of loop k in the buffer. The table's `base_of` differs in the constant: one function for both would
// ask for a bound of it, and be no shorter.
pub fn slot_of(k: u8) -> usize
    ensures { result ≡ slot_of k }
{
    FIELDS * usize::from(k).saturating_sub(1)
}

// The numbers of the record that starts at a place.
pub fn numbers_at(numbers: &[i64], at: usize) -> [i64; FIELDS]
    requires { at + field_count ≤ length numbers.now }
    ensures { result ≡ numbers_at numbers.now at }
{
    *numbers[at..at + FIELDS].first_chunk().unwrap()
}

// A record's numbers stored from a place on. `copy_from_slice`, here and above, takes a sample 55 instructions more.
pub fn put_numbers(numbers: &mut [i64], at: usize, fields: [i64; FIELDS])
    requires { at + field_count ≤ length numbers.old }
    ensures { numbers.new ≡ sets numbers.old at fields }
{
    for (i, n) in fields.iter().enumerate() {
        numbers[at + i] = *n;
    }
}

// A13: the mark set in the record of loop k.
pub fn put_mark(numbers: &mut [i64], k: u8)
    requires { slot_of k + field_count ≤ length numbers.old }
    ensures { numbers.new ≡ marked_at numbers.old k }
{
    numbers[slot_of(k) + MARK] = 1;
}
