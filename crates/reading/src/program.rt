// A loop's ramp/soak program: what a sample reads of the profile's table, which word 28 points to (G1, G2).
ghost use Rattle.std.specs.Prelude.{fold, false, take, drop, get_or, ltb, ◌||◌, ◌≡◌, ◌+◌, ◌≤◌, ◌<◌, length};
ghost use Rattle.table.specs.Words.{block_at, bad_digit};
ghost use Rattle.reading.specs.Programs.{fault_of, pair_at, pairs_of, pair_number, bad_digit_in, high_end_in, no_program, program_of};

use table::{
    DEVIATION, DURATION, END, FIRST_TABLE, LAST_TABLE, PAIR_WORDS, PAIRS, SLOPE, TABLE_WORDS,
    bad_digit, decimal,
};

// A ramp and the soak behind it: segments 2i + 1 and 2i + 2.
#[derive(Clone, Copy)]
pub struct Pair {
    pub end: u16, // where the ramp ends, in counts
    pub slope: u16, // hundredths of a count a second
    pub duration: u16, // of the soak, tenths of a minute
    pub deviation: u16, // of the PV in the soak, in counts; 0 for none: the word as it stands, which `deviates` reads
}

// No Option: word 29 stands with and without a program, and a sample is judged by the two tests in either case.
#[derive(Clone, Copy)]
pub struct Program {
    pub on: bool, // bit 11 is on and the pointer good
    pub fault: u16, // what word 29 becomes
    pub baddigit: bool, // N7: a slope or duration of the table has a digit above 9
    pub highend: bool, // N8: a ramp of the table ends above F
    pub pair: Pair, // the one in which the carried segment stands
}

// G2: what is wrong with a table's address, as word 29 tells it to C: 1 below, 2 above, else 0.
#[tactic(auto, unfolding(crate::specs::Programs::fault_of))]
fn fault_of(at: u16) -> u16
    ensures { result ≡ fault_of at }
{
    if at < FIRST_TABLE {
        1
    } else if LAST_TABLE < at {
        2
    } else {
        0
    }
}

// The N words from an address on, as that part of the words.
pub(crate) fn part<const N: usize>(words: &[u16], at: usize) -> &[u16; N]
    requires { at + N ≤ length words.now }
    ensures { result.now ≡ take N (drop at words.now) }
{
    (&words[at..at + N]).try_into().unwrap()
}

// G1: the 32 words of a table.
pub fn table_at(words: &[u16], at: usize) -> &[u16; TABLE_WORDS]
    requires { at + 32 ≤ length words.now }
    ensures { result.now ≡ block_at words.now at }
{
    part(words, at)
}

// G1: the eight pairs of a table, each of four words.
#[tactic(auto, unfolding(crate::specs::Programs::pairs_of))]
fn pairs(table: &[u16; TABLE_WORDS]) -> &[[u16; PAIR_WORDS]; PAIRS]
    ensures { result.now ≡ pairs_of table.now }
{
    table.as_chunks().0.try_into().unwrap()
}

// The i-th pair of a table, from 0.
#[tactic(auto, using(crate::proofs::Laws::Programs::pair_word), unfolding(crate::specs::Programs::pair_at))]
pub fn read_pair(table: &[u16; TABLE_WORDS], i: usize) -> Pair
    requires { i < 8 }
    ensures { result ≡ pair_at table.now i }
{
    let pair = pairs(table)[i];
    Pair {
        end: pair[END],
        slope: decimal(pair[SLOPE]),
        duration: decimal(pair[DURATION]),
        deviation: pair[DEVIATION],
    }
}

// The number of the pair in which a segment stands; 0 for no segment.
fn pair_number(segment: u8) -> usize
    ensures { result ≡ pair_number segment }
{
    usize::from(segment).saturating_sub(1) / 2
}

// N7: one of the eight slopes and eight durations has a digit above 9. `any` ends early: its branch at each pair costs more.
fn bad_digit_in(table: &[u16; TABLE_WORDS]) -> bool
    ensures { result ≡ fold (λ found pair. found || (bad_digit (get_or pair 1 0) || bad_digit (get_or pair 2 0))) false (pairs_of table.now) }
{
    pairs(table).iter().fold(false, |found, pair| {
        found | (bad_digit(pair[SLOPE]) | bad_digit(pair[DURATION]))
    })
}

// N8: one of the eight ends is above full scale.
fn high_end_in(table: &[u16; TABLE_WORDS], scale: u16) -> bool
    ensures { result ≡ fold (λ found pair. found || ltb scale (get_or pair 0 0)) false (pairs_of table.now) }
{
    pairs(table)
        .iter()
        .fold(false, |found, pair| found | (scale < pair[END]))
}

// Bit 11 is off, or the address not good.
#[tactic(auto, unfolding(crate::specs::Programs::no_program))]
fn no_program(fault: u16) -> Program
    ensures { result ≡ no_program fault }
{
    Program {
        on: false,
        fault,
        baddigit: false,
        highend: false,
        pair: Pair {
            end: 0,
            slope: 0,
            duration: 0,
            deviation: 0,
        },
    }
}

// The program of a loop: bit 11, word 28, the full scale, and the carried segment.
#[tactic(auto, using(crate::proofs::Laws::Programs::good_address, crate::proofs::Laws::Programs::digits_by_pair, crate::proofs::Laws::Programs::ends_by_pair), unfolding(crate::specs::Programs::program_of))]
pub(crate) fn read_program(words: &[u16], bit: bool, at: u16, scale: u16, segment: u8) -> Program
    requires { (1024 ≤ length words.now) × (segment ≤ 16) }
    ensures { result ≡ program_of words.now bit at scale segment }
{
    if bit {
        let fault = fault_of(at);
        if fault == 0 {
            let table = table_at(words, usize::from(at));
            Program {
                on: true,
                fault,
                baddigit: bad_digit_in(table),
                highend: high_end_in(table, scale),
                pair: read_pair(table, pair_number(segment)),
            }
        } else {
            no_program(fault)
        }
    } else {
        no_program(0)
    }
}
