// The drill file (L1 to L8): the record that stands at a position, the position behind it, and a file's records in order.
//
// A file is any list of bytes. Each record is its length, the number of bytes behind it, its kind
// and its body. A reader starts at position 0 and goes on at `next` until the end of the file.
#![tactic(auto)]

ghost use Rattle.std.specs.Prelude.{◌≡◌, ◌+◌, ◌-◌, ◌≤◌, length};
ghost use Rattle.std.specs.Iterator.{YieldsFirst, item_count};
ghost use Rattle.reader.specs.File.{word_at, store_at, sample_at, whole_at, record_at, records_of, records_left};

use refusals::Refusal;

const STORE: u16 = 1; // the kind of a store

const SAMPLE: u16 = 2; // the kind of a sample

const STORE_LENGTH: usize = 6; // L3

const SAMPLE_LENGTH: usize = 5; // L4

// A store of an address and a value, or a sample of a loop and a raw PV.
#[derive(Clone, Copy, Debug, PartialEq, Eq)]
pub enum Record {
    Store(u16, u16),
    Sample(u8, u16),
}

// A record, or why it is refused, and the position behind it.
#[derive(Clone, Copy, Debug, PartialEq, Eq)]
pub struct Step {
    pub item: Result<Record, Refusal>,
    pub next: usize,
}

// L1: the word at a position, the low byte first. File and position stay two parameters here and below, as in `read_record`,
// which is public, and in the definitions.
fn word(file: &[u8], at: usize) -> u16
    requires { at + 2 ≤ length file.now }
    ensures { result ≡ word_at file.now at }
{
    u16::from_le_bytes([file[at], file[at + 1]])
}

// L3: a store has address and value. The position is the kind's.
fn store(file: &[u8], at: usize) -> Record
    requires { at + 6 ≤ length file.now }
    ensures { result ≡ store_at file.now at }
{
    Record::Store(word(file, at + 2), word(file, at + 4))
}

// L4: a sample has loop and raw PV.
fn sample(file: &[u8], at: usize) -> Record
    requires { at + 5 ≤ length file.now }
    ensures { result ≡ sample_at file.now at }
{
    Record::Sample(file[at + 2], word(file, at + 3))
}

// L6, L7: the record of length n whose bytes are all there, by its kind, and the position behind it. Not the item alone: of its
// eight bytes the compiler makes one number, which it takes apart again at twice the instructions a record.
fn whole(file: &[u8], at: usize, n: usize) -> Step
    requires { at + n ≤ length file.now }
    ensures item { result.item ≡ whole_at file.now at n }
    ensures next { result.next ≡ at + n }
{
    let next = at + n;
    if n < 2 {
        return Step {
            item: Err(Refusal::Kind), // no room for a kind
            next,
        };
    }
    match word(file, at) {
        STORE if n == STORE_LENGTH => Step {
            item: Ok(store(file, at)),
            next,
        },
        SAMPLE if n == SAMPLE_LENGTH => Step {
            item: Ok(sample(file, at)),
            next,
        },
        STORE | SAMPLE => Step {
            item: Err(Refusal::Length),
            next,
        },
        _ => Step {
            item: Err(Refusal::Kind),
            next,
        },
    }
}

// L5, L8: the record at a position. A cut one ends the file.
#[tactic(auto, unfolding(crate::specs::File::record_at))]
pub fn read_record(file: &[u8], at: usize) -> Step
    ensures { result ≡ record_at file.now at }
{
    let cut = Step {
        item: Err(Refusal::Cut),
        next: file.len(),
    };
    let bytes = file.len().saturating_sub(at);
    if bytes < 2 {
        return cut;
    }
    let n = usize::from(word(file, at));
    if bytes - 2 < n {
        return cut;
    }
    whole(file, at + 2, n)
}

// L8: the records of a file in order.
#[derive(Drop)]
pub struct Records<'a> {
    file: &'a [u8],
    at: usize,
}

impl<'a> Iterator for Records<'a> {
    type Item = Result<Record, Refusal>;

    ghost next_gives = { YieldsFirst records_left };

    ghost remaining = { item_count records_left };

    #[tactic(auto, using(crate::proofs::Laws::File::records_step, crate::proofs::Laws::File::records_end))]
    fn next(&mut self) -> Option<Result<Record, Refusal>> {
        if self.file.len() <= self.at {
            return None;
        }
        let Step { item, next } = read_record(self.file, self.at);
        self.at = next;
        Some(item)
    }
}

pub fn read_records(file: &[u8]) -> Records<'_>
    ensures { records_left result ≡ records_of file.now }
{
    Records { file, at: 0 }
}
