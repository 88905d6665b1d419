// The setup file (L13): a desk's words written as a drill file that rebuilds them from reset.
//
// The file is measured before it is written, so that nothing is written where the room is too short (Q12).
#![tactic(auto)]

ghost use Rattle.std.specs.Prelude.{◌≡◌, ◌+◌, ◌≤◌, ◌<◌, length};
ghost use Rattle.text.specs.Text.{Written};
ghost use Rattle.text.specs.Writing.{HasRoom, Writes};
ghost use Rattle.setups.specs.Setup.{word_bytes, store_bytes, handed_on, bytes_of, setup_of, setup_answer, setup_left};

use desk::{WORDS, engine_word};
use refusals::Refusal;
use text::Writer;

const RECORD: usize = 8; // bytes of a store

const BEHIND: u16 = 6; // of them behind its length

const STORE: u16 = 1; // its kind

// Whether a word is handed on: it is not 0, and a store reaches it.
fn handed_on(address: usize, value: u16) -> bool
    ensures { result ≡ handed_on address value }
{
    value != 0 && !engine_word(address as u64)
}

// How long the file is.
fn file_length(words: &[u16]) -> usize
    requires { length words.now ≡ 1024 }
    ensures { result ≡ length (setup_of words.now) }
{
    let mut n = 0;
    for (address, value) in words.iter().enumerate() {
        if handed_on(address, *value) {
            n += RECORD;
        }
    }
    n
}

// L1: a number of two bytes, the low one first.
fn put_word(file: &mut Writer, n: u16)
    requires { HasRoom file.old 2 }
    ensures { Writes file.old (word_bytes n) file.new }
{
    file.text(&n.to_le_bytes());
}

// L3: a store.
fn put_store(file: &mut Writer, address: u16, value: u16)
    requires { HasRoom file.old 8 }
    ensures { Writes file.old (store_bytes address value) file.new }
{
    put_word(file, BEHIND);
    put_word(file, STORE);
    put_word(file, address);
    put_word(file, value);
}

// The bytes of a word, if it has any.
fn put_bytes(file: &mut Writer, address: usize, value: u16)
    requires room { HasRoom file.old (length (bytes_of address value)) }
    requires word { address < 1024 }
    ensures { Writes file.old (bytes_of address value) file.new }
{
    if handed_on(address, value) {
        put_store(file, address as u16, value);
    }
}

// The whole file, from the start of `out`. Answers how many bytes it is.
fn put_file(words: &[u16], out: &mut [u8]) -> usize
    requires { (length words.now ≡ 1024) × (length (setup_of words.now) ≤ length out.old) }
    ensures { Written out.old 0 (setup_of words.now) out.new result }
{
    let mut file = Writer::new(out);
    for (address, value) in words.iter().enumerate() {
        put_bytes(&mut file, address, *value);
    }
    file.end()
}

// Q12: the setup file of the words at the start of `out`; what stands behind it stays. N5, N10.
pub fn write_setup(words: &[u16], out: &mut [u8]) -> Result<usize, Refusal>
    ensures answer { result ≡ setup_answer words.now (length out.old) }
    ensures left { out.new ≡ setup_left words.now out.old }
{
    if words.len() != WORDS {
        return Err(Refusal::Memory);
    }
    if out.len() < file_length(words) {
        return Err(Refusal::Room);
    }
    Ok(put_file(words, out))
}
