// Single words: BCD digits, the word at an address, and where a loop's words begin.
ghost use Rattle.std.specs.Prelude.{◌≡◌, ◌≤◌, ◌<◌, get_or};
ghost use Rattle.table.specs.Words.{bit, bcd, bad_digit, clear_requests, flag_of, base_of};

use crate::offsets::LOOP_WORDS;

// W3: four BCD digits as a number: the word less what a digit's place has too much, 16 for 10.
#[tactic(auto, unfolding(crate::specs::Words::bcd))]
pub fn decimal(word: u16) -> u16
    ensures { result ≡ bcd word }
{
    word - 6 * (word / 16) - 60 * (word / 256) - 600 * (word / 4096)
}

// N7: whether one of the four digits is above 9.
#[tactic(auto, unfolding(crate::specs::Words::bad_digit))]
pub fn bad_digit(word: u16) -> bool
    ensures { result ≡ bad_digit word }
{
    (9 < word / 4096 % 16) | (9 < word / 256 % 16) | (9 < word / 16 % 16) | (9 < word % 16)
}

// W1: the address of the first word of loop k.
pub fn base_of(k: u8) -> usize
    ensures { result ≡ base_of k }
{
    LOOP_WORDS * usize::from(k).saturating_sub(1)
}

// The word at an address; 0 where there is none, as the definitions have it (`get_or`).
pub fn word_at(words: &[u16], at: usize) -> u16
    ensures { result ≡ get_or words.now at 0 }
{
    words.get(at).copied().unwrap_or(0)
}

// A2: mode 1 with the three request bits off.
pub fn clear_requests(word: u16) -> u16
    ensures { result ≡ clear_requests word }
{
    word / 8 * 8
}

// Bit k of a word.
pub fn bit(word: u16, k: u32) -> bool
    requires { k < 16 }
    ensures { result ≡ bit k word }
{
    word >> k & 1 == 1
}

// What a bit adds to a word: its value where it is on.
pub fn flag(on: bool, bit: u16) -> u16
    ensures value { result ≡ flag_of on bit }
    ensures bounded { result ≤ bit }
{
    if on { bit } else { 0 }
}
