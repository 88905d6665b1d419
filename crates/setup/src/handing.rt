// L14: the setup file of the words that a drill file leaves.
ghost use Rattle.std.specs.Prelude.{◌≤◌, length};
ghost use Rattle.streams.specs.Counts.{IsPrefixLen};
ghost use Rattle.text.specs.Text.{Written};
ghost use Rattle.setup.specs.Handing.{written_of};

use desk::{NUMBERS, WORDS};
use session::LONGEST;

pub(crate) const ROOM: usize = 7680; // bytes of the longest setup file

// Carries out a drill file from reset on words of its own, and puts their setup file at the start of `out`: no byte
// of one that is too long. Answers how many bytes these are.
pub(crate) fn hand_on(file: &[u8], out: &mut [u8]) -> usize
    requires { 7680 ≤ length out.old }
    ensures text { Written out.old 0 (written_of file.now) out.new result }
    ensures within { IsPrefixLen result out.new }
{
    if LONGEST < file.len() {
        return 0;
    }
    let mut words = [0u16; WORDS];
    let mut numbers = [0i64; NUMBERS];
    let mut answers = [0u8; 1]; // the answers to the records are not kept
    // Nothing is refused: the memory is a desk's, and there is room for any of its words.
    desk::reset(&mut words, &mut numbers).unwrap();
    session::run(file, &mut words, &mut numbers, &mut answers).unwrap();
    setups::write_setup(&words, out).unwrap()
}
