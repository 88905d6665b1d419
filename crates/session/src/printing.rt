// L9 to L11: what the program prints of its input.
ghost use Rattle.std.specs.Prelude.{◌≡◌, ◌+◌, ◌*◌, ◌≤◌, length, take, replicate};
ghost use Rattle.text.specs.Text.{Written};
ghost use Rattle.reader.specs.File.{records_of};
ghost use Rattle.desk.specs.Desk.{lent};
ghost use Rattle.session.specs.Session.{begun};
ghost use Rattle.session.specs.Printed.{lines_of, too_long_line, with_room, printed_within};

use crate::turn::{act, number_in};
use desk::{NUMBERS, WORDS};
use lines::{put_last, put_line};
use text::Writer;

pub const LONGEST: usize = 65536; // bytes of a file

pub const INPUT: usize = LONGEST + 1; // a longer file is known by one byte more

pub const OUTPUT: usize = 10 * LONGEST + 100; // what the longest prints

const TOO_LONG: &[u8] = b"too long\n";

// Every record of a file in turn, with its line, and the last line: from the start of `out`. Answers
// how many bytes these are: at most ten for each byte of the file, and 100.
#[tactic(auto, using(crate::proofs::Loops::few, crate::proofs::Loops::counts))]
fn transcript(file: &[u8], words: &mut [u16], numbers: &mut [i64], out: &mut [u8]) -> usize
    requires { (length file.now ≤ 65536) × (10 * length file.now + 100 ≤ length out.old) }
    ensures written { Written out.old 0 (lines_of (begun (lent words.old numbers.old)) (records_of file.now)) out.new result }
    ensures upper_bound { result ≤ 10 * length file.now + 100 }
{
    let mut count = 0; // not by enumerate: the last line needs it behind the loop
    let mut refused = 0;
    let mut text = Writer::new(out);
    for item in reader::read_records(file) {
        let acted = act(item, words, numbers);
        count += 1;
        refused += usize::from(acted.is_err());
        put_line(
            &mut text,
            count,
            item,
            number_in(acted),
            acted.unwrap_or([0; 4]),
        );
    }
    put_last(&mut text, count, refused);
    text.end()
}

// L11: what is printed of an input that is too long, where there is room.
fn put_too_long(out: &mut [u8]) -> usize
    ensures written { Written out.old 0 (with_room (length out.old) 9 too_long_line) out.new result }
    ensures upper_bound { result ≤ length out.old }
{
    if out.len() < TOO_LONG.len() {
        return 0;
    }
    let mut text = Writer::new(out);
    text.text(TOO_LONG);
    text.end()
}

// Q6: the whole printed text, from the start of `out`. Answers how many bytes it is; 0, and nothing is
// written, where `out` has less room than ten bytes for each byte of the input, and 100. No Result: `drill` cannot
// fail, and its clauses speak of the count at 0 too.
#[tactic(auto, using(crate::proofs::Loops::printed), unfolding(crate::specs::Printed::printed_within, crate::specs::Printed::printed_of, desk::specs::Desk::reset_desk))]
pub fn drill(input: &[u8], out: &mut [u8]) -> usize
    ensures printed { take result out.new ≡ printed_within (length out.old) input.now }
    ensures room { (result ≤ length out.new) × (result ≡ length (take result out.new)) }
    ensures rest { Written out.old 0 (printed_within (length out.old) input.now) out.new result }
{
    if LONGEST < input.len() {
        return put_too_long(out);
    }
    if out.len() < 10 * input.len() + 100 {
        return 0;
    }
    let mut words = [0u16; WORDS]; // H3: all are 0, as after a reset
    let mut numbers = [0i64; NUMBERS];
    transcript(input, &mut words, &mut numbers, out)
}

// Room for an input or for what it prints, all 0. A function, since at a literal array of these lengths a caller's check runs out of stack.
pub fn buffer<const N: usize>() -> [u8; N]
    ensures { (result ≡ replicate N 0) × (N ≡ length result) }
{
    [0; N]
}

// Room for an input.
pub fn input_buffer() -> [u8; INPUT]
    ensures { (result ≡ replicate 65537 0) × (65537 ≡ length result) }
{
    buffer::<INPUT>()
}

// Room for what any input prints.
pub fn output_buffer() -> [u8; OUTPUT]
    ensures { (result ≡ replicate 655460 0) × (655460 ≡ length result) }
{
    buffer::<OUTPUT>()
}
