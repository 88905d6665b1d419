// The program `drill` (L12): carries out a drill file and prints what `session::drill` writes of it.
#![tactic(auto)]

use programs::{Asked, Teller};
use std::io::{Stderr, Stdout};

const HELP: &[u8] =
    b"drill [FILE]: carries out a drill file from reset and prints a line for each of its records\n\
    Without FILE it reads standard input. A file has at most 65,536 bytes; a longer one prints: too long\n\
    A record's line begins with its number: set ADDRESS VALUE, loop K sp S pv P out O word STATUS, or refused NUMBER\n\
    The last line counts the records and those that were refused; MANUAL.md tells what the numbers mean\n\
    What cannot be read or written is told on standard error, and that line is the only sign: the exit status is always 0\n";

// The lines of a drill file.
fn print_lines(stdout: &mut Stdout, teller: &mut Teller<'_, Stderr>, file: &[u8]) {
    let mut out = session::output_buffer(); // no heap: a buffer, and the count of its bytes
    let n = session::drill(file, &mut out);
    programs::write(stdout, teller, &out[..n]);
}

fn main(rt: HostRuntime) {
    let mut stdin = rt.stdin();
    let mut stdout = rt.stdout();
    let mut teller = Teller::new(rt.stderr(), b"drill");
    let mut buffer = session::input_buffer();
    match programs::read_input(&rt, &mut stdin, &mut teller, &mut buffer) {
        Asked::File(n) => print_lines(&mut stdout, &mut teller, &buffer[..n]),
        Asked::Help => programs::write(&mut stdout, &mut teller, HELP),
        Asked::Nothing => {}
    }
}
