// The program `setup` (L14): carries out a drill file from reset and writes the setup file of the words that it leaves.
#![tactic(auto)]

mod handing;

use handing::{ROOM, hand_on};
use programs::{Asked, Teller};
use session::LONGEST;
use std::io::{Stderr, Stdout};

const HELP: &[u8] =
    b"setup [FILE]: carries out a drill file from reset and writes a drill file that rebuilds the words it leaves\n\
    Without FILE it reads standard input. A file has at most 65,536 bytes; of a longer one nothing is written, and standard error says so\n\
    Every word that is not 0 is stored, in the order of the addresses, but words 3, 4, 6 and 29 of the loops; setup FILE | drill shows it\n\
    What the loops carry is not handed on: each begins in Manual, and obeys a request that waits. Refused records are told by drill FILE alone\n\
    What cannot be read or written is told on standard error, and that line is the only sign: the exit status is always 0\n";

fn write_file(stdout: &mut Stdout, teller: &mut Teller<'_, Stderr>, file: &[u8]) {
    let mut out = [0u8; ROOM]; // no heap: a buffer, and the count of its bytes
    let n = hand_on(file, &mut out);
    programs::write(stdout, teller, &out[..n]);
    if LONGEST < file.len() {
        teller.say(b"too long\n");
    }
}

fn main(rt: HostRuntime) {
    let mut stdin = rt.stdin();
    let mut stdout = rt.stdout();
    let mut teller = Teller::new(rt.stderr(), b"setup");
    let mut buffer = session::input_buffer();
    match programs::read_input(&rt, &mut stdin, &mut teller, &mut buffer) {
        Asked::File(n) => write_file(&mut stdout, &mut teller, &buffer[..n]),
        Asked::Help => programs::write(&mut stdout, &mut teller, HELP),
        Asked::Nothing => {}
    }
}
