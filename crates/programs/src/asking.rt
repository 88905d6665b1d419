// What a program is asked for by its argument: the file of that name, standard input without one, or its help.
ghost use Rattle.std.specs.Prelude.{◌≡◌, ◌≤◌, ◌↔◌, length, IsTrue, IfOk};
ghost use Rattle.text.specs.Text.{bytes};
ghost use Rattle.streams.specs.Counts.{IsPrefixLen};
ghost use Rattle.programs.specs.Reads.{IsStartOf};

use crate::names::hide_controls;
use crate::telling::{LONGEST_NAME, Teller};
use std::env::{Env, FillError};
use std::fs::File;
use std::io;
use std::io::{Read, Write};
use std::rt::Files;

// The system's numbers of what is told of an argument.
const MISSING: i32 = 22; // EINVAL

const TOO_LONG: i32 = 36; // ENAMETOOLONG

const NO_TEXT: i32 = 84; // EILSEQ

#[derive(Clone, Copy, Debug, PartialEq, Eq)]
pub enum Asked {
    File(usize), // which was read: so many bytes, at the start of the buffer
    Help,
    Nothing, // that could be read, which was told
}

fn standard_input<I: Read, E: Write>(
    stdin: &mut I,
    teller: &mut Teller<'_, E>,
    input: &mut [u8],
) -> Asked
    ensures read { IsStartOf result input.new }
    ensures program { teller.new.program.now ≡ teller.old.program.now }
{
    match streams::read_whole(stdin, input) {
        Ok(count) => Asked::File(count),
        Err(failure) => {
            teller.tell(b"standard input", &failure.error);
            Asked::Nothing
        }
    }
}

// std opens a file by a text, so a name that is none cannot be opened.
fn read_file<R: Files>(rt: &R, name: &[u8], input: &mut [u8]) -> io::Result<usize>
    ensures { IfOk result (λ n. IsPrefixLen n input.new) }
{
    let path = str::from_utf8(name).map_err(|_| io::Error::from_raw_os_error(NO_TEXT))?;
    let mut file = File::open(rt, path)?;
    Ok(streams::read_whole(&mut file, input)?)
}

fn asks_help(name: &[u8]) -> bool
    ensures { IsTrue result ↔ (name.now ≡ bytes "--help") }
{
    name == b"--help".as_slice()
}

// What the system says of an argument that is not there, or is no file's name, is told, and nothing was read.
fn no_name<E: Write>(teller: &mut Teller<'_, E>, error: FillError) -> Asked
    ensures asked { result ≡ Asked.Nothing }
    ensures program { teller.new.program.now ≡ teller.old.program.now }
{
    let number = match error {
        FillError::NotPresent => MISSING,
        FillError::TooLong => TOO_LONG,
    };
    teller.tell(b"the file's name", &io::Error::from_raw_os_error(number));
    Asked::Nothing
}

fn argument<R: Env + Files, E: Write>(rt: &R, teller: &mut Teller<'_, E>, input: &mut [u8]) -> Asked
    ensures read { IsStartOf result input.new }
    ensures program { teller.new.program.now ≡ teller.old.program.now }
{
    let mut buffer = [0u8; LONGEST_NAME];
    let name = match rt.arg(1, &mut buffer) {
        Ok(n) => &mut buffer[..n],
        Err(error) => return no_name(teller, error),
    };
    if asks_help(name) {
        return Asked::Help;
    }
    match read_file(rt, name, input) {
        Ok(count) => Asked::File(count),
        Err(error) => {
            hide_controls(name);
            teller.tell(name, &error);
            Asked::Nothing
        }
    }
}

fn has_argument<R: Env>(rt: &R, i: usize) -> bool {
    let mut start = [0u8; 1]; // what stands in it does not count
    !matches!(rt.arg(i, &mut start), Err(FillError::NotPresent))
}

// The file that the program is asked to read, into `input`, as much of it as there is room for.
pub fn read_input<R: Env + Files, I: Read, E: Write>(
    rt: &R,
    stdin: &mut I,
    teller: &mut Teller<'_, E>,
    input: &mut [u8],
) -> Asked
    ensures read { IsStartOf result input.new }
    ensures program { teller.new.program.now ≡ teller.old.program.now }
{
    if !has_argument(rt, 1) {
        return standard_input(stdin, teller, input);
    }
    if !has_argument(rt, 2) {
        return argument(rt, teller, input);
    }
    teller.say(b"more than one argument, and nothing was read\n");
    Asked::Nothing
}
