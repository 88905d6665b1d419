// A failure told in one line on standard error: `PROGRAM: WHAT: REASON`, or `PROGRAM: WHAT` where the system has no reason.
ghost use Rattle.std.specs.Prelude.{◌≡◌, ◌+◌, ◌≤◌, ℕ, List, length};
ghost use Rattle.std.specs.Io.{StartsWith};
ghost use Rattle.text.specs.Writing.{HasRoom, Writes};
ghost use Rattle.streams.specs.Steps.{AppendsStart};
ghost use Rattle.programs.specs.Told.{failure_of, told_of};

use std::fmt::InlineText;
use std::io;
use std::io::Write;
use text::Writer;

pub(crate) const LONGEST_NAME: usize = 4095; // a path has up to 4,096 bytes, the last a 0, which the name has not

const REASON: usize = 256; // bytes of an error's text

const TOLD: usize = LONGEST_NAME + 10; // a file's name behind a program's of up to eight bytes, a colon and a space

const LINE: usize = TOLD + REASON + 3; // a colon, a space and a line feed

// A line is put together as bytes in a buffer of its own (no heap): a file's name may be no text, which std's `InlineString` holds alone.

// `PROGRAM: WHAT`.
fn put_told(line: &mut Writer, program: &[u8], what: &[u8])
    requires { HasRoom line.old (length program.now + 2 + length what.now) }
    ensures { Writes line.old (told_of program.now what.now) line.new }
{
    line.text(program);
    line.text(b": ");
    line.text(what);
}

// `PROGRAM: WHAT: REASON` and a line feed.
fn put_failure(line: &mut Writer, program: &[u8], what: &[u8], reason: &[u8])
    requires { HasRoom line.old (length program.now + length what.now + length reason.now + 5) }
    ensures { Writes line.old (failure_of program.now what.now reason.now) line.new }
{
    put_told(line, program, what);
    line.text(b": ");
    line.text(reason);
    line.byte(b'\n');
}

// The system's words in an error's text, which has the error's number behind them.
fn reason_in(text: &str) -> &str
    ensures front { StartsWith text.now result.now }
    ensures within { length result.now ≤ length text.now }
{
    match text.split_once(" (os error ") {
        Some((reason, _)) => reason,
        None => text,
    }
}

// Standard error, on which a program tells what failed, each time in one line behind its name.
#[derive(Drop)]
pub struct Teller<'a, E> {
    pub stderr: E,
    pub program: &'a [u8],
    ghost short: { length program.now ≤ 8 },
}

impl<'a, E: Write> Teller<'a, E> {
    pub fn new(stderr: E, program: &'a [u8]) -> Self
        requires { length program.now ≤ 8 }
        ensures stderr { result.stderr ≡ stderr }
        ensures program { result.program.now ≡ program.now }
    {
        Self { stderr, program }
    }

    // What failed, and the error's reason.
    pub(crate) fn tell(&mut self, what: &[u8], error: &io::Error)
        requires { length what.now ≤ 4095 }
        ensures program { self.new.program.now ≡ self.old.program.now }
        ensures line { (reason : List ℕ) × AppendsStart (E.contents self.old.stderr) (E.contents self.new.stderr) (failure_of self.old.program.now what.now reason) }
    {
        let text = InlineText::<REASON>::of(error);
        let reason = reason_in(text.as_str());
        let mut line = [0u8; LINE];
        let mut writer = Writer::new(&mut line);
        put_failure(&mut writer, self.program, what, reason.as_bytes());
        let n = writer.end();
        let _ = streams::write_whole(&mut self.stderr, &line[..n]);
    }

    // What went wrong, of which the system says nothing; its line feed is part of it.
    // Proved: it is safe and ends, and what is written of the line is its start. What the system writes no contract can say.
    pub fn say(&mut self, what: &[u8])
        requires { length what.now ≤ 4095 }
        ensures program { self.new.program.now ≡ self.old.program.now }
        ensures line { AppendsStart (E.contents self.old.stderr) (E.contents self.new.stderr) (told_of self.old.program.now what.now) }
    {
        let mut line = [0u8; TOLD];
        let mut writer = Writer::new(&mut line);
        put_told(&mut writer, self.program, what);
        let n = writer.end();
        let _ = streams::write_whole(&mut self.stderr, &line[..n]);
    }
}
