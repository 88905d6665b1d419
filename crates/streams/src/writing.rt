// Writing a text whole.
ghost use Rattle.std.specs.Prelude.{◌≡◌, length};
ghost use Rattle.std.specs.Io.KnownBytes.{Appends, WriteAppends};
ghost use Rattle.streams.specs.Steps.{AppendsStart, Within};

use crate::{TRIES, is_interrupted};
use std::io;
use std::io::Write;

#[derive(Debug, Drop)]
pub enum WriteError {
    Failed(io::Error), // which says why
    Stuck, // the last of the tries took no byte, for which there is no error
}

// One write of `buf`.
fn write_some<W: Write>(writer: &mut W, buf: &[u8]) -> io::Result<usize>
    ensures within { Within (length buf.now) result }
    ensures bytes { WriteAppends (W.contents writer.old) (W.contents writer.new) result buf.now }
{
    writer.write(buf)
}

// Writes all of `buf`. A write that was only interrupted or took no byte is tried again; where the
// tries are used up, that counts as a failure. Some of `buf` may then have been written.
// Of a text that is not empty the answer is the writer's, and of a standard stream no contract can say more of it.
pub fn write_whole<W: Write>(writer: &mut W, buf: &[u8]) -> Result<(), WriteError>
    ensures empty { length buf.now ≡ 0 → result ≡ Ok tt }
    ensures whole { result ≡ Ok tt → Appends (W.contents writer.old) (W.contents writer.new) buf.now }
    ensures start { AppendsStart (W.contents writer.old) (W.contents writer.new) buf.now }
{
    let mut rest = buf;
    let mut tries = TRIES;
    while !rest.is_empty() {
        match write_some(writer, rest) {
            Ok(0) if tries == 0 => return Err(WriteError::Stuck),
            Ok(0) => tries -= 1,
            Ok(n) => rest = &rest[n..],
            Err(error) if is_interrupted(&error) && 0 < tries => tries -= 1,
            Err(error) => return Err(WriteError::Failed(error)),
        }
    }
    Ok(())
}
