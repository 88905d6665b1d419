// Reading a reader to its end.
ghost use Rattle.std.specs.Prelude.{◌≡◌, ◌<◌, length, take, IfOk};
ghost use Rattle.std.specs.Io.KnownBytes.{Consumes, IsAtEnd, ReadConsumes};
ghost use Rattle.streams.specs.Counts.{IsPrefixLen, count_of};
ghost use Rattle.streams.specs.Steps.{Within};

use crate::{TRIES, is_interrupted};
use std::io;
use std::io::Read;

#[derive(Debug, Drop)]
pub struct ReadError {
    pub error: io::Error, // why a read failed
    pub count: usize, // how many bytes at the start of the buffer were read until then
}

impl From<ReadError> for io::Error {
    ghost from_gives = { λ failure r. r ≡ failure.error };

    fn from(failure: ReadError) -> io::Error {
        failure.error
    }
}

// One read into `buf`.
fn read_some<R: Read>(reader: &mut R, buf: &mut [u8]) -> io::Result<usize>
    ensures within { Within (length buf.new) result }
    ensures bytes { ReadConsumes (R.remaining reader.old) (R.remaining reader.new) result buf.new }
{
    reader.read(buf)
}

// Reads until `buf` is full, the input ends or a read fails, and answers how many bytes these are. A read that was only
// interrupted is tried again; where the tries are used up, that counts as a failure.
pub fn read_whole<R: Read>(reader: &mut R, buf: &mut [u8]) -> Result<usize, ReadError>
    ensures count { IsPrefixLen (count_of result) buf.new }
    ensures bytes { Consumes (R.remaining reader.old) (R.remaining reader.new) (take (count_of result) buf.new) }
    ensures end { IfOk result (λ n. n < length buf.new → IsAtEnd (R.remaining reader.new)) }
{
    let mut count = 0; // no `for` has it: it grows by what each read moved, and is the answer
    let mut tries = TRIES;
    while count < buf.len() {
        match read_some(reader, &mut buf[count..]) {
            Ok(0) => return Ok(count),
            Ok(n) => count += n,
            Err(error) if is_interrupted(&error) && 0 < tries => tries -= 1,
            Err(error) => return Err(ReadError { error, count }),
        }
    }
    Ok(count)
}
