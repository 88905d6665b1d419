// Whole streams: a reader read to its end into a lent buffer, and a text written whole, with
// every failure told to the caller.
//
// Of a file or a standard stream no contract can say what was read or written. What is proved: each
// count lies within its buffer, of a reader or a writer whose bytes are known which of them moved, and
// every loop ends, since the calls that move nothing are counted down.
#![tactic(auto)]

ghost use Rattle.std.specs.Prelude.{◌≡◌};
ghost use Rattle.std.specs.IoError.{error_kind};
ghost use Rattle.streams.specs.Steps.{is_interruption};

mod reading;
mod writing;

pub use reading::{ReadError, read_whole};
use std::io;
use std::io::ErrorKind;
pub use writing::{WriteError, write_whole};

// How many calls that move nothing are tried again, in all, before a stream counts as failed.
const TRIES: u32 = 1000000;

// Whether a call failed by a signal alone, before it moved a byte: it is made again.
fn is_interrupted(error: &io::Error) -> bool
    ensures { result ≡ is_interruption (error_kind error.now) }
{
    error.kind() == ErrorKind::Interrupted
}
