// What a program writes on standard output.
ghost use Rattle.std.specs.Prelude.{◌≡◌};
ghost use Rattle.streams.specs.Steps.{AppendsStart};

use crate::telling::Teller;
use std::io::Write;
use streams::WriteError;

// Writes some bytes, or tells why they could not be written whole.
// Proved: it is safe and ends, and what is written of the bytes is their start. What the system writes no contract can say.
pub fn write<O: Write, E: Write>(stdout: &mut O, teller: &mut Teller<'_, E>, bytes: &[u8])
    ensures written { AppendsStart (O.contents stdout.old) (O.contents stdout.new) bytes.now }
    ensures program { teller.new.program.now ≡ teller.old.program.now }
{
    match streams::write_whole(stdout, bytes) {
        Ok(()) => {}
        Err(WriteError::Failed(error)) => teller.tell(b"standard output", &error),
        Err(WriteError::Stuck) => teller.say(b"standard output: No more bytes are taken\n"),
    }
}
