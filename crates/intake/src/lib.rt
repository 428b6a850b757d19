// What a program takes in: a file, from a reader, as far as there is room for it.
#![tactic(auto)]

ghost use Rattle.std.specs.Prelude.{◌≡◌, ◌<◌, length, take, IfOk};
ghost use Rattle.std.specs.Counts.{IsPrefixLen};
ghost use Rattle.std.specs.Io.KnownBytes.{Consumes, IsAtEnd};
ghost use Rattle.intake.specs.Taken.{bytes_taken};

use std::io;
use std::io::Read;

// A read that failed: how many bytes had come before it, and why.
#[derive(Clone, Copy)]
pub struct ReadFailed {
    pub bytes: usize,
    pub error: io::Error,
}

// A file that cannot be opened: nothing came.
impl From<io::Error> for ReadFailed {
    ghost from_gives = { λ error failed. failed ≡ record { bytes = 0; error = error } };

    fn from(error: io::Error) -> ReadFailed {
        ReadFailed { bytes: 0, error }
    }
}

// Inner. Fills the buffer, however the bytes arrive, until it is full or the input ends: the count of the bytes that
// came.
pub fn take_in<R: Read>(input: &mut R, file: &mut [u8]) -> Result<usize, ReadFailed>
    ensures prefix { IsPrefixLen (bytes_taken result) file.new }
    ensures taken { Consumes (R.remaining input.old) (R.remaining input.new) (take (bytes_taken result) file.new) }
    ensures all { IfOk result (λ bytes. bytes < length file.new → IsAtEnd (R.remaining input.new)) }
{
    let mut bytes = 0;
    // A loop over `read`: what std's readers of a whole file ensure says little of what came before a failure.
    while bytes < file.len() {
        match input.read(&mut file[bytes..]) {
            Ok(0) => break,
            Ok(more) => bytes += more,
            Err(error) => return Err(ReadFailed { bytes, error }),
        }
    }
    Ok(bytes)
}
