// The program: a job file comes on standard input, and its listing goes to standard output. What the listing is, is
// the library's (`listing::list`); here is only what is read and written.
#![tactic(auto)]

ghost use Rattle.std.specs.Prelude.{◌≡◌, ℕ, ◌≤◌, List, length, IfSome, IsErrOf, OnOk};
ghost use Rattle.std.specs.Io.KnownBytes.{Appends, Consumes, Keeps};
ghost use Rattle.listing.specs.Listing.{intake, listing};
ghost use Rattle.strips.specs.declared.Failure.TheVariants.{Unread};

use intake::{ReadFailed, take_in};
use listing::{INTAKE, LISTING_ROOM, list};
use std::io::{Read, Write};
use std::{fmt, io};

// Why there is no listing.
#[derive(Clone, Copy)]
enum Failure {
    Unread,
    Unwritten,
}

impl From<ReadFailed> for Failure {
    ghost from_gives = { λ _ failure. failure ≡ Unread };

    fn from(_: ReadFailed) -> Failure {
        Failure::Unread
    }
}

impl fmt::Display for Failure {
    fn fmt<W: fmt::Write>(&self, f: &mut fmt::Formatter<W>) -> fmt::Result {
        f.write_str(match self {
            Failure::Unread => "standard input cannot be read",
            Failure::Unwritten => "the listing cannot be written",
        })
    }
}

// Hands the text to standard output: it has to be the listing of the file.
fn send<W: Write>(out: &mut W, file: &[u8], text: &[u8]) -> io::Result<()>
    requires { text.now ≡ listing file.now }
    ensures { OnOk result (Appends (W.contents out.old) (W.contents out.new) (listing file.now)) }
{
    out.write_all(text)
}

// Writes the listing of what came. The buffer has room for every listing, so that `list` refuses nothing.
fn answer<W: Write>(out: &mut W, file: &[u8]) -> io::Result<()>
    ensures { OnOk result (Appends (W.contents out.old) (W.contents out.new) (listing file.now)) }
{
    let mut text = [0u8; LISTING_ROOM];
    let n = list(file, &mut text).unwrap();
    send(out, file, &text[..n])
}

// Writes the listing of all that comes, of which it reads as much as is judged.
fn run<R: Read, W: Write>(input: &mut R, out: &mut W) -> Result<(), Failure>
    ensures listed { IfSome (R.remaining input.old) (λ file.
        OnOk result (Appends (W.contents out.old) (W.contents out.new) (listing file))) }
    ensures taken { (bytes : List ℕ) × (length bytes ≤ intake)
        × Consumes (R.remaining input.old) (R.remaining input.new) bytes }
    ensures unread { IsErrOf result Unread → Keeps (W.contents out.old) (W.contents out.new) }
{
    let mut file = [0u8; INTAKE];
    let bytes = take_in(input, &mut file)?;
    answer(out, &file[..bytes]).map_err(|_| Failure::Unwritten)
}

// Says on standard error what cannot be done.
fn complain(rt: &impl Eprint, failure: Failure) {
    let _ = eprintln!(rt; "strips: {failure}");
}

fn main(rt: HostRuntime) {
    if let Err(failure) = run(&mut rt.stdin(), &mut rt.stdout()) {
        complain(&rt, failure);
    }
}

#[cfg(test)]
mod tests {
    use super::{Failure, run};
    use std::io;
    use std::io::{Read, Write};

    // Gives its bytes one by one, and then fails.
    #[derive(Drop)]
    struct Broken<'a>(&'a [u8]);

    impl Read for Broken<'_> {
        fn read(&mut self, buf: &mut [u8]) -> io::Result<usize> {
            let Some((first, rest)) = self.0.split_first() else {
                return Err(io::Error::other("broken"));
            };
            if buf.is_empty() {
                return Ok(0);
            }
            buf[0] = *first;
            self.0 = rest;
            Ok(1)
        }
    }

    // Takes a byte, and then fails.
    #[derive(Drop)]
    struct Full {
        taken: bool,
    }

    impl Write for Full {
        fn write(&mut self, buf: &[u8]) -> io::Result<usize> {
            if self.taken || buf.is_empty() {
                return Err(io::Error::other("full"));
            }
            self.taken = true;
            Ok(1)
        }

        fn flush(&mut self) -> io::Result<()> {
            Ok(())
        }
    }

    // A job of one machine and no tile.
    const JOB: &[u8] = &[1, 0, 0, 0, 1, 0, 0, 0];

    #[test]
    fn a_read_that_fails_behind_a_whole_job(rt: HostRuntime) {
        let mut out = Vec::new(rt.alloc());
        let ended = run(&mut Broken(JOB), &mut out);
        assert!(rt; matches!(ended, Err(Failure::Unread)));
        assert!(rt; out.is_empty());
    }

    #[test]
    fn a_write_that_fails_in_the_listing(rt: HostRuntime) {
        let mut given = JOB;
        let ended = run(&mut given, &mut Full { taken: false });
        assert!(rt; matches!(ended, Err(Failure::Unwritten)));
    }
}
