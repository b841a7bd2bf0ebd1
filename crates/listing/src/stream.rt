// A listing from a reader to a writer.
ghost use Rattle.std.specs.Prelude.{◌≡◌, [], ◌++◌, IfSome, IfOk, IfErr, OnOk, OnErr};
ghost use Rattle.std.specs.Io.KnownBytes.{Appends, IsAtEnd};
ghost use Rattle.listing.specs.Listing.{listing};
ghost use Rattle.listing.specs.Stream.{Reads, AppendsFront, Leaves, Advances};
ghost use Rattle.listing.specs.Lister.{to_come};

use super::lister::Lister;
use std::io::{self, ErrorKind, Read, Write};

/// What ended a listing early, and why.
#[derive(Clone, Copy, Debug)]
pub enum Failure {
    /// A read failed. What was read before is answered.
    Read(io::Error),
    /// A write failed, perhaps after a read did.
    Write(io::Error),
}

// Answers the pieces of the input to its end, or until a read fails, and then says why. A read that a signal interrupts is made again.
fn answer_pieces<R: Read, W: Write>(
    reader: &mut R,
    writer: &mut W,
    lister: &mut Lister,
) -> io::Result<io::Result<()>>
    requires { lister.old.waiting.items ≡ [] }
    ensures ok { OnOk result (Reads (R.remaining reader.old) (R.remaining reader.new) (λ input.
        Advances (W.contents writer.old) (W.contents writer.new)
        (λ unread. to_come lister.old (input ++ unread)) (to_come lister.new))) }
    ensures empty { OnOk result (lister.new.waiting.items ≡ []) }
    ensures end { IfOk result (λ read. OnOk read (IsAtEnd (R.remaining reader.new))) }
    ensures err { OnErr result (Reads (R.remaining reader.old) (R.remaining reader.new) (λ input.
        AppendsFront (W.contents writer.old) (W.contents writer.new) (to_come lister.old input))) }
{
    let mut piece = [0; 65536];
    // Turns are counted, since a call has to return: each reads a byte or more, or a signal has interrupted it.
    'reads: for _ in 0..u64::MAX {
        match reader.read(&mut piece) {
            Ok(0) => return Ok(Ok(())),
            Ok(n) => lister.take_piece(writer, &piece[..n])?,
            Err(error) if error.kind() == ErrorKind::Interrupted => {}
            Err(error) => return Ok(Err(error)),
        }
    }
    Ok(Err(io::Error::from(ErrorKind::TimedOut)))
}

// Answers all of the input, or what is read before a read fails.
fn answer_all<R: Read, W: Write>(reader: &mut R, writer: &mut W) -> io::Result<io::Result<()>>
    ensures ok { OnOk result (Reads (R.remaining reader.old) (R.remaining reader.new) (λ input.
        Appends (W.contents writer.old) (W.contents writer.new) (listing input))) }
    ensures end { IfOk result (λ read. OnOk read (IsAtEnd (R.remaining reader.new))) }
    ensures err { OnErr result (Reads (R.remaining reader.old) (R.remaining reader.new) (λ input.
        AppendsFront (W.contents writer.old) (W.contents writer.new) (listing input))) }
{
    let mut lister = Lister::new();
    lister.flush(writer)?;
    let read = answer_pieces(reader, writer, &mut lister)?;
    lister.finish(writer)?;
    Ok(read)
}

/// Reads lines to the end of the reader, where a read gives no bytes, and writes their listing: the header at once, and what a piece of input gives before
/// the next is read. The last line may end without a newline. Lines may be of any length and number: nothing is allocated. A read or a write that a signal
/// interrupts is made again. Where a read fails, a line that it cuts off is answered as far as it came.
pub fn list<R: Read, W: Write>(reader: &mut R, writer: &mut W) -> Result<(), Failure>
    // `remaining` is what reads will give from here on, and `contents` what the writer holds, where they are known: of a file or a terminal they are not.
    // All that the reader had left is read, and the writer has got its listing, in whatever pieces they came and went.
    ensures ok { OnOk result (IfSome (R.remaining reader.old) (λ input.
        Appends (W.contents writer.old) (W.contents writer.new) (listing input))) }
    ensures end { OnOk result (IsAtEnd (R.remaining reader.new)) }

    // After a failed read the writer has got the listing of what was read before, and after a failed write a beginning of it.
    ensures failed { IfErr result (λ failure.
        Reads (R.remaining reader.old) (R.remaining reader.new) (λ input.
        Leaves failure (W.contents writer.old) (W.contents writer.new) (listing input))) }
{
    match answer_all(reader, writer) {
        Ok(Ok(())) => Ok(()),
        Ok(Err(error)) => Err(Failure::Read(error)),
        Err(error) => Err(Failure::Write(error)),
    }
}
