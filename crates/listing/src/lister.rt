// A listing in the making, in memory that does not grow with the input: of a line that is begun its first 82 bytes are kept, which tell the output line
// of any longer one, and output lines wait in a buffer, to be written in large pieces.
ghost use Rattle.std.specs.Prelude.{◌≡◌, ◌≢◌, ◌+◌, ◌≤◌, ℕ, List, [], ◌∷◌, ◌++◌, OnOk, OnErr};
ghost use Rattle.std.specs.Io.KnownBytes.{Appends};
ghost use Rattle.arrayvec.specs.ArrayVec.{array_vec_len};
ghost use Rattle.listing.specs.Listing.{listing, HasNoNewline};
ghost use Rattle.listing.specs.Stream.{AppendsFront, Steps};

use crate::{HEADER, listed};
use arrayvec::ArrayVec;
use std::io::{self, ErrorKind, Write};

// The line that is being read, and the output that waits to be written.
#[derive(Drop)]
pub(crate) struct Lister {
    // The number of the line, as far as 64 bits go.
    number: u64,
    // Its first 82 bytes: that is one more than a grid has, so they tell that it is too long.
    line: ArrayVec<u8, 82>,
    waiting: ArrayVec<u8, 4096>,
    ghost unended: { HasNoNewline line.items },
}

impl Lister {
    ghost use Rattle.listing.specs.Lister.{to_come};

    // The header waits, and the first line begins.
    pub(crate) fn new() -> Self
        ensures { (unread : List ℕ) → to_come result unread ≡ listing unread }
    {
        let mut waiting = ArrayVec::new();
        waiting.try_extend_from_slice(&HEADER).unwrap();
        Lister {
            number: 1,
            line: ArrayVec::new(),
            waiting,
        }
    }

    // Writes what waits.
    pub(crate) fn flush<W: Write>(&mut self, writer: &mut W) -> io::Result<()>
        ensures step { Steps (W.contents writer.old) (W.contents writer.new)
            (to_come self.old) (to_come self.new) result }
        ensures empty { OnOk result (self.new.waiting.items ≡ []) }
    {
        write_all(writer, &self.waiting)?;
        self.waiting.clear();
        Ok(())
    }

    // Keeps a byte of the line, unless 82 are kept.
    fn keep(&mut self, byte: u8)
        requires { byte ≢ 10 }
        ensures { (unread : List ℕ) → to_come self.old (byte ∷ unread) ≡ to_come self.new unread }
    {
        if !self.line.is_full() {
            self.line.push(byte);
        }
    }

    // Ends the line, whose output line waits from here on, and begins the next.
    fn end_line(&mut self)
        requires { array_vec_len self.old.waiting + 64 ≤ 4096 }
        ensures listed { (unread : List ℕ) →
            to_come self.old (10 ∷ unread) ≡ to_come self.new unread }
        ensures begun { self.new.line.items ≡ [] }
    {
        let text = listed(self.number, &self.line);
        self.waiting.try_extend_from_slice(&text).unwrap();
        self.number = self.number.saturating_add(1);
        self.line.clear();
    }

    // Makes room for an output line.
    fn make_room<W: Write>(&mut self, writer: &mut W) -> io::Result<()>
        ensures step { Steps (W.contents writer.old) (W.contents writer.new)
            (to_come self.old) (to_come self.new) result }
        ensures room { OnOk result (array_vec_len self.new.waiting + 64 ≤ 4096) }
    {
        if self.waiting.remaining_capacity() < 64 {
            self.flush(writer)?;
        }
        Ok(())
    }

    // Takes in a byte of the input.
    fn take_byte<W: Write>(&mut self, writer: &mut W, byte: u8) -> io::Result<()>
        ensures { Steps (W.contents writer.old) (W.contents writer.new)
            (λ unread. to_come self.old (byte ∷ unread)) (to_come self.new) result }
    {
        if byte == b'\n' {
            self.make_room(writer)?;
            self.end_line();
        } else {
            self.keep(byte);
        }
        Ok(())
    }

    // Takes in a piece of the input, and writes what it gives.
    pub(crate) fn take_piece<W: Write>(&mut self, writer: &mut W, piece: &[u8]) -> io::Result<()>
        ensures step { Steps (W.contents writer.old) (W.contents writer.new)
            (λ unread. to_come self.old (piece.now ++ unread)) (to_come self.new) result }
        ensures empty { OnOk result (self.new.waiting.items ≡ []) }
    {
        for &byte in piece {
            self.take_byte(writer, byte)?;
        }
        self.flush(writer)
    }

    // Ends the last line, where its newline is missing, and writes its output line. Nothing waits between two pieces.
    pub(crate) fn finish<W: Write>(&mut self, writer: &mut W) -> io::Result<()>
        requires { self.old.waiting.items ≡ [] }
        ensures ok { OnOk result
            (Appends (W.contents writer.old) (W.contents writer.new) (to_come self.old [])) }
        ensures err { OnErr result
            (AppendsFront (W.contents writer.old) (W.contents writer.new) (to_come self.old [])) }
    {
        if self.line.is_empty() {
            return Ok(());
        }
        self.end_line();
        write_all(writer, &self.waiting)
    }
}

// Writes bytes, in as many writes as it takes. Where one fails, a beginning of them is written.
fn write_all<W: Write>(writer: &mut W, bytes: &[u8]) -> io::Result<()>
    ensures ok { OnOk result (Appends (W.contents writer.old) (W.contents writer.new) bytes.now) }
    ensures err { OnErr result
        (AppendsFront (W.contents writer.old) (W.contents writer.new) bytes.now) }
{
    let mut written = 0;
    // Turns are counted, since a call has to return: each writes a byte or more, or a signal has interrupted it.
    'writes: for _ in 0..u64::MAX {
        if bytes.len() <= written {
            return Ok(());
        }
        match writer.write(&bytes[written..]) {
            Ok(0) => return Err(io::Error::from(ErrorKind::WriteZero)),
            Ok(n) => written += n,
            Err(error) if error.kind() == ErrorKind::Interrupted => {}
            Err(error) => return Err(error),
        }
    }
    Err(io::Error::from(ErrorKind::TimedOut))
}
