//! Text on its way to a writer, through a buffer of fixed size. What was sent and what waits are together always the
//! text so far. So a failed write leaves a beginning of the text, and no byte is written twice.
ghost use Rattle.std.specs.Prelude.{◌≡◌, ◌+◌, ◌<◌, ◌≤◌, ◌++◌, [], flat_map, length, is_ok, true};
ghost use Rattle.text_output.specs.Steps.Printing.{Prints, PrintsAll, Sends, calls_of};

use crate::device::Sink;
use arrayvec::ArrayVec;

/// The maximum number of bytes that wait in a printer.
pub const MOST_PENDING: usize = 8192;

/// A call of the writer failed: a write or a flush returned an error, or a write took none of one or more bytes. What
/// the writer took by then is a beginning of the text.
#[derive(Clone, Copy, Debug, PartialEq, Eq)]
pub struct WriteFailed;

/// A writer, and the bytes that wait until there are enough of them for a write. What still waits when a printer is
/// dropped is lost, so a text has to end with `send` or `finish`.
#[derive(Drop)]
pub struct Printer<'a, W> {
    /// The writer, which took what was sent.
    pub out: &'a mut W,
    /// The bytes that wait, at most `MOST_PENDING`.
    pub pending: ArrayVec<u8, MOST_PENDING>,
}

impl<'a, W: Sink> Printer<'a, W> {
    /// A printer over the writer, with no bytes yet.
    pub fn new(out: &'a mut W) -> Printer<'a, W>
        ensures same_writer { result.out.ghost_name ≡ out.entry.ghost_name }
        ensures writer { result.out.now ≡ out.entry.now }
        ensures nothing { result.pending.items ≡ [] }
    {
        Printer {
            out,
            pending: ArrayVec::new(),
        }
    }

    /// Sends what waits to the writer.
    pub fn send(&mut self) -> Result<(), WriteFailed>
        ensures printed { Prints W.contents (calls_of W.has_failed W.flushes) self.old self.new (is_ok result) [] }
        ensures nothing { is_ok result ≡ true → self.new.pending.items ≡ [] }
    {
        write_whole(self.out, self.pending.as_slice())?;
        self.pending.clear();
        Ok(())
    }

    /// Sends what waits if `count` more bytes do not fit after it.
    fn make_room(&mut self, count: usize) -> Result<(), WriteFailed>
        ensures printed { Prints W.contents (calls_of W.has_failed W.flushes) self.old self.new (is_ok result) [] }
        ensures room { is_ok result ≡ true → count ≤ MOST_PENDING
            → length self.new.pending.items + count ≤ MOST_PENDING }
        ensures nothing { is_ok result ≡ true → MOST_PENDING < count → self.new.pending.items ≡ [] }
    {
        if count <= self.pending.remaining_capacity() {
            return Ok(());
        }
        self.send()
    }

    /// Prints the bytes after those that wait. They are sent at once if there are more of them than ever wait.
    pub fn print(&mut self, bytes: &[u8]) -> Result<(), WriteFailed>
        ensures { Prints W.contents (calls_of W.has_failed W.flushes) self.old self.new (is_ok result) bytes.now }
    {
        self.make_room(bytes.len())?;
        match self.pending.try_extend_from_slice(bytes) {
            Ok(()) => Ok(()),
            // These are more than ever wait.
            Err(_) => write_whole(self.out, bytes),
        }
    }

    /// Prints the pieces, one after the other.
    pub fn print_all(&mut self, pieces: &[&[u8]]) -> Result<(), WriteFailed>
        ensures { Prints W.contents (calls_of W.has_failed W.flushes) self.old self.new (is_ok result)
            (flat_map (λ piece. piece.now) pieces.now) }
    {
        for piece in pieces {
            self.print(piece)?;
        }
        Ok(())
    }

    /// Sends what waits, and flushes the writer once.
    pub fn finish(&mut self) -> Result<(), WriteFailed>
        ensures printed { PrintsAll W.contents (calls_of W.has_failed W.flushes) self.old self.new (is_ok result) [] }
        ensures nothing { is_ok result ≡ true → self.new.pending.items ≡ [] }
    {
        self.send()?;
        match self.out.flush() {
            Ok(()) => Ok(()),
            Err(_) => Err(WriteFailed),
        }
    }
}

/// Writes all of the bytes, in as many calls as it takes.
fn write_whole<W: Sink>(out: &mut W, bytes: &[u8]) -> Result<(), WriteFailed>
    ensures { Sends W.contents (calls_of W.has_failed W.flushes) out.old out.new (is_ok result) bytes.now }
{
    let mut sent = 0;
    while sent < bytes.len() {
        match out.write(&bytes[sent..]) {
            Ok(n) if n > 0 => sent += n,
            _ => return Err(WriteFailed),
        }
    }
    Ok(())
}

/// Writes the pieces, one after the other. Allocates nothing, and does not flush the writer.
pub fn write_pieces<W: Sink>(out: &mut W, pieces: &[&[u8]]) -> Result<(), WriteFailed>
    ensures { Sends W.contents (calls_of W.has_failed W.flushes) out.old out.new (is_ok result)
        (flat_map (λ piece. piece.now) pieces.now) }
{
    let mut printer = Printer::new(out);
    printer.print_all(pieces)?;
    printer.send()
}
