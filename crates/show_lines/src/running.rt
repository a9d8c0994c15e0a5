//! Reads lines from any reader, and writes what is printed for them to any writer.

ghost use Rattle.std.specs.Prelude.{◌≡◌, ◌<◌, ◌++◌, suc, [], length, IfOk, MatchOption};
ghost use Rattle.std.specs.Io.{ReadsAtMost};
ghost use Rattle.std.specs.Io.Buffered.{writer_buffer, writer_contents, writer_inner};
ghost use Rattle.std.specs.Io.KnownBytes.{ReadConsumes};
ghost use Rattle.netlink_packet_route.specs.Report.{line};
ghost use Rattle.show_lines.specs.Show.{IsUnbroken, shower_of};
ghost use Rattle.show_lines.specs.Pieces.{AddsPieces, IfWritten};
ghost use Rattle.show_lines.specs.Progress.{held_of, WritesLine, WritesPiece, WritesRest};
ghost use Rattle.show_lines.specs.Run.{Runs};

use crate::held::Held;
use crate::show::ShowLines;
use crate::showing::show_line;
use std::alloc::Global;
use std::io;
use std::io::{BufWriter, Read, Write};

/// Why a run stopped before its end.
#[derive(Clone, Copy, Debug, PartialEq, Eq)]
pub enum Stop {
    /// An allocation failed.
    Memory,
    /// The reader failed.
    Reader,
    /// The writer failed.
    Writer,
}

/// Processes the lines of `first`, which was read before, and of `reader` up to its end; the last one may lack its LF.
/// Writes the output for each and flushes it: whenever it reads, the output for all lines that it has read is written, and
/// nothing is left in the buffer of `writer`. `chunk` is the memory for reads. Returns whether no line has an error.
///
/// # Errors
///
/// A [`Stop`]: `Reader` also if the number of the next line would be 2<sup>64</sup>.
pub fn show_lines<S: ShowLines, R: Read, W: Write + Drop>(
    alloc: Global,
    shown: &S,
    paper: &mut S::Paper,
    first: &[u8],
    chunk: &mut [u8],
    reader: &mut R,
    writer: &mut BufWriter<W>,
) -> Result<bool, Stop>
    requires { 0 < length chunk.old }
    ensures shown { IfOk result (Runs (shower_of S.refused S.answered shown.now) first.now (R.remaining reader.old) (R.remaining reader.new)
        (writer_contents W.contents writer.old) (writer_contents W.contents writer.new)) }
    ensures pieces { IfWritten result (AddsPieces (S.piece shown.now)
        (writer_contents W.contents writer.old) (writer_contents W.contents writer.new)) }
{
    let mut held = Held::new(alloc);
    let mut whole = match feed(alloc, shown, paper, &mut held, first, writer) {
        Ok(read) => read,
        Err(stop) => return Err(stop),
    };
    for _ in 0..u64::MAX {
        let count = match read_more(reader, chunk, writer) {
            Ok(0) => return end_text(alloc, shown, paper, &held, whole, writer),
            Ok(count) => count,
            Err(_) => return Err(Stop::Reader),
        };
        let (front, _) = chunk.split_at(count);
        match feed(alloc, shown, paper, &mut held, front, writer) {
            Ok(read) => whole &= read,
            Err(stop) => return Err(stop),
        }
    }
    Err(Stop::Reader)
}

/// Reads into `chunk`, as [`Read::read`] does. The output has to be flushed first: a program at the other end of two pipes
/// may write its next line only after the output for the last one.
///
/// # Errors
///
/// That of the reader.
pub fn read_more<R: Read, W: Write + Drop>(
    reader: &mut R,
    chunk: &mut [u8],
    writer: &BufWriter<W>,
) -> io::Result<usize>
    requires { writer_buffer writer.now ≡ [] }
    ensures bound { ReadsAtMost result chunk.new }
    ensures bytes { ReadConsumes (R.remaining reader.old) (R.remaining reader.new) result chunk.new }
{
    reader.read(chunk)
}

/// Processes the lines that end in `chunk`, flushes the output, and keeps what follows the last LF. Returns whether none
/// of these lines has an error.
fn feed<S: ShowLines, W: Write + Drop>(
    alloc: Global,
    shown: &S,
    paper: &mut S::Paper,
    held: &mut Held,
    chunk: &[u8],
    writer: &mut BufWriter<W>,
) -> Result<bool, Stop>
    ensures shown { IfOk result (WritesPiece (shower_of S.refused S.answered shown.now) held.old held.new chunk.now
        (writer_contents W.contents writer.old) (writer_contents W.contents writer.new)) }
    ensures flushed { IfOk result (λ _. writer_buffer writer.new ≡ []) }
    ensures pieces { IfWritten result (AddsPieces (S.piece shown.now)
        (writer_contents W.contents writer.old) (writer_contents W.contents writer.new)) }
{
    let mut whole = true;
    let mut rest = chunk;
    while let Some((piece, after)) = split_line(rest) {
        match end_line(alloc, shown, paper, held, piece, writer) {
            Ok(read) => whole &= read,
            Err(stop) => return Err(stop),
        }
        rest = after;
    }
    match held.add(rest) {
        Ok(()) => {}
        Err(_) => return Err(Stop::Memory),
    }
    match writer.flush() {
        Ok(()) => Ok(whole),
        Err(_) => Err(Stop::Writer),
    }
}

/// Splits `bytes` at the first LF. Returns what precedes and what follows it, or `None` if there is no LF.
fn split_line(bytes: &[u8]) -> Option<(&[u8], &[u8])>
    ensures { MatchOption result (IsUnbroken bytes.now)
        (λ parts. IsUnbroken parts.0.now × (bytes.now ≡ line parts.0.now ++ parts.1.now)) }
{
    let end = bytes.iter().position(|b| *b == b'\n')?;
    let (line, rest) = bytes.split_at(end);
    let (_, after) = rest.split_at(1);
    Some((line, after))
}

/// Processes the line that ends with `piece`.
fn end_line<S: ShowLines, W: Write>(
    alloc: Global,
    shown: &S,
    paper: &mut S::Paper,
    held: &mut Held,
    piece: &[u8],
    writer: &mut W,
) -> Result<bool, Stop>
    ensures shown { IfOk result (WritesLine (shower_of S.refused S.answered shown.now) (held.old.0, held_of (held.old.1 ++ piece.now))
        (W.contents writer.old) (W.contents writer.new)) }
    ensures forgotten { IfOk result (λ _. held.new ≡ (suc held.old.0, [])) }
    ensures pieces { IfWritten result (AddsPieces (S.piece shown.now)
        (W.contents writer.old) (W.contents writer.new)) }
{
    match held.add(piece) {
        Ok(()) => {}
        Err(_) => return Err(Stop::Memory),
    }
    let read = match show_line(alloc, shown, paper, held.number(), held.bytes(), writer) {
        Ok(read) => read,
        Err(stop) => return Err(stop),
    };
    match held.begin_next() {
        Ok(()) => Ok(read),
        Err(stop) => Err(stop),
    }
}

/// Processes the last line, if it lacks its LF. Returns whether neither this line nor an earlier one has an error.
fn end_text<S: ShowLines, W: Write>(
    alloc: Global,
    shown: &S,
    paper: &mut S::Paper,
    held: &Held,
    whole: bool,
    writer: &mut W,
) -> Result<bool, Stop>
    ensures shown { IfOk result (WritesRest (shower_of S.refused S.answered shown.now) held.now whole
        (W.contents writer.old) (W.contents writer.new)) }
    ensures pieces { IfWritten result (AddsPieces (S.piece shown.now)
        (W.contents writer.old) (W.contents writer.new)) }
{
    let text = held.bytes();
    if text.is_empty() {
        return Ok(whole);
    }
    match show_line(alloc, shown, paper, held.number(), text, writer) {
        Ok(read) => Ok(whole & read),
        Err(stop) => Err(stop),
    }
}
