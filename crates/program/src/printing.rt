//! The last text that a program prints, and its exit status.

ghost use Rattle.std.specs.Prelude.{◌≡◌, ◌≢◌, [], true, false, IsOk, OnOk};
ghost use Rattle.std.specs.Io.Buffered.{writer_buffer, writer_inner};
ghost use Rattle.std.specs.Io.KnownBytes.{Appends};
ghost use Rattle.program.specs.Printing.{PrintsOrFails, PrintsOrEnds, FlushesOrFails, no_memory_line, read_fault_line, write_fault_line};
ghost use Rattle.program.specs.Watched.{IsFault, given, has_failed, passed_on};

use crate::watched::Watched;
use std::alloc::Global;
use std::io;
use std::io::{BufWriter, Write};

/// Returns a `BufWriter` that passes each write on to `writer`. It does not allocate.
pub fn unbuffered<W: Write + Drop>(alloc: Global, writer: W) -> BufWriter<W>
    ensures inner { writer_inner result ≡ writer }
    ensures empty { writer_buffer result ≡ [] }
{
    BufWriter::with_capacity(alloc, 0, writer).unwrap()
}

/// Notes that `writer` failed, which then says so ([`Watched::has_failed`]). Returns 5.
pub fn end_failed<W: Write + Drop>(writer: &mut BufWriter<Watched<W>>) -> u8
    ensures status { result ≡ 5 }
    ensures failed { has_failed (writer_inner writer.new) ≡ true }
{
    writer.get_mut().note_failure();
    5
}

/// Flushes `writer`. Returns `status`, or 5 if the writer fails, which it then says.
pub fn finish<W: Write + Drop>(writer: &mut BufWriter<Watched<W>>, status: u8) -> u8
    ensures written { FlushesOrFails (given W.contents writer.old) (passed_on W.contents writer.new)
        status result (has_failed (writer_inner writer.new)) }
    ensures empty { result ≢ 5 → writer_buffer writer.new ≡ [] }
    ensures unfailed { has_failed (writer_inner writer.new) ≡ false → writer_buffer writer.new ≡ [] }
{
    match writer.flush() {
        Ok(()) => status,
        Err(_) => end_failed(writer),
    }
}

/// Writes `text` and flushes `writer`. Returns `status`, or 5 if the writer fails, which it then says.
pub fn print<W: Write + Drop>(writer: &mut BufWriter<Watched<W>>, text: &str, status: u8) -> u8
    ensures written { PrintsOrFails (given W.contents writer.old) (passed_on W.contents writer.new)
        text.now status result (has_failed (writer_inner writer.new)) }
    ensures empty { result ≢ 5 → writer_buffer writer.new ≡ [] }
    ensures unfailed { has_failed (writer_inner writer.new) ≡ false → writer_buffer writer.new ≡ [] }
{
    if writer.write_all(text.as_bytes()).is_err() {
        return end_failed(writer);
    }
    finish(writer, status)
}

/// Prints that an allocation failed. Returns 4, or 5 if the writer fails.
pub fn print_no_memory<W: Write + Drop>(writer: &mut BufWriter<Watched<W>>) -> u8
    ensures written { PrintsOrFails (given W.contents writer.old) (passed_on W.contents writer.new)
        no_memory_line 4 result (has_failed (writer_inner writer.new)) }
    ensures empty { result ≢ 5 → writer_buffer writer.new ≡ [] }
    ensures unfailed { has_failed (writer_inner writer.new) ≡ false → writer_buffer writer.new ≡ [] }
{
    print(writer, "no memory\n", 4)
}

/// Prints that the reader failed. Returns 5, whether the writer fails or not.
pub fn print_read_fault<W: Write + Drop>(writer: &mut BufWriter<Watched<W>>) -> u8
    ensures written { PrintsOrFails (given W.contents writer.old) (passed_on W.contents writer.new)
        read_fault_line 5 result (has_failed (writer_inner writer.new)) }
    ensures unfailed { has_failed (writer_inner writer.new) ≡ false → writer_buffer writer.new ≡ [] }
{
    print(writer, "read fault\n", 5)
}

/// Writes `text` and flushes `writer`, which may be any. Returns `status`, or 5 if the writer fails.
pub fn print_text<W: Write>(writer: &mut W, text: &str, status: u8) -> u8
    ensures { PrintsOrEnds (W.contents writer.old) (W.contents writer.new) text.now status result }
{
    if writer.write_all(text.as_bytes()).is_err() || writer.flush().is_err() {
        return 5;
    }
    status
}

/// If `writer` has failed, writes a line that says so to `errors`; but none if nobody reads what it writes, as after
/// `| head`.
///
/// # Errors
///
/// The error of `errors`.
pub fn print_write_fault<W: Write + Drop, E: Write>(
    writer: &BufWriter<Watched<W>>,
    errors: &mut E,
) -> io::Result<()>
    ensures failed { IsFault (writer_inner writer.now)
        → OnOk result (Appends (E.contents errors.old) (E.contents errors.new) write_fault_line) }
    ensures silent { ¬ IsFault (writer_inner writer.now) → IsOk result × (errors.new ≡ errors.old) }
{
    let watched = writer.get_ref();
    if watched.has_failed() && !watched.is_unread() {
        errors.write_all(b"write fault\n")
    } else {
        Ok(())
    }
}
