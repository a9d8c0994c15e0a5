//! Prints a list.

ghost use Rattle.std.specs.Prelude.{◌<◌, length, IfOk, IsSome, OnErr, OnOk};
ghost use Rattle.std.specs.Io.KnownBytes.{Appends};
ghost use Rattle.netlink_packet_route.specs.Report.{line};
ghost use Rattle.uses.specs.Printing.{last_line, IsTextOf, PrintsLines, PrintsList};

use crate::faults::read_front;
use netlink_packet_route::link::{Attribute, DecodeFault};
use std::alloc::{AllocError, Global};
use std::fmt::Debug;
use std::io;
use std::io::Write;

/// Prints each value of a list on a line of its own, as `{:?}` does but without newlines, up to the first decode error.
/// The last line then reports that error and its offset.
///
/// # Errors
///
/// An `io::Error` if the writer fails or an allocation fails, which is possible only if the list is not empty.
pub fn print_list<F: Attribute + Debug, W: Write>(
    alloc: Global,
    bytes: &[u8],
    writer: &mut W,
) -> io::Result<()>
    ensures printed { OnOk result (PrintsList F.table F.means F.debug_output bytes.now
        (W.contents writer.old) (W.contents writer.new)) }
    ensures error { OnErr result (0 < length bytes.now) }
{
    let (values, fault) = read_front::<F>(alloc, bytes)?;
    print_values(alloc, &values, writer)?;
    print_fault(fault, writer)
}

/// Prints a line for each value.
fn print_values<F: Debug, W: Write>(alloc: Global, values: &[F], writer: &mut W) -> io::Result<()>
    ensures printed { OnOk result (PrintsLines F.debug_output values.now (W.contents writer.old) (W.contents writer.new)) }
    ensures error { OnErr result (0 < length values.now) }
{
    for value in values {
        let words = words_of(alloc, value)?;
        print_line(&words, writer)?;
    }
    Ok(())
}

/// Formats a value as `{:?}` does, without newlines.
fn words_of<F: Debug>(alloc: Global, value: &F) -> Result<Vec<u8>, AllocError>
    ensures { IfOk result (λ words. IsTextOf (F.debug_output value.now) words.items) }
{
    let mut words = format!(in alloc; "{value:?}")?.into_bytes();
    words.retain(|byte| *byte != b'\n');
    Ok(words)
}

/// Prints `words` and a newline.
fn print_line<W: Write>(words: &[u8], writer: &mut W) -> io::Result<()>
    ensures { OnOk result (Appends (W.contents writer.old) (W.contents writer.new) (line words.now)) }
{
    writer.write_all(words)?;
    writer.write_all(b"\n")
}

/// Prints the line that reports the decode error, if there is one.
fn print_fault<W: Write>(fault: Option<(usize, DecodeFault)>, writer: &mut W) -> io::Result<()>
    ensures printed { OnOk result (Appends (W.contents writer.old) (W.contents writer.new) (last_line fault)) }
    ensures error { OnErr result (IsSome fault) }
{
    match fault {
        Some((at, fault)) => writeln!(writer, "fault at {at}: {fault}"),
        None => Ok(()),
    }
}
