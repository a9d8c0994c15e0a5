//! Repeats input lines in the output.

ghost use Rattle.std.specs.Prelude.{◌≡◌, OnOk};
ghost use Rattle.std.specs.Io.BufRead.{strip_last};
ghost use Rattle.std.specs.Io.KnownBytes.{Appends};
ghost use Rattle.std.specs.List.{list_all};
ghost use Rattle.netlink_packet_route.specs.Report.{line};
ghost use Rattle.show_lines.specs.Show.{is_repeated, repeated};

use link_show::write_quoted;
use std::io;
use std::io::Write;

/// Writes an input line, and LF. A CR at the end of the line is left out, if the rest is printable ASCII and tabs. A line with
/// any other byte is written between quotes, so that no byte of the input changes what a terminal shows.
///
/// # Errors
///
/// That of the writer.
pub(crate) fn write_repeated<W: Write>(writer: &mut W, text: &[u8]) -> io::Result<()>
    ensures { OnOk result (Appends (W.contents writer.old) (W.contents writer.new) (line (repeated text.now))) }
{
    write_text(writer, text)?;
    writer.write_all(b"\n")
}

/// Does what `write_repeated` does, without the LF.
fn write_text<W: Write>(writer: &mut W, text: &[u8]) -> io::Result<()>
    ensures { OnOk result (Appends (W.contents writer.old) (W.contents writer.new) (repeated text.now)) }
{
    let front = without_return(text);
    if are_repeated(front) {
        writer.write_all(front)
    } else {
        Ok(write_quoted(writer, text)?)
    }
}

/// Returns a line without the CR at its end, if it has one.
fn without_return(text: &[u8]) -> &[u8]
    ensures { result.now ≡ strip_last 13 text.now }
{
    if text.ends_with(b"\r") {
        &text[..text.len() - 1]
    } else {
        text
    }
}

/// Returns whether all bytes are repeated as they are.
fn are_repeated(text: &[u8]) -> bool
    ensures { result ≡ list_all is_repeated text.now }
{
    text.iter().all(|b| is_repeated(*b))
}

/// Returns whether a byte is repeated as it is: a printable ASCII character, or a tab.
fn is_repeated(byte: u8) -> bool
    ensures { result ≡ is_repeated byte }
{
    matches!(byte, b' '..=b'~' | b'\t')
}
