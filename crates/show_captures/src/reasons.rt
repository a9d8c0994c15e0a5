//! Why a file cannot be opened or read, for standard error.

ghost use Rattle.std.specs.Prelude.{◌≡◌, ◌&&◌, ◌++◌, ◌∷◌, [], length, nat_lt, option_map, unsigned_abs, OnOk, codes};
ghost use Rattle.std.specs.Io.KnownBytes.{Appends};
ghost use Rattle.std.specs.List.{list_all};
ghost use Rattle.link_base.specs.Labels.{name_in};
ghost use Rattle.link_base.specs.WellFormed.{is_printable};
ghost use Rattle.program.specs.Told.{Tells, told};
ghost use Rattle.show_captures.specs.Reason.{number_text, reason_line, reason_text, reasons, shown_name};

use link_base::rows::label::{Name, name_of};
use link_show::write_quoted;
use program::Watched;
use std::io;
use std::io::Write;

/// Names, each after its number.
macro_rules! names {
    ($($number:literal $text:literal)*) => {
        &[$(Name { number: $number, text: $text },)*]
    };
}

/// Errors of open(2) and read(2) (include/uapi/asm-generic/errno.h), and their texts of strerror(3).
const REASONS: &[Name] = names![
    1 "Operation not permitted"
    2 "No such file or directory"
    4 "Interrupted system call"
    5 "Input/output error"
    6 "No such device or address"
    11 "Resource temporarily unavailable"
    12 "Cannot allocate memory"
    13 "Permission denied"
    16 "Device or resource busy"
    19 "No such device"
    20 "Not a directory"
    21 "Is a directory"
    22 "Invalid argument"
    23 "Too many open files in system"
    24 "Too many open files"
    26 "Text file busy"
    27 "File too large"
    36 "File name too long"
    40 "Too many levels of symbolic links"
    75 "Value too large for defined data type"
    95 "Operation not supported"
    104 "Connection reset by peer"
    110 "Connection timed out"
    116 "Stale file handle"
];

/// Writes to standard error why the file `name` cannot be opened or read, by its error number; without one, only what failed,
/// such as `cannot open`. Nothing is written after a write that failed.
pub fn tell_reason<E: Write>(errors: &mut Watched<E>, name: &str, errno: Option<i32>, what: &str)
    ensures { Tells (told E.contents errors.old) (told E.contents errors.new) (reason_line name.now errno what.now) }
{
    if errors.has_failed() {
        return;
    }
    if write_line(errors, name, errno, what).is_err() {
        errors.note_failure();
    }
}

fn write_line<W: Write>(
    writer: &mut W,
    name: &str,
    errno: Option<i32>,
    what: &str,
) -> io::Result<()>
    ensures { OnOk result (Appends (W.contents writer.old) (W.contents writer.new) (reason_line name.now errno what.now)) }
{
    writer.write_all(b"nlshow: ")?;
    write_name(writer, name)?;
    writer.write_all(b": ")?;
    write_reason(writer, errno, what)?;
    writer.write_all(b"\n")
}

/// Writes the name of a file: as it is, if it is printable ASCII and not empty; otherwise quoted.
fn write_name<W: Write>(writer: &mut W, name: &str) -> io::Result<()>
    ensures { OnOk result (Appends (W.contents writer.old) (W.contents writer.new) (shown_name name.now)) }
{
    let bytes = name.as_bytes();
    if !bytes.is_empty() && are_printable(bytes) {
        writer.write_all(bytes)
    } else {
        Ok(write_quoted(writer, bytes)?)
    }
}

fn are_printable(text: &[u8]) -> bool
    ensures { result ≡ list_all is_printable text.now }
{
    text.iter().all(|b| is_printable(*b))
}

fn is_printable(byte: u8) -> bool
    ensures { result ≡ is_printable byte }
{
    matches!(byte, b' '..=b'~')
}

/// Writes the reason of an error, by its number.
fn write_reason<W: Write>(writer: &mut W, errno: Option<i32>, what: &str) -> io::Result<()>
    ensures { OnOk result (Appends (W.contents writer.old) (W.contents writer.new) (reason_text errno what.now)) }
{
    match errno {
        Some(errno) => write_number(writer, errno.unsigned_abs()),
        None => writer.write_all(what.as_bytes()),
    }
}

/// Writes the text of an error number, or the number, if it has none.
fn write_number<W: Write>(writer: &mut W, errno: u32) -> io::Result<()>
    ensures { OnOk result (Appends (W.contents writer.old) (W.contents writer.new)
        (number_text errno (name_in reasons errno))) }
{
    write_text(writer, errno, text_of(errno))
}

/// Returns the text of an error number.
fn text_of(errno: u32) -> Option<&'static str>
    ensures { option_map (λ text. text.now) result ≡ name_in reasons errno }
{
    name_of(REASONS, errno.into())
}

/// Writes a text, or an error number.
fn write_text<W: Write>(writer: &mut W, errno: u32, text: Option<&str>) -> io::Result<()>
    ensures { OnOk result (Appends (W.contents writer.old) (W.contents writer.new)
        (number_text errno (option_map (λ text. text.now) text.entry))) }
{
    match text {
        Some(text) => writer.write_all(text.as_bytes()),
        None => write!(writer, "error number {errno}"),
    }
}
