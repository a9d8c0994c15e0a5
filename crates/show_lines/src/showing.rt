//! Parses an input line, and has the output for it written.

ghost use Rattle.std.specs.Prelude.{◌≡◌, ◌≤◌, ◌↔◌, ◌+◌, ◌-◌, suc, length, false, Some, IsTrue, IfOk};
ghost use Rattle.std.specs.Option.{option_copied};
ghost use Rattle.std.specs.Io.KnownBytes.{Appends};
ghost use Rattle.netlink_packet_route.specs.Report.{most_text};
ghost use Rattle.show_lines.specs.Digits.{bad_hex};
ghost use Rattle.show_lines.specs.Show.{IsPassedOver, shower_of};
ghost use Rattle.show_lines.specs.Pieces.{AddsPieces, IfWritten};
ghost use Rattle.show_lines.specs.Progress.{WritesLine};

use crate::asking::Asked;
use crate::digits::{DigitsError, decode};
use crate::running::Stop;
use crate::show::ShowLines;
use netlink_packet_route::MOST_TEXT;
use netlink_packet_route::hex_text::is_space;
use std::alloc::Global;
use std::io::Write;

/// Writes the output for the input line with this number, from 1. Returns false if the line has an error: it is too long, has
/// no valid command or bad hex, or what it asks for has an error.
pub(crate) fn show_line<S: ShowLines, W: Write>(
    alloc: Global,
    shown: &S,
    paper: &mut S::Paper,
    number: u64,
    text: &[u8],
    writer: &mut W,
) -> Result<bool, Stop>
    ensures shown { IfOk result (WritesLine (shower_of S.refused S.answered shown.now) (number, text.now)
        (W.contents writer.old) (W.contents writer.new)) }
    ensures pieces { IfWritten result (AddsPieces (S.piece shown.now)
        (W.contents writer.old) (W.contents writer.new)) }
{
    if text.len() > MOST_TEXT {
        return refuse(alloc, shown, paper, number, None, "input too long", writer);
    }
    if is_passed_over(text) {
        return Ok(true);
    }
    show_asked(alloc, shown, paper, number, text, writer)
}

fn is_passed_over(text: &[u8]) -> bool
    ensures { IsTrue result ↔ IsPassedOver text.now }
{
    match text {
        [b'#', ..] => true,
        _ => text.iter().all(|b| is_space(*b)),
    }
}

/// Writes the output for a line that is not ignored. Returns false if it has an error: it has no valid command or bad hex,
/// or what it asks for has an error.
fn show_asked<S: ShowLines, W: Write>(
    alloc: Global,
    shown: &S,
    paper: &mut S::Paper,
    number: u64,
    text: &[u8],
    writer: &mut W,
) -> Result<bool, Stop>
    requires short { length text.now ≤ most_text }
    requires asks { ¬ IsPassedOver text.now }
    ensures shown { IfOk result (WritesLine (shower_of S.refused S.answered shown.now) (number, text.now)
        (W.contents writer.old) (W.contents writer.new)) }
    ensures pieces { IfWritten result (AddsPieces (S.piece shown.now)
        (W.contents writer.old) (W.contents writer.new)) }
{
    let (asked, digits) = match Asked::from_line(text) {
        Some(found) => found,
        None => {
            let reason = "no such family";
            return refuse(alloc, shown, paper, number, Some(text), reason, writer);
        }
    };
    match decode(alloc, digits) {
        Ok(bytes) => shown.answer(alloc, paper, number, text, asked, &bytes, writer),
        Err(DigitsError::Memory) => Err(Stop::Memory),
        Err(DigitsError::BadHex { at }) => {
            let column = column_of(text, digits, at);
            refuse_hex(alloc, shown, paper, number, text, column, writer)
        }
    }
}

/// Returns the column of a line, from 1, at an index of its last bytes.
fn column_of(text: &[u8], rest: &[u8], at: usize) -> usize
    requires { at ≤ length rest.now }
    ensures { result ≡ suc (length text.now - length rest.now + at) }
{
    text.len().saturating_sub(rest.len()) + at + 1
}

/// Writes that a line has bad hex at a column, and returns false.
fn refuse_hex<S: ShowLines, W: Write>(
    alloc: Global,
    shown: &S,
    paper: &mut S::Paper,
    number: u64,
    text: &[u8],
    column: usize,
    writer: &mut W,
) -> Result<bool, Stop>
    ensures shown { IfOk result (λ well. Appends (W.contents writer.old) (W.contents writer.new)
        (S.refused shown.now number (Some text.now) (bad_hex column)) × (well ≡ false)) }
    ensures pieces { IfWritten result (AddsPieces (S.piece shown.now)
        (W.contents writer.old) (W.contents writer.new)) }
{
    let Ok(reason) = format!(in alloc; "bad hex at column {column}") else {
        return Err(Stop::Memory);
    };
    refuse(
        alloc,
        shown,
        paper,
        number,
        Some(text),
        reason.as_str(),
        writer,
    )
}

/// Writes that a line is refused, and returns false.
fn refuse<S: ShowLines, W: Write>(
    alloc: Global,
    shown: &S,
    paper: &mut S::Paper,
    number: u64,
    text: Option<&[u8]>,
    reason: &str,
    writer: &mut W,
) -> Result<bool, Stop>
    ensures shown { IfOk result (λ well. Appends (W.contents writer.old) (W.contents writer.new)
        (S.refused shown.now number (option_copied text.entry) reason.now) × (well ≡ false)) }
    ensures pieces { IfWritten result (AddsPieces (S.piece shown.now)
        (W.contents writer.old) (W.contents writer.new)) }
{
    match shown.refuse(alloc, paper, number, text, reason, writer) {
        Ok(()) => Ok(false),
        Err(stop) => Err(stop),
    }
}
