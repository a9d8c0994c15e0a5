//! Runs the program on any reader and writer.

ghost use Rattle.std.specs.Prelude.{◌≡◌, ◌<◌, ◌≤◌, ℕ, List, IfOk, MatchOption, Some};
ghost use Rattle.std.specs.Option.{option_copied};
ghost use Rattle.std.specs.Io.KnownBytes.{Appends};
ghost use Rattle.netlink_packet_route.specs.declared.family.Family.{Family};
ghost use Rattle.netlink_packet_route.specs.Family.{family_name, table_of};
ghost use Rattle.nlroute.specs.Run.{RunsFor, IsNamed, IsNoFamily, IsRead, IsAllRead, usage_line};
ghost use Rattle.program.specs.Printing.{PrintsOrEnds, no_memory_line};

use netlink_packet_route::{Family, MOST_TEXT, report};
use program::print_text;
use std::alloc::Global;
use std::io::{Read, Write};

/// How many bytes of the input are read at most: one more than `report` accepts.
const MOST_READ: usize = MOST_TEXT + 1;

/// Reads the input from `reader` and writes its report for the `Family` called `name`. Without such a `Family`, writes the
/// usage line and reads nothing. The input ends when a read returns no bytes; at most `MOST_READ` bytes are read. The writer
/// is flushed; if it fails, nothing more is written. Returns the exit status:
///
/// - 0 on success;
/// - 1 if the list is malformed;
/// - 2 if the input is too long or not hex, or there is no such `Family`;
/// - 3 if a value does not fit;
/// - 4 if an allocation fails;
/// - 5 if the reader or the writer fails.
pub fn run<R: Read, W: Write>(
    alloc: Global,
    name: Option<&str>,
    reader: &mut R,
    writer: &mut W,
) -> u8
    ensures report { (family : Family) → option_copied name.entry ≡ Some (family_name family) → result < 4
        → RunsFor (table_of family) (R.remaining reader.old) (R.remaining reader.new)
        (W.contents writer.old) (W.contents writer.new) result }
    ensures bounded { (text : List ℕ) × IsRead (R.remaining reader.old) (R.remaining reader.new) text }
    // Without a `Family`, nothing is read.
    ensures unread { IsNoFamily (option_copied name.entry) → reader.new ≡ reader.old }
    ensures usage { IsNoFamily (option_copied name.entry)
        → PrintsOrEnds (W.contents writer.old) (W.contents writer.new) usage_line 2 result }
    ensures memory { result ≡ 4 → Appends (W.contents writer.old) (W.contents writer.new) no_memory_line }
    ensures known { result ≤ 5 }
{
    let Some(family) = family_of(name) else {
        return print_text(writer, "usage: nlroute FAMILY\n", 2);
    };
    let text = match read_text(alloc, reader) {
        Ok(text) => text,
        Err(InputError::Memory) => return print_text(writer, "no memory\n", 4),
        Err(InputError::Reader) => return print_text(writer, "read fault\n", 5),
    };
    match report(alloc, family, &text) {
        Ok((out, status)) => print_text(writer, out.as_str(), status),
        Err(_) => print_text(writer, "no memory\n", 4),
    }
}

/// Returns the `Family` called `name`, if there is one.
fn family_of(name: Option<&str>) -> Option<Family>
    ensures { MatchOption result (IsNoFamily (option_copied name.entry)) (IsNamed (option_copied name.entry)) }
{
    Family::from_name(name?)
}

/// Why the input could not be read.
#[derive(Debug, Drop)]
enum InputError {
    Memory,
    Reader,
}

/// Reads `reader` up to its end, but at most `MOST_READ` bytes.
fn read_text<R: Read>(alloc: Global, reader: &mut R) -> Result<Vec<u8>, InputError>
    ensures read { IfOk result (λ text. IsRead (R.remaining reader.old) (R.remaining reader.new) text.items) }
    ensures bounded { (text : List ℕ) × IsRead (R.remaining reader.old) (R.remaining reader.new) text }
    ensures all { IfOk result (λ text. IsAllRead text.items (R.remaining reader.new)) }
{
    let mut text = Vec::new(alloc);
    let mut chunk = [0u8; 4096];
    while text.len() < MOST_READ {
        let room = (MOST_READ - text.len()).min(chunk.len());
        let count = match reader.read(&mut chunk[..room]) {
            Ok(0) => return Ok(text),
            Ok(count) => count,
            Err(_) => return Err(InputError::Reader),
        };
        match text.extend_from_slice(&chunk[..count]) {
            Ok(()) => {}
            Err(_) => return Err(InputError::Memory),
        }
    }
    Ok(text)
}
