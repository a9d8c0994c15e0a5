//! Formats lists.

ghost use Rattle.std.specs.Prelude.{◌≡◌, ◌++◌, length, IfOk, OnOk, string_bytes};
ghost use Rattle.netlink_packet_route.specs.Family.{table_of};
ghost use Rattle.netlink_packet_route.specs.Report.{fault_line};
ghost use Rattle.show_lines.specs.List.{Adds, AddsLines, ShowsList, unbroken};

use link_messages::{Part, Payload};
use netlink_packet_route::by_family;
use netlink_packet_route::link::{Attribute, DecodeFault, ListError, read_list};
use std::alloc::{AllocError, Global};
use std::fmt::{Debug, Write};

/// Appends the lines of a list to `text`. Returns whether the list decodes.
///
/// The line of an error starts with `indent`, the lines of values with `indent` and two spaces.
pub(crate) fn push_list(
    alloc: Global,
    text: &mut String,
    indent: &str,
    part: Part<'_>,
) -> Result<bool, AllocError>
    ensures { IfOk result (Adds (ShowsList
        indent.now part.entry.payload.at (table_of part.entry.family) part.entry.payload.bytes.now)
        (string_bytes text.old) (string_bytes text.new)) }
{
    by_family!(
        part.family,
        push_attributes(alloc, text, indent, part.payload)
    )
}

/// Appends a line for each value of a list, or one line with its first decode error. Returns whether the list decodes.
fn push_attributes<F: Attribute + Debug>(
    alloc: Global,
    text: &mut String,
    indent: &str,
    list: Payload<'_>,
) -> Result<bool, AllocError>
    ensures { IfOk result (Adds
        (ShowsList indent.now list.entry.at F.table list.entry.bytes.now) (string_bytes text.old) (string_bytes text.new)) }
{
    let values: Vec<F> = match read_list(alloc, list.bytes) {
        Ok(values) => values,
        Err(ListError::Memory(error)) => return Err(error),
        Err(ListError::Fault { at, fault }) => {
            push_fault(text, indent, list.at + at, fault)?;
            return Ok(false);
        }
    };
    push_values(alloc, text, indent, &values)?;
    Ok(true)
}

fn push_fault(
    text: &mut String,
    indent: &str,
    at: usize,
    fault: DecodeFault,
) -> Result<(), AllocError>
    ensures { OnOk result (string_bytes text.new ≡ string_bytes text.old ++ (indent.now ++ fault_line at fault)) }
{
    writeln!(text, "{indent}fault at {at}: {fault}")
}

/// Appends a line for each value: what `{:?}` prints.
fn push_values<F: Debug>(
    alloc: Global,
    text: &mut String,
    indent: &str,
    values: &[F],
) -> Result<(), AllocError>
    ensures { OnOk result (AddsLines indent.now (length values.now) (string_bytes text.old) (string_bytes text.new)) }
{
    let mut one = String::new(alloc);
    for value in values {
        one.clear();
        write!(one, "{value:?}")?;
        text.push_str(indent)?;
        text.push_str("  ")?;
        push_unbroken(text, one.as_str())?;
        text.push_str("\n")?;
    }
    Ok(())
}

/// Appends `words`, with `\n` in place of each LF, so that they stay on one line.
fn push_unbroken(text: &mut String, words: &str) -> Result<(), AllocError>
    ensures { OnOk result (string_bytes text.new ≡ string_bytes text.old ++ unbroken words.now) }
{
    let mut rest = words;
    while let Some((line, after)) = rest.split_once('\n') {
        text.push_str(line)?;
        text.push_str("\\n")?;
        rest = after;
    }
    text.push_str(rest)
}
