//! Formats the lists of a message, and those that attributes of a list hold.

ghost use Rattle.std.specs.Prelude.{◌≡◌, ◌++◌, map, IfOk, OnOk, string_bytes};
ghost use Rattle.link_messages.specs.Finding.{stretch_of};
ghost use Rattle.link_messages.specs.Link.{part_of};
ghost use Rattle.show_lines.specs.List.{Adds};
ghost use Rattle.show_lines.specs.Messages.{ShowsLists, ShowsParts, ShowsPart, part_line};

use crate::lists::push_list;
use link_messages::{Part, Payload, lists_of};
use netlink_packet_route::Family;
use std::alloc::{AllocError, Global};
use std::fmt::Write;

/// Appends the lines of a list, and behind them those of each list that its attributes hold. Returns whether all decode.
pub(crate) fn push_lists(
    alloc: Global,
    text: &mut String,
    family: Family,
    list: Payload<'_>,
) -> Result<bool, AllocError>
    ensures { IfOk result (Adds (ShowsLists family (stretch_of list.entry)) (string_bytes text.old) (string_bytes text.new)) }
{
    let lists = lists_of(alloc, family, list)?;
    let own = Part {
        family,
        payload: list,
    };
    let whole = push_list(alloc, text, "", own)?;
    let held = push_parts(alloc, text, "", &lists[1..])?;
    Ok(whole & held)
}

/// Appends the lines of several lists. Returns whether they decode.
pub(crate) fn push_parts(
    alloc: Global,
    text: &mut String,
    indent: &str,
    parts: &[Part<'_>],
) -> Result<bool, AllocError>
    ensures { IfOk result (Adds (ShowsParts indent.now (map part_of parts.now)) (string_bytes text.old) (string_bytes text.new)) }
{
    let mut whole = true;
    for part in parts {
        let read = push_part(alloc, text, indent, *part)?;
        whole &= read;
    }
    Ok(whole)
}

/// Appends the name and the offset of a list, and its lines. Returns whether it decodes.
fn push_part(
    alloc: Global,
    text: &mut String,
    indent: &str,
    part: Part<'_>,
) -> Result<bool, AllocError>
    ensures { IfOk result (Adds (ShowsPart indent.now (part_of part.entry)) (string_bytes text.old) (string_bytes text.new)) }
{
    push_head(text, indent, part)?;
    push_list(alloc, text, indent, part)
}

fn push_head(text: &mut String, indent: &str, part: Part<'_>) -> Result<(), AllocError>
    ensures { OnOk result (string_bytes text.new ≡ string_bytes text.old ++ part_line indent.now (part_of part.entry)) }
{
    let name = part.family.name();
    let at = part.payload.at;
    writeln!(text, "{indent}{name} at {at}")
}
