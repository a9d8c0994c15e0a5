//! Whether lists are canonical.

ghost use Rattle.std.specs.Prelude.{true, IfOk, OnOk};
ghost use Rattle.netlink_packet_route.specs.Family.{table_of};
ghost use Rattle.link_show.specs.Sink.{Gains};
ghost use Rattle.link_show.specs.Indents.{indent_text};
ghost use Rattle.link_show.specs.List.{ShowsVerdict, Writes, not_canonical_line};

use crate::indent::{Indent, write_indent};
use crate::pieces::{Piece, put_pieces};
use crate::sink::Sink;
use link_messages::Payload;
use netlink_packet_route::{Family, first_not_canonical};

/// Writes whether a list is canonical, and returns it.
///
/// # Errors
///
/// That of the writer.
pub fn write_verdict<W: Sink>(
    writer: &mut W,
    family: Family,
    indent: &str,
    list: Payload<'_>,
) -> Result<bool, W::Error>
    ensures { IfOk result (Writes (ShowsVerdict true indent.now list.entry.at (table_of family) list.entry.bytes.now)
        (W.output writer.old) (W.output writer.new)) }
{
    let indent = Indent {
        text: indent,
        spaces: 0,
    };
    write_judgement(writer, family, indent, list)
}

/// Writes whether a list is canonical, and returns it.
pub(crate) fn write_judgement<W: Sink>(
    writer: &mut W,
    family: Family,
    indent: Indent<'_>,
    list: Payload<'_>,
) -> Result<bool, W::Error>
    ensures { IfOk result (Writes (ShowsVerdict true (indent_text indent.entry) list.entry.at (table_of family) list.entry.bytes.now)
        (W.output writer.old) (W.output writer.new)) }
{
    match first_not_canonical(family, list.bytes) {
        Some(first) => {
            write_not_canonical(writer, indent, list.at + first)?;
            Ok(false)
        }
        None => {
            write_indent(writer, indent)?;
            writer.put(b"canonical\n")?;
            Ok(true)
        }
    }
}

/// Writes the line of a list whose first attribute that is not canonical is at this offset.
fn write_not_canonical<W: Sink>(
    writer: &mut W,
    indent: Indent<'_>,
    at: usize,
) -> Result<(), W::Error>
    ensures { OnOk result (Gains (W.output writer.old) (W.output writer.new) (not_canonical_line (indent_text indent.entry) at)) }
{
    write_indent(writer, indent)?;
    put_pieces(
        writer,
        &[
            Piece::Text("not canonical at "),
            Piece::Number(at as u64),
            Piece::Text("\n"),
        ],
    )
}
