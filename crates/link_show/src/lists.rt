//! The lines of errors, and of attributes that are no lists.

ghost use Rattle.std.specs.Prelude.{OnOk};
ghost use Rattle.link_show.specs.Sink.{Gains};
ghost use Rattle.link_base.specs.Buffer.{kind_field_of};
ghost use Rattle.link_show.specs.Indents.{indent_text};
ghost use Rattle.link_show.specs.Fault.{fault_text};
ghost use Rattle.link_base.specs.Labels.{label_in};
ghost use Rattle.link_show.specs.List.{error_line, ShowsFlat, ShowsMore, WritesOut};

use crate::addresses::write_addresses;
use crate::attributes::write_in_one_line;
use crate::faults::write_fault;
use crate::indent::{Indent, write_indent};
use crate::pieces::{Piece, put_pieces};
use crate::sets::ListSet;
use crate::sink::Sink;
use link_base::views::content::{Content, Known};
use link_base::{DecodeFault, NlaBuffer};

/// Writes the line of an error at this offset.
pub(crate) fn write_error<S: ListSet, W: Sink>(
    writer: &mut W,
    set: S,
    indent: Indent<'_>,
    at: usize,
    fault: DecodeFault,
) -> Result<(), W::Error>
    ensures { OnOk result (Gains (W.output writer.old) (W.output writer.new)
        (error_line (indent_text indent.entry) at (fault_text (S.rows set) fault))) }
{
    write_indent(writer, indent)?;
    put_pieces(
        writer,
        &[
            Piece::Text("error at "),
            Piece::Number(at as u64),
            Piece::Text(": "),
        ],
    )?;
    write_fault(writer, set, fault)?;
    writer.put(b"\n")
}

/// Writes the line of an attribute that is not a nested list.
pub(crate) fn write_flat<W: Sink>(
    writer: &mut W,
    indent: Indent<'_>,
    known: &Known<'_>,
    buffer: NlaBuffer<'_>,
) -> Result<(), W::Error>
    ensures { OnOk result (WritesOut (ShowsFlat (indent_text indent.entry) (label_in known.now.label)
        (kind_field_of buffer.entry) known.now.content) (W.output writer.old) (W.output writer.new)) }
{
    write_indent(writer, indent)?;
    write_in_one_line(writer, known, buffer)?;
    write_more(writer, known.content)?;
    writer.put(b"\n")
}

/// Writes the addresses of a list of addresses after a space.
fn write_more<W: Sink>(writer: &mut W, content: Content<'_>) -> Result<(), W::Error>
    ensures { OnOk result (WritesOut (ShowsMore content.entry) (W.output writer.old) (W.output writer.new)) }
{
    match content {
        Content::Addresses { list, size } => {
            writer.put(b" ")?;
            write_addresses(writer, list, size)
        }
        _ => Ok(()),
    }
}
