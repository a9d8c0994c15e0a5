//! Attributes in one line: the name of the attribute type, and the value.

ghost use Rattle.std.specs.Prelude.{◌≡◌, OnOk};
ghost use Rattle.link_show.specs.Sink.{Gains};
ghost use Rattle.link_base.specs.Labels.{label_in};
ghost use Rattle.link_base.specs.Buffer.{kind_field_of};
ghost use Rattle.link_base.specs.Viewed.{set_in, buffer_in};
ghost use Rattle.link_show.specs.List.{flags_after, head_text, has_text, attribute_text, WritesAttribute};

use crate::flags::write_flags;
use crate::pieces::{Piece, put_pieces};
use crate::sink::Sink;
use crate::values::{write_content, write_unlabelled};
use link_base::rows::form::Width;
use link_base::rows::label::{KindLabel, Name};
use link_base::views::attribute_set::AttributeSet;
use link_base::views::content::{Content, Known};
use link_base::views::view::Value;
use link_base::{NlaBuffer, names};

/// The flags of `nla_type` (`include/uapi/linux/netlink.h`).
pub const TYPE_FLAGS: &[Name] = names![
    0x4000 "NLA_F_NET_BYTEORDER"
    0x8000 "NLA_F_NESTED"
];

/// Writes an attribute in one line, without LF: the name of its type and its value, such as
/// `IFLA_BR_FORWARD_DELAY 1500 (15.00 s)`. A type without a row is written with its number and its flags, as
/// `type 99 NLA_F_NESTED`. Lists, and attributes without a value, are written by their name alone.
///
/// # Errors
///
/// That of the writer.
#[tactic(auto, using(crate::proofs::ValueTexts::attribute_written))]
pub fn write_attribute<S: AttributeSet, W: Sink>(
    writer: &mut W,
    value: &Value<'_, S>,
) -> Result<(), W::Error>
    ensures { OnOk result (WritesAttribute (S.rows (set_in value.now)) (buffer_in value.now)
        (W.output writer.old) (W.output writer.new)) }
{
    let known = value.known();
    write_in_one_line(writer, &known, value.buffer())
}

/// Writes an attribute with this label and this content in one line.
#[tactic(auto, using(std::proofs::lemmas::Grind::common_steps, crate::specs::Gained::chains), unfolding(crate::specs::List::attribute_text))]
pub(crate) fn write_in_one_line<W: Sink>(
    writer: &mut W,
    known: &Known<'_>,
    buffer: NlaBuffer<'_>,
) -> Result<(), W::Error>
    ensures { OnOk result (Gains (W.output writer.old) (W.output writer.new)
        (attribute_text (label_in known.now.label) (kind_field_of buffer.entry) known.now.content)) }
{
    write_head(writer, &known.label, buffer)?;
    if !has_text(known.content) {
        return Ok(());
    }
    writer.put(b" ")?;
    match &known.label {
        Some(label) => write_content(writer, label, known.content),
        None => write_unlabelled(writer, known.content),
    }
}

/// Writes the name of an attribute's type.
#[tactic(auto, unfolding(crate::specs::List::head_text))]
pub(crate) fn write_head<W: Sink>(
    writer: &mut W,
    label: &Option<KindLabel>,
    buffer: NlaBuffer<'_>,
) -> Result<(), W::Error>
    ensures { OnOk result (Gains (W.output writer.old) (W.output writer.new)
        (head_text (label_in label.now) (kind_field_of buffer.entry))) }
{
    match label {
        Some(label) => writer.put(label.name.as_bytes()),
        None => {
            let kind = buffer.kind();
            put_pieces(writer, &[Piece::Text("type "), Piece::Number(kind as u64)])?;
            write_type_flags(writer, buffer.raw_kind() - kind)
        }
    }
}

/// Writes the flags of an `nla_type` after a space, if it has any.
fn write_type_flags<W: Sink>(writer: &mut W, flags: u16) -> Result<(), W::Error>
    ensures { OnOk result (Gains (W.output writer.old) (W.output writer.new) (flags_after flags)) }
{
    if flags == 0 {
        return Ok(());
    }
    writer.put(b" ")?;
    write_flags(writer, TYPE_FLAGS, Width::Two, flags as u64)
}

/// Checks whether a content is written after the name.
fn has_text(content: Content<'_>) -> bool
    ensures { result ≡ has_text content.entry }
{
    match content {
        Content::Nothing | Content::Addresses { .. } | Content::List { .. } => false,
        _ => true,
    }
}
