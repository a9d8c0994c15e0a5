//! Messages about links.

ghost use Rattle.std.specs.Prelude.{◌≡◌, ◌++◌, [], codes, IfOk, OnOk};
ghost use Rattle.std.specs.Fmt.{signed_decimal};
ghost use Rattle.std.specs.Option.{option_copied, option_map};
ghost use Rattle.link_messages.specs.BeforeFault.{name_in as text_in};
ghost use Rattle.link_show.specs.Sink.{Gains};
ghost use Rattle.link_base.specs.Labels.{names_in, name_in};
ghost use Rattle.link_messages.specs.Finding.{stretch_of};
ghost use Rattle.link_show.specs.Flags.{flags_text};
ghost use Rattle.link_show.specs.List.{Writes};
ghost use Rattle.link_show.specs.MessageNames.{device_flags};
ghost use Rattle.link_show.specs.Pieces.{piece_text};
ghost use Rattle.link_show.specs.HeaderText.{unless_zero, named_or, header_parts};
ghost use Rattle.link_show.specs.Message.{ShowsLink, IsLinkName, link_line, name_part};

use crate::flags::write_flags;
use crate::held::write_set;
use crate::line_options::LineOptions;
use crate::message_names::{ADDRESS_FAMILIES, DEVICE_FLAGS, DEVICE_TYPES};
use crate::pieces::{Piece, put_pieces};
use crate::quoted::write_quoted;
use crate::sink::Sink;
use link_base::rows::form::Width;
use link_base::rows::label::{Name, name_of};
use link_messages::link_types::IFLA_IFNAME;
use link_messages::{LinkHeader, Payload, last_before_fault};
use netlink_packet_route::{Family, without_nul};

/// Writes the lines of a message about a link, below its first line: the fields of its `struct ifinfomsg` and its name, and
/// its attributes, as [`write_family_list`](crate::write_family_list) writes lists. If the options ask, the lists of the kinds
/// and families among the attributes are checked. Returns whether no line is an error, and all lists that are checked are
/// canonical.
///
/// # Errors
///
/// That of the writer.
pub fn write_link<W: Sink>(
    writer: &mut W,
    header: &LinkHeader,
    list: Payload<'_>,
    options: LineOptions,
) -> Result<bool, W::Error>
    ensures { IfOk result (Writes (ShowsLink options header.now (stretch_of list.entry))
        (W.output writer.old) (W.output writer.new)) }
{
    write_link_line(writer, header, link_name(list))?;
    write_set(writer, options, header.family, "", 2, Family::Link, list)
}

/// Returns the text of the last `IFLA_IFNAME` before the first malformed header of a list.
fn link_name<'a>(list: Payload<'a>) -> Option<&'a [u8]>
    ensures { IsLinkName (stretch_of list.entry) (option_copied result) }
{
    text_of(last_before_fault(list, IFLA_IFNAME))
}

/// Returns the bytes of a payload, which may be missing, without the NUL at their end.
fn text_of<'a>(found: Option<Payload<'a>>) -> Option<&'a [u8]>
    ensures { option_copied result ≡ text_in (option_map stretch_of found.entry) }
{
    Some(without_nul(found?.bytes))
}

/// Writes the line of a link: its index, its name, and the other fields of the `struct ifinfomsg` that are not zero.
#[tactic(auto, unfolding(crate::specs::Message::link_line))]
fn write_link_line<W: Sink>(
    writer: &mut W,
    header: &LinkHeader,
    name: Option<&[u8]>,
) -> Result<(), W::Error>
    ensures { OnOk result (Gains (W.output writer.old) (W.output writer.new)
        (link_line header.now (option_copied name.entry))) }
{
    write_index(writer, header)?;
    write_name(writer, name)?;
    write_header_fields(writer, header)?;
    writer.put(b"\n")
}

/// Writes the fields of a `struct ifinfomsg` that are not zero, without the index.
pub(crate) fn write_header_fields<W: Sink>(
    writer: &mut W,
    header: &LinkHeader,
) -> Result<(), W::Error>
    ensures { OnOk result (Gains (W.output writer.old) (W.output writer.new) (header_parts header.now)) }
{
    write_named_field(writer, "family", ADDRESS_FAMILIES, header.family.into())?;
    write_named_field(writer, "type", DEVICE_TYPES, header.kind.into())?;
    write_device_flags(writer, "flags", header.flags.into())?;
    write_device_flags(writer, "change", header.change.into())
}

fn write_index<W: Sink>(writer: &mut W, header: &LinkHeader) -> Result<(), W::Error>
    ensures { OnOk result (Gains (W.output writer.old) (W.output writer.new)
        (codes "  ifindex " ++ signed_decimal header.now.index)) }
{
    let index = header.index;
    put_pieces(writer, &[Piece::Text("  ifindex "), Piece::Signed(index)])
}

/// Writes a name after a space, if there is one.
fn write_name<W: Sink>(writer: &mut W, name: Option<&[u8]>) -> Result<(), W::Error>
    ensures { OnOk result (Gains (W.output writer.old) (W.output writer.new)
        (name_part (option_copied name.entry))) }
{
    match name {
        Some(name) => {
            writer.put(b" name ")?;
            write_quoted(writer, name)
        }
        None => Ok(()),
    }
}

/// Writes a field that is a number with a name, after a space; nothing if it is 0.
fn write_named_field<W: Sink>(
    writer: &mut W,
    field: &str,
    names: &[Name],
    number: u64,
) -> Result<(), W::Error>
    ensures { OnOk result (Gains (W.output writer.old) (W.output writer.new)
        (unless_zero number field.now (named_or [] (name_in (names_in names.now) number) number))) }
{
    if number == 0 {
        return Ok(());
    }
    put_pieces(
        writer,
        &[
            Piece::Text(" "),
            Piece::Text(field),
            Piece::Text(" "),
            named_piece(names, number),
        ],
    )
}

/// Returns the name of a number, or the number.
fn named_piece(names: &[Name], number: u64) -> Piece<'static>
    ensures { piece_text result ≡ named_or [] (name_in (names_in names.now) number) number }
{
    match name_of(names, number) {
        Some(name) => Piece::Text(name),
        None => Piece::Number(number),
    }
}

/// Writes a field that is a set of flags of a device, after a space; nothing if none is set.
fn write_device_flags<W: Sink>(writer: &mut W, field: &str, flags: u64) -> Result<(), W::Error>
    ensures { OnOk result (Gains (W.output writer.old) (W.output writer.new)
        (unless_zero flags field.now (flags_text device_flags 4 flags))) }
{
    if flags == 0 {
        return Ok(());
    }
    put_pieces(
        writer,
        &[Piece::Text(" "), Piece::Text(field), Piece::Text(" ")],
    )?;
    write_flags(writer, DEVICE_FLAGS, Width::Four, flags)
}
