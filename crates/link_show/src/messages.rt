//! Messages, and buffers of them.

ghost use Rattle.std.specs.Prelude.{◌↔◌, IsTrue, drop, codes, IfOk, OnOk};
ghost use Rattle.link_show.specs.Sink.{Gains};
ghost use Rattle.link_base.specs.Labels.{name_in};
ghost use Rattle.link_messages.specs.Acknowledgement.{IsReplyType};
ghost use Rattle.link_messages.specs.Header.{IsAnyLinkType};
ghost use Rattle.link_messages.specs.Message.{NextOfAny};
ghost use Rattle.link_show.specs.declared.line_options.LineOptions.{LineOptions};
ghost use Rattle.link_show.specs.List.{Writes};
ghost use Rattle.link_show.specs.MessageNames.{message_types};
ghost use Rattle.link_show.specs.Message.{ShowsMessages, ShowsEnd, ShowsMessage, ShowsBody, message_line};
ghost use Rattle.link_show.specs.HeaderText.{named_or};
ghost use Rattle.link_show.specs.Message.{IsGeneral, AreZerosAfter, zeros_line};

use crate::faults::bytes_of;
use crate::flags::write_flags;
use crate::line_options::LineOptions;
use crate::links::write_link;
use crate::message_errors::write_message_error;
use crate::message_names::{MESSAGE_TYPES, flag_names};
use crate::pieces::{Piece, put_pieces};
use crate::replies::write_acknowledgement;
use crate::sink::Sink;
use link_base::rows::form::Width;
use link_base::rows::label::name_of;
use link_messages::message_types::{NLMSG_DONE, NLMSG_ERROR, RTM_GETLINK};
use link_messages::{
    Message, MessageError, any_message, is_any_link_type, link_header, read_acknowledgement,
};

/// Writes the lines of the messages of a buffer, up to its end or to an NLMSG_DONE. Zero bytes after a message are one
/// line, and no error. Returns whether no line is an error, and all lists that are checked are canonical.
///
/// # Errors
///
/// That of the writer.
pub fn write_messages<W: Sink>(
    writer: &mut W,
    buffer: &[u8],
    options: LineOptions,
) -> Result<bool, W::Error>
    ensures { IfOk result (Writes (ShowsMessages options buffer.now)
        (W.output writer.old) (W.output writer.new)) }
{
    let mut whole = true;
    let mut at = 0;
    loop {
        let message = match any_message(buffer, at) {
            Ok(Some(message)) => message,
            Ok(None) => return Ok(whole),
            Err(error) => {
                let sound = write_rest(writer, buffer, at, error)?;
                return Ok(whole & sound);
            }
        };
        let well = write_message(writer, &message, options)?;
        whole &= well;
        if message.kind == NLMSG_DONE {
            return Ok(whole);
        }
        at = message.next;
    }
}

/// Writes the line of the bytes that are left at offset `at`, which are no message: zeros after a message, or an error.
/// Returns false if it is an error.
fn write_rest<W: Sink>(
    writer: &mut W,
    buffer: &[u8],
    at: usize,
    error: MessageError,
) -> Result<bool, W::Error>
    requires { NextOfAny at (drop at buffer.now) (Err error) }
    ensures { (options : LineOptions) → IfOk result (Writes (ShowsEnd options buffer.now at)
        (W.output writer.old) (W.output writer.new)) }
{
    let rest = &buffer[at..];
    if are_zeros_after(at, rest) {
        write_zeros(writer, at, rest.len())?;
        return Ok(true);
    }
    write_message_error(writer, "", error)?;
    Ok(false)
}

/// Checks whether the bytes that are left at offset `at` are zeros after a message.
pub fn are_zeros_after(at: usize, rest: &[u8]) -> bool
    ensures { IsTrue result ↔ AreZerosAfter at rest.now }
{
    at > 0 && rest.iter().all(|b| *b == 0)
}

/// Writes the line of `count` zero bytes at offset `at`.
fn write_zeros<W: Sink>(writer: &mut W, at: usize, count: usize) -> Result<(), W::Error>
    ensures { OnOk result (Gains (W.output writer.old) (W.output writer.new) (zeros_line at count)) }
{
    let bytes = bytes_of(count);
    put_pieces(
        writer,
        &[
            Piece::Number(count as u64),
            Piece::Text(" zero"),
            Piece::Text(bytes),
            Piece::Text(" at "),
            Piece::Number(at as u64),
            Piece::Text("\n"),
        ],
    )
}

/// Writes the lines of a message. Returns whether none is an error, and all lists that are checked are
/// canonical.
///
/// # Errors
///
/// That of the writer.
pub fn write_message<W: Sink>(
    writer: &mut W,
    message: &Message<'_>,
    options: LineOptions,
) -> Result<bool, W::Error>
    ensures { IfOk result (Writes (ShowsMessage options message.now)
        (W.output writer.old) (W.output writer.new)) }
{
    write_first_line(writer, message)?;
    match message.kind {
        NLMSG_ERROR | NLMSG_DONE => write_reply(writer, message, options),
        kind if is_any_link_type(kind) => write_about_link(writer, message, options),
        _ => Ok(true),
    }
}

/// Writes the first line of a message: its type and the other fields of its header.
#[tactic(auto, unfolding(crate::specs::Message::message_line))]
fn write_first_line<W: Sink>(writer: &mut W, message: &Message<'_>) -> Result<(), W::Error>
    ensures { OnOk result (Gains (W.output writer.old) (W.output writer.new)
        (message_line message.now)) }
{
    write_type(writer, message.kind.into())?;
    let length = 16 + message.payload.len();
    put_pieces(
        writer,
        &[
            Piece::Text(" len "),
            Piece::Number(length as u64),
            Piece::Text(" flags "),
        ],
    )?;
    write_flags(
        writer,
        flag_names(message.kind),
        Width::Two,
        message.flags.into(),
    )?;
    let sequence = message.sequence;
    let port = message.port;
    put_pieces(
        writer,
        &[
            Piece::Text(" seq "),
            Piece::Number(sequence as u64),
            Piece::Text(" pid "),
            Piece::Number(port as u64),
            Piece::Text("\n"),
        ],
    )
}

fn write_type<W: Sink>(writer: &mut W, kind: u64) -> Result<(), W::Error>
    ensures { OnOk result (Gains (W.output writer.old) (W.output writer.new)
        (named_or (codes "type ") (name_in message_types kind) kind)) }
{
    match name_of(MESSAGE_TYPES, kind) {
        Some(name) => writer.put(name.as_bytes()),
        None => put_pieces(writer, &[Piece::Text("type "), Piece::Number(kind as u64)]),
    }
}

/// Writes the lines of a message about a link, below its first line. A request in the general form has none.
fn write_about_link<W: Sink>(
    writer: &mut W,
    message: &Message<'_>,
    options: LineOptions,
) -> Result<bool, W::Error>
    requires { IsAnyLinkType message.now.kind }
    ensures { IfOk result (Writes (ShowsBody options message.now)
        (W.output writer.old) (W.output writer.new)) }
{
    if is_general(message) {
        return Ok(true);
    }
    match link_header(message) {
        Ok((header, list)) => write_link(writer, &header, list, options),
        Err(error) => {
            write_message_error(writer, "  ", error)?;
            Ok(false)
        }
    }
}

/// Checks whether a message is an RTM_GETLINK in the general form, which has a `struct rtgenmsg` in place of a
/// `struct ifinfomsg` (`include/uapi/linux/rtnetlink.h`). The kernel takes dump requests with 1 to 15 bytes so;
/// `getifaddrs` of libc sends 4.
pub fn is_general(message: &Message<'_>) -> bool
    ensures { IsTrue result ↔ IsGeneral message.now }
{
    message.kind == RTM_GETLINK && (1..16).contains(&message.payload.len())
}

/// Writes the lines of an NLMSG_ERROR or an NLMSG_DONE, below its first line.
fn write_reply<W: Sink>(
    writer: &mut W,
    message: &Message<'_>,
    options: LineOptions,
) -> Result<bool, W::Error>
    requires { IsReplyType message.now.kind }
    ensures { IfOk result (Writes (ShowsBody options message.now)
        (W.output writer.old) (W.output writer.new)) }
{
    match read_acknowledgement(message) {
        Ok(reply) => write_acknowledgement(writer, &reply, options),
        Err(error) => {
            write_message_error(writer, "  ", error)?;
            Ok(false)
        }
    }
}
