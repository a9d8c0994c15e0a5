//! The kernel's replies.

ghost use Rattle.std.specs.Prelude.{◌≡◌, option_map, IfOk, OnOk};
ghost use Rattle.std.specs.Int.{is_negative};
ghost use Rattle.std.specs.Int.RustNames.{unsigned_abs};
ghost use Rattle.link_show.specs.Sink.{Gains};
ghost use Rattle.link_show.specs.List.{Writes};
ghost use Rattle.link_show.specs.Message.{ShowsReply, errno_name, result_line, error_number_line, has_result, outcome_line};

use crate::errno::ERRNOS;
use crate::held::write_set;
use crate::line_options::LineOptions;
use crate::pieces::{Piece, put_pieces};
use crate::sink::Sink;
use link_base::rows::label::name_of;
use link_messages::Acknowledgement;
use netlink_packet_route::Family;

/// Writes the lines of an NLMSG_ERROR, below its first line: `ack`, or the error by its name and number; and its attributes,
/// as [`write_family_list`](crate::write_family_list) writes a list of the set `reply`, but never whether it is canonical.
/// Those of an NLMSG_DONE are the same, but without `ack`. Returns whether no line is an error of the message itself.
///
/// # Errors
///
/// That of the writer.
pub fn write_acknowledgement<W: Sink>(
    writer: &mut W,
    reply: &Acknowledgement<'_>,
    options: LineOptions,
) -> Result<bool, W::Error>
    ensures { IfOk result (Writes (ShowsReply options reply.now) (W.output writer.old) (W.output writer.new)) }
{
    write_outcome(writer, reply)?;
    write_set(writer, options, 0, "", 2, Family::Reply, reply.list)
}

/// Writes the line of the result of a request, or of a dump that failed.
fn write_outcome<W: Sink>(writer: &mut W, reply: &Acknowledgement<'_>) -> Result<(), W::Error>
    ensures { OnOk result (Gains (W.output writer.old) (W.output writer.new)
        (outcome_line reply.now)) }
{
    if has_result(reply) {
        return write_result(writer, reply);
    }
    Ok(())
}

/// Checks whether the result in a reply is written. That of an NLMSG_DONE is, if the dump failed.
pub fn has_result(reply: &Acknowledgement<'_>) -> bool
    ensures { result ≡ has_result reply.now }
{
    !reply.is_done | is_errno(reply)
}

/// Writes the line of the result of a request: `ack` for 0, otherwise an error.
#[tactic(auto, unfolding(crate::specs::Message::result_line))]
fn write_result<W: Sink>(writer: &mut W, reply: &Acknowledgement<'_>) -> Result<(), W::Error>
    ensures { OnOk result (Gains (W.output writer.old) (W.output writer.new)
        (result_line reply.now.error)) }
{
    let number = errno_of(reply);
    if number == 0 {
        return writer.put(b"  ack\n");
    }
    write_errno(writer, errno_name(reply), reply)
}

/// Returns errno without its sign, or 0 for success.
fn errno_of(reply: &Acknowledgement<'_>) -> u32
    ensures { result ≡ unsigned_abs reply.now.error }
{
    reply.error.unsigned_abs()
}

/// Checks whether the result of a request is an errno, which is negative.
fn is_errno(reply: &Acknowledgement<'_>) -> bool
    ensures { result ≡ is_negative reply.now.error }
{
    reply.error.is_negative()
}

/// Returns the name of the errno in a reply; `None` if it has no name, or is none, because it is not negative.
pub fn errno_name(reply: &Acknowledgement<'_>) -> Option<&'static str>
    ensures { option_map (λ text. text.now) result ≡ errno_name reply.now.error }
{
    if is_errno(reply) {
        return name_of(ERRNOS, errno_of(reply).into());
    }
    None
}

/// Writes the line of an error, with its name if it has one.
fn write_errno<W: Sink>(
    writer: &mut W,
    name: Option<&str>,
    reply: &Acknowledgement<'_>,
) -> Result<(), W::Error>
    ensures { OnOk result (Gains (W.output writer.old) (W.output writer.new)
        (error_number_line (option_map (λ text. text.now) name.entry) reply.now.error)) }
{
    let error = reply.error;
    match name {
        Some(name) => put_pieces(
            writer,
            &[
                Piece::Text("  error "),
                Piece::Text(name),
                Piece::Text(" ("),
                Piece::Signed(error),
                Piece::Text(")\n"),
            ],
        ),
        None => put_pieces(
            writer,
            &[
                Piece::Text("  error ("),
                Piece::Signed(error),
                Piece::Text(")\n"),
            ],
        ),
    }
}
