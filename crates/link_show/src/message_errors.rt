//! Errors of messages.

ghost use Rattle.std.specs.Prelude.{◌≡◌, OnOk};
ghost use Rattle.link_show.specs.Sink.{Gains};
ghost use Rattle.link_show.specs.Message.{message_error_line, offset_of, reason_text};

use crate::faults::write_bytes;
use crate::pieces::{Piece, put_pieces};
use crate::sink::Sink;
use link_messages::MessageError;

/// Writes the line of an error of a message, such as `error at 0: nlmsg_len 8 is below 16`.
///
/// # Errors
///
/// That of the writer.
#[tactic(auto, using(std::proofs::lemmas::Grind::common_steps, crate::specs::Gained::chains), unfolding(crate::specs::Message::message_error_line))]
pub fn write_message_error<W: Sink>(
    writer: &mut W,
    indent: &str,
    error: MessageError,
) -> Result<(), W::Error>
    ensures { OnOk result (Gains (W.output writer.old) (W.output writer.new)
        (message_error_line indent.now error)) }
{
    let at = offset_of(error);
    put_pieces(
        writer,
        &[
            Piece::Text(indent),
            Piece::Text("error at "),
            Piece::Number(at as u64),
            Piece::Text(": "),
        ],
    )?;
    write_reason(writer, error)?;
    writer.put(b"\n")
}

/// Returns the offset of an error.
pub fn offset_of(error: MessageError) -> usize
    ensures { result ≡ offset_of error }
{
    match error {
        MessageError::ShortHeader { at, .. }
        | MessageError::SmallLength { at, .. }
        | MessageError::Overrun { at, .. }
        | MessageError::OtherType { at, .. }
        | MessageError::ShortLink { at, .. }
        | MessageError::ShortError { at, .. } => at,
    }
}

/// Writes an error of a message without its offset, such as `nlmsg_len 8 is below 16`.
///
/// # Errors
///
/// That of the writer.
pub fn write_reason<W: Sink>(writer: &mut W, error: MessageError) -> Result<(), W::Error>
    ensures { OnOk result (Gains (W.output writer.old) (W.output writer.new) (reason_text error)) }
{
    match error {
        MessageError::ShortHeader { left, .. } => {
            write_bytes(writer, left, " left, too few for a message header")
        }
        MessageError::SmallLength { length, .. } => put_pieces(
            writer,
            &[
                Piece::Text("nlmsg_len "),
                Piece::Number(length as u64),
                Piece::Text(" is below 16"),
            ],
        ),
        MessageError::Overrun { length, left, .. } => {
            put_pieces(
                writer,
                &[
                    Piece::Text("nlmsg_len "),
                    Piece::Number(length as u64),
                    Piece::Text(" exceeds the "),
                ],
            )?;
            write_bytes(writer, left, " left")
        }
        MessageError::OtherType { kind, .. } => put_pieces(
            writer,
            &[
                Piece::Text("type "),
                Piece::Number(kind as u64),
                Piece::Text(" is not that of a link message"),
            ],
        ),
        MessageError::ShortLink { length, .. } => {
            write_bytes(writer, length, ", too few for a link message")
        }
        MessageError::ShortError { length, .. } => {
            write_bytes(writer, length, ", too few for an error message")
        }
    }
}
