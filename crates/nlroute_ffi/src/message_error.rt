//! Errors of messages, in the struct of errors.

ghost use Rattle.std.specs.Prelude.{◌≡◌, [], ◌∷◌};
ghost use Rattle.nlroute_ffi.specs.ErrorText.{packet_length_of, header_error, message_error_of};
ghost use Rattle.nlroute_ffi.specs.Error.{error_numbers};
ghost use Rattle.nlroute_ffi.specs.Messages.{message_numbers};

use crate::fault::{FirstError, OVERRUN, SHORT_FRAME, SMALL_LENGTH, TOO_SHORT};
use link_messages::MessageError;

// The parts of a message that may be malformed: `enum nlroute_place` of the header.
const MESSAGE_HEADER: u32 = 6;

const LINK_HEADER: u32 = 7;

// One more, which no call reports.
const REPLY_HEADER: u32 = 8;

/// Length of a `struct nlmsghdr` and a `struct ifinfomsg`, in bytes.
const LINK_LENGTH: u64 = 32;

/// Length of a `struct nlmsghdr` and a `struct nlmsgerr`, in bytes.
const REPLY_LENGTH: u64 = 36;

/// Returns the struct with an error of a message.
pub(crate) fn error_of(error: MessageError) -> FirstError
    ensures { error_numbers result ≡ message_numbers error }
{
    match error {
        MessageError::ShortHeader { at, left } => in_message(at, SHORT_FRAME, left as u64, 0),
        MessageError::SmallLength { at, length } => in_message(at, SMALL_LENGTH, length.into(), 0),
        MessageError::Overrun { at, length, left } => {
            in_message(at, OVERRUN, length.into(), left as u64)
        }
        MessageError::OtherType { at, kind } => in_header(at, LINK_HEADER, kind, 0, 0, 0),
        MessageError::ShortLink { at, length } => in_header(
            at,
            LINK_HEADER,
            0,
            TOO_SHORT,
            LINK_LENGTH,
            length as u64,
        ),
        MessageError::ShortError { at, length } => in_header(
            at,
            REPLY_HEADER,
            0,
            TOO_SHORT,
            REPLY_LENGTH,
            length as u64,
        ),
    }
}

fn in_message(at: usize, cause: u32, first: u64, second: u64) -> FirstError
    ensures { error_numbers result ≡ at ∷ 6 ∷ 0 ∷ 0 ∷ cause ∷ first ∷ second ∷ [] }
{
    in_header(at, MESSAGE_HEADER, 0, cause, first, second)
}

fn in_header(at: usize, place: u32, kind: u16, cause: u32, first: u64, second: u64) -> FirstError
    ensures { error_numbers result ≡ at ∷ place ∷ kind ∷ 0 ∷ cause ∷ first ∷ second ∷ [] }
{
    FirstError {
        at: at as u64,
        first,
        second,
        place,
        kind: kind.into(),
        inner: 0,
        cause,
    }
}

/// Returns the error of a message in a struct; `None` if its numbers are not those of one.
pub(crate) fn message_error_of(error: &FirstError) -> Option<MessageError>
    ensures { result ≡ message_error_of error.now }
{
    if error.place == MESSAGE_HEADER {
        return header_error(error);
    }
    let is_short = error.cause == TOO_SHORT && error.first == LINK_LENGTH;
    if error.place == LINK_HEADER && is_short {
        return Some(MessageError::ShortLink {
            at: error.at as usize,
            length: error.second as usize,
        });
    }
    None
}

/// Returns the error in a struct as one in the header of a message; `None` if its cause is none of such errors.
fn header_error(error: &FirstError) -> Option<MessageError>
    ensures { result ≡ header_error error.now.at error.now.cause error.now.first error.now.second }
{
    let at = error.at as usize;
    match error.cause {
        SHORT_FRAME => Some(MessageError::ShortHeader {
            at,
            left: error.first as usize,
        }),
        SMALL_LENGTH => Some(MessageError::SmallLength {
            at,
            length: packet_length_of(error.first)?,
        }),
        OVERRUN => Some(MessageError::Overrun {
            at,
            length: packet_length_of(error.first)?,
            left: error.second as usize,
        }),
        _ => None,
    }
}

/// Returns a number as an `nlmsg_len`; `None` if it is too great.
fn packet_length_of(number: u64) -> Option<u32>
    ensures { result ≡ packet_length_of number }
{
    if number > 0xFFFF_FFFF {
        return None;
    }
    Some(number as u32)
}
