//! The texts of errors.

ghost use Rattle.std.specs.Prelude.{◌≡◌, ◌<◌, ◌^◌, [], IfOk, OnErr};
ghost use Rattle.netlink_packet_route.specs.Family.{table_of};
ghost use Rattle.nlroute_ffi.specs.Buffers.{cut_text};
ghost use Rattle.nlroute_ffi.specs.ErrorText.{fault_of, error_text, message_error_text, MessageTextAnswers, ErrorTextAnswers};

use crate::buffers::{refuse, store_words};
use crate::fault::{FirstError, fault_of};
use crate::message_error::message_error_of;
use crate::refusal::Refusal;
use itoa::Buffer;
use link_messages::MessageError;
use link_show::{Sink, Words, offset_of, write_fault, write_reason};
use netlink_packet_route::link::DecodeFault;
use netlink_packet_route::{Family, FamilySet};

/// An error in a list of an attribute set, at an offset.
#[derive(Drop)]
struct ErrorWords {
    family: Family,
    at: u64,
    fault: DecodeFault,
}

impl Words for ErrorWords {
    ghost words = { λ error. error_text (table_of error.family) error.at error.fault };

    fn write_words<W: Sink>(&self, writer: &mut W) -> Result<(), W::Error> {
        writer.put(b"error at ")?;
        writer.put(Buffer::new().format(self.at).as_bytes())?;
        writer.put(b": ")?;
        write_fault(
            writer,
            FamilySet {
                family: self.family,
            },
            self.fault,
        )
    }
}

/// An error of a message.
#[derive(Drop)]
struct MessageErrorWords {
    error: MessageError,
}

impl Words for MessageErrorWords {
    ghost words = { λ error. message_error_text error.error };

    fn write_words<W: Sink>(&self, writer: &mut W) -> Result<(), W::Error> {
        let at = offset_of(self.error) as u64;
        writer.put(b"error at ")?;
        writer.put(Buffer::new().format(at).as_bytes())?;
        writer.put(b": ")?;
        write_reason(writer, self.error)
    }
}

/// Stores the text of an error in a list of `family`, or of a message.
///
/// # Errors
///
/// `BadForm` if the numbers of `error` are not those of such an error. Then `buffer` has the empty text.
pub(crate) fn store_error_text(
    family: Family,
    error: &FirstError,
    buffer: &mut [u8],
) -> Result<usize, Refusal>
    ensures answer { ErrorTextAnswers error.now buffer.old buffer.new family result }
    ensures bounded { IfOk result (λ n. n < 2 ^ 63) }
    ensures empty { OnErr result (buffer.new ≡ cut_text [] buffer.old) }
{
    let at = error.at;
    match fault_of(error) {
        Some(fault) => Ok(store_words(&ErrorWords { family, at, fault }, buffer)),
        None => store_message_text(error, buffer),
    }
}

/// Stores the text of an error of a message.
///
/// # Errors
///
/// `BadForm` if the numbers of `error` are not those of one. Then `buffer` has the empty text.
fn store_message_text(error: &FirstError, buffer: &mut [u8]) -> Result<usize, Refusal>
    ensures answer { MessageTextAnswers error.now buffer.old buffer.new result }
    ensures bounded { IfOk result (λ n. n < 2 ^ 63) }
    ensures empty { OnErr result (buffer.new ≡ cut_text [] buffer.old) }
{
    match message_error_of(error) {
        Some(found) => Ok(store_words(&MessageErrorWords { error: found }, buffer)),
        None => refuse(Refusal::BadForm, buffer),
    }
}
