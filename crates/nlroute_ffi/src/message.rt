//! The messages of a buffer, one at a time.

ghost use Rattle.std.specs.Prelude.{◌≡◌, ◌+◌, ◌<◌, ◌^◌, length, drop, IfOk, OnErr, MatchResult};
ghost use Rattle.link_messages.specs.Message.{packet_of};
ghost use Rattle.link_messages.specs.Header.{HasNoLinkHeader};
ghost use Rattle.link_messages.specs.Finding.{stretch_of};
ghost use Rattle.nlroute_ffi.specs.Messages.{plain_fields, link_fields, HasFields, HasNoFields, ReadsMessage};
ghost use Rattle.nlroute_ffi.specs.Messages.{MessageAnswers, MessageErrorAnswers};

use crate::fault::FirstError;
use crate::message_error::error_of;
use crate::refusal::Refusal;
use link_messages::{LinkHeader, Message, MessageError, Payload, any_message, link_header};

/// A message: `struct nlroute_message` of the header. Numbers are in the byte order of the machine. If the message is about a
/// link, the fields from `index` to `address_family` are those of its `struct ifinfomsg`; otherwise they are 0.
#[repr(C)]
#[derive(Clone, Copy)]
pub struct FoundMessage {
    /// Offset of the attributes in the buffer, in bytes. If the message is not about a link, that of its payload.
    pub list: u64,
    /// Length of the attributes, or of the payload, in bytes.
    pub length: u64,
    /// Offset of the next message.
    pub next: u64,
    /// `nlmsg_len`, without padding.
    pub len: u32,
    /// `nlmsg_seq`.
    pub sequence: u32,
    /// `nlmsg_pid`, the port ID of the sender.
    pub port: u32,
    /// `nlmsg_type`, `type` in C.
    pub kind: u16,
    /// `nlmsg_flags`.
    pub flags: u16,
    /// `ifi_index`.
    pub index: i32,
    /// `ifi_flags`.
    pub link_flags: u32,
    /// `ifi_change`.
    pub change: u32,
    /// `ifi_type`.
    pub link_type: u16,
    /// `ifi_family`.
    pub address_family: u8,
    /// 1 if the message has a `struct ifinfomsg`, and otherwise 0.
    pub is_link: u8,
}

/// Stores the message at offset `at` of a buffer in `message`, and returns 0.
///
/// # Errors
///
/// `Absent` at the end of the buffer, `Fault` if the message is malformed. Then `message` is unchanged.
pub(crate) fn store_message(
    bytes: &[u8],
    at: usize,
    message: &mut FoundMessage,
) -> Result<usize, Refusal>
    ensures answer { MessageAnswers at (drop at bytes.now) message.new result }
    ensures zero { IfOk result (λ n. n ≡ 0) }
    ensures unchanged { OnErr result (message.new ≡ message.old) }
{
    match read_message(bytes, at) {
        Ok(Some(found)) => {
            *message = found;
            Ok(0)
        }
        Ok(None) => Err(Refusal::Absent),
        Err(_) => Err(Refusal::Fault),
    }
}

/// Stores in `error` why the message at offset `at` of a buffer is malformed, and returns 0.
///
/// # Errors
///
/// `Absent` if it is well-formed, or at the end of the buffer. Then `error` is unchanged.
pub(crate) fn store_message_error(
    bytes: &[u8],
    at: usize,
    error: &mut FirstError,
) -> Result<usize, Refusal>
    ensures answer { MessageErrorAnswers at (drop at bytes.now) error.new result }
    ensures zero { IfOk result (λ n. n ≡ 0) }
    ensures unchanged { OnErr result (error.new ≡ error.old) }
{
    match read_message(bytes, at) {
        Ok(_) => Err(Refusal::Absent),
        Err(found) => {
            *error = error_of(found);
            Ok(0)
        }
    }
}

/// Returns the fields of the message at offset `at` of a buffer, or `None` at its end.
///
/// # Errors
///
/// Why the message is malformed: its `struct nlmsghdr`, or its `struct ifinfomsg`.
fn read_message(bytes: &[u8], at: usize) -> Result<Option<FoundMessage>, MessageError>
    ensures { ReadsMessage at (drop at bytes.now) result }
{
    match any_message(bytes, at) {
        Ok(Some(message)) => match fields_of(&message) {
            Ok(found) => Ok(Some(found)),
            Err(error) => Err(error),
        },
        Ok(None) => Ok(None),
        Err(error) => Err(error),
    }
}

/// Returns the fields of a message.
///
/// # Errors
///
/// Why it is malformed, if it is about a link.
fn fields_of(message: &Message<'_>) -> Result<FoundMessage, MessageError>
    requires { 16 + length message.now.payload.now < 2 ^ 32 }
    ensures { MatchResult result (HasFields message.now) (HasNoFields message.now) }
{
    match link_header(message) {
        Ok((header, list)) => Ok(link_fields(message, header, list)),
        Err(error) => without_header(message, error),
    }
}

/// Returns the fields of a message that has no `struct ifinfomsg`.
///
/// # Errors
///
/// `error`, which says why, if the message is about a link.
fn without_header(message: &Message<'_>, error: MessageError) -> Result<FoundMessage, MessageError>
    requires length { 16 + length message.now.payload.now < 2 ^ 32 }
    requires none { HasNoLinkHeader message.now.at (packet_of message.now) error }
    ensures { MatchResult result (HasFields message.now) (HasNoFields message.now) }
{
    match error {
        MessageError::OtherType { .. } => Ok(plain_fields(message)),
        _ => Err(error),
    }
}

/// Returns the fields of a message that is not about a link.
fn plain_fields(message: &Message<'_>) -> FoundMessage
    requires { 16 + length message.now.payload.now < 2 ^ 32 }
    ensures { result ≡ plain_fields message.now }
{
    let length = message.payload.len();
    FoundMessage {
        list: (message.at + 16) as u64,
        length: length as u64,
        next: message.next as u64,
        len: 16 + length as u32,
        sequence: message.sequence,
        port: message.port,
        kind: message.kind,
        flags: message.flags,
        index: 0,
        link_flags: 0,
        change: 0,
        link_type: 0,
        address_family: 0,
        is_link: 0,
    }
}

/// Returns the fields of a message about a link, with this header and these attributes.
fn link_fields(message: &Message<'_>, header: LinkHeader, list: Payload<'_>) -> FoundMessage
    requires { 16 + length message.now.payload.now < 2 ^ 32 }
    ensures { result ≡ link_fields message.now header (stretch_of list.entry) }
{
    FoundMessage {
        list: list.at as u64,
        length: list.bytes.len() as u64,
        index: header.index,
        link_flags: header.flags,
        change: header.change,
        link_type: header.kind,
        address_family: header.family,
        is_link: 1,
        ..plain_fields(message)
    }
}
