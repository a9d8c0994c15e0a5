//! The messages of a buffer, one at a time, and why one could not be parsed.

ghost use Rattle.std.specs.Prelude.{◌≡◌, ◌+◌, ◌<◌, ◌^◌, length, drop, Some, MatchResult};
ghost use Rattle.link_messages.specs.Message.{IsMessageAt, NextOfAny, NextMessage, header_fault, error_text};

use crate::buffer_parts::Message;
use crate::message_types::NLMSG_DONE;
use link_base::{u16_at, u32_at};
use netlink_packet_route::link::padded;
use std::error::Error;
use std::fmt;

/// Why a message, or its contents, could not be parsed. `at` is an offset in the buffer.
#[derive(Clone, Copy, Debug, PartialEq, Eq)]
pub enum MessageError {
    /// Only `left` bytes are left at the offset of a message: fewer than the 16 of a `struct nlmsghdr`.
    ShortHeader { at: usize, left: usize },
    /// `nlmsg_len` is less than 16, the size of the header.
    SmallLength { at: usize, length: u32 },
    /// `nlmsg_len` is greater than `left`, the number of bytes left.
    Overrun { at: usize, length: u32, left: usize },
    /// The message has another type than the function parses. `link_header` parses the seven types about links, which
    /// `is_any_link_type` names, `read_acknowledgement` NLMSG_ERROR and NLMSG_DONE.
    OtherType { at: usize, kind: u16 },
    /// A message about a link has `length` bytes: fewer than the 32 of `struct nlmsghdr` and `struct ifinfomsg`.
    ShortLink { at: usize, length: usize },
    /// An NLMSG_ERROR has `length` bytes: fewer than the 36 of `struct nlmsghdr` and `struct nlmsgerr`.
    ShortError { at: usize, length: usize },
}

impl fmt::Display for MessageError {
    ghost output = { λ error. Some (error_text error) };

    fn fmt<W: fmt::Write>(&self, f: &mut fmt::Formatter<W>) -> fmt::Result {
        match *self {
            MessageError::ShortHeader { at, left } => {
                write!(f, "short header at {at}: {left} bytes")
            }
            MessageError::SmallLength { at, length } => write!(f, "small length at {at}: {length}"),
            MessageError::Overrun { at, length, left } => {
                write!(f, "overrun at {at}: {length} of {left} bytes")
            }
            MessageError::OtherType { at, kind } => write!(f, "other type at {at}: {kind}"),
            MessageError::ShortLink { at, length } => {
                write!(f, "short link at {at}: {length} bytes")
            }
            MessageError::ShortError { at, length } => {
                write!(f, "short error at {at}: {length} bytes")
            }
        }
    }
}

impl Error for MessageError {}

/// Parses the message at offset `at` of a buffer. Returns `None` at the end of the buffer and at an `NLMSG_DONE`. The
/// following message is at offset `next`.
///
/// # Errors
///
/// `ShortHeader`, `SmallLength` or `Overrun`, checked in this order, if there is no message at `at`.
pub fn next_message(bytes: &[u8], at: usize) -> Result<Option<Message<'_>>, MessageError>
    ensures { NextMessage at (drop at bytes.now) result }
{
    let Some(message) = any_message(bytes, at)? else {
        return Ok(None);
    };
    if message.kind == NLMSG_DONE {
        return Ok(None);
    }
    Ok(Some(message))
}

/// Parses the message at offset `at` of a buffer, as `next_message` does, but returns an `NLMSG_DONE` like any other
/// message. Returns `None` only at the end of the buffer.
///
/// # Errors
///
/// As for `next_message`.
pub fn any_message(bytes: &[u8], at: usize) -> Result<Option<Message<'_>>, MessageError>
    ensures { NextOfAny at (drop at bytes.now) result }
{
    if at >= bytes.len() {
        return Ok(None);
    }
    let message = message_at(&bytes[at..], at)?;
    Ok(Some(message))
}

/// Parses the message at the start of `bytes`. `at` is the offset of `bytes` in the buffer.
///
/// # Errors
///
/// As for `next_message`.
fn message_at(bytes: &[u8], at: usize) -> Result<Message<'_>, MessageError>
    requires { at + length bytes.now < 2 ^ 64 }
    ensures { MatchResult result (IsMessageAt at bytes.now) (λ error. header_fault at bytes.now ≡ Some error) }
{
    let left = bytes.len();
    if left < 16 {
        return Err(MessageError::ShortHeader { at, left });
    }
    let length = u32_at(bytes, 0);
    if length < 16 {
        return Err(MessageError::SmallLength { at, length });
    }
    let end = length as usize;
    if end > left {
        return Err(MessageError::Overrun { at, length, left });
    }
    Ok(Message {
        at,
        kind: u16_at(bytes, 4),
        flags: u16_at(bytes, 6),
        sequence: u32_at(bytes, 8),
        port: u32_at(bytes, 12),
        payload: &bytes[16..end],
        next: at + padded(end).min(left),
    })
}
