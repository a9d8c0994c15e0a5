//! Formats messages.

ghost use Rattle.std.specs.Prelude.{◌≡◌, ◌++◌, IfOk, OnOk, string_bytes};
ghost use Rattle.link_messages.specs.declared.header.LinkHeader.{LinkHeader};
ghost use Rattle.link_messages.specs.Header.{HasLinkHeader};
ghost use Rattle.link_messages.specs.Message.{packet_of};
ghost use Rattle.show_lines.specs.List.{Adds};
ghost use Rattle.show_lines.specs.Messages.{ShowsMessages, ShowsMessage, error_line, index_line};

use crate::parts::push_parts;
use link_messages::{
    LinkHeader, ListsError, Message, MessageError, laws, link_header, next_message, read_lists,
};
use std::alloc::{AllocError, Global};
use std::fmt::Write;

/// Appends the lines of all messages of a buffer. Returns whether all messages, and all lists in them, decode.
pub(crate) fn push_messages(
    alloc: Global,
    text: &mut String,
    buffer: &[u8],
) -> Result<bool, AllocError>
    ensures { IfOk result (Adds (ShowsMessages buffer.now) (string_bytes text.old) (string_bytes text.new)) }
{
    laws::one_more();
    let mut whole = true;
    let mut at = 0;
    loop {
        let message = match next_message(buffer, at) {
            Ok(Some(message)) => message,
            Ok(None) => return Ok(whole),
            Err(error) => {
                push_error(text, error)?;
                return Ok(false);
            }
        };
        let read = push_message(alloc, text, &message)?;
        whole &= read;
        at = message.next;
    }
}

/// Appends the lines of a message. Returns whether the message and its lists decode.
fn push_message(alloc: Global, text: &mut String, message: &Message<'_>) -> Result<bool, AllocError>
    ensures { IfOk result (Adds (ShowsMessage message.now) (string_bytes text.old) (string_bytes text.new)) }
{
    match link_header(message) {
        Ok((header, _)) => push_link(alloc, text, message, header),
        Err(error) => {
            push_error(text, error)?;
            Ok(false)
        }
    }
}

/// Appends the lines of a message about a link: its index, and its lists. Returns whether these decode.
fn push_link(
    alloc: Global,
    text: &mut String,
    message: &Message<'_>,
    header: LinkHeader,
) -> Result<bool, AllocError>
    requires { HasLinkHeader (packet_of message.now) header }
    ensures { IfOk result (Adds (ShowsMessage message.now) (string_bytes text.old) (string_bytes text.new)) }
{
    match read_lists(alloc, message) {
        Ok(lists) => {
            push_index(text, &header)?;
            push_parts(alloc, text, "  ", &lists)
        }
        Err(ListsError::Memory(error)) => Err(error),
        Err(ListsError::Message(error)) => {
            push_error(text, error)?;
            Ok(false)
        }
    }
}

fn push_error(text: &mut String, error: MessageError) -> Result<(), AllocError>
    ensures { OnOk result (string_bytes text.new ≡ string_bytes text.old ++ error_line error) }
{
    writeln!(text, "  {error}")
}

fn push_index(text: &mut String, header: &LinkHeader) -> Result<(), AllocError>
    ensures { OnOk result (string_bytes text.new ≡ string_bytes text.old ++ index_line header.now.index) }
{
    let index = header.index;
    writeln!(text, "  ifindex {index}")
}
