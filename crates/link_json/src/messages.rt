//! Messages, and buffers of them: a document for each.

ghost use Rattle.std.specs.Prelude.{◌≡◌, ◌≤◌, ◌++◌, ◌∷◌, [], drop, Some, Err, OnOk, IfOk, IfErr};
ghost use Rattle.std.specs.Io.KnownBytes.{Appends, Keeps};
ghost use Rattle.json.specs.Json.{Json, document};
ghost use Rattle.json.specs.Print.{print};
ghost use Rattle.json.specs.Tree.{json_tokens, depth};
ghost use Rattle.link_messages.specs.Message.{NextOfAny};
ghost use Rattle.link_json.specs.declared.messages.Failure.TheVariants.{Writer};
ghost use Rattle.link_json.specs.Message.{ShowsMessages, ShowsEnd, ShowsMessage, WritesLines, AddsLines, OnMemory};

use crate::document::Document;
use crate::documents::{store_error, store_message};
use crate::others::write_place;
use crate::place::Place;
use link_messages::message_types::NLMSG_DONE;
use link_messages::{Message, MessageError, any_message};
use link_show::are_zeros_after;
use std::alloc::Global;
use std::io::Write;

/// Why documents were not written.
#[derive(Clone, Copy, Debug, PartialEq, Eq)]
pub enum Failure {
    /// An allocation failed.
    Memory,
    /// The writer failed.
    Writer,
}

/// Writes a line for each message of a buffer, up to its end or to an NLMSG_DONE: its document. Bytes after the messages
/// that are no message, and not only zeros, have a document with the error; a buffer without a message has one that says
/// only where it is from. Returns whether none has an error.
///
/// # Errors
///
/// A [`Failure`]. The lines that were written are whole, unless the writer fails.
pub fn write_documents<P: Place, W: Write>(
    alloc: Global,
    doc: &mut Document,
    place: &P,
    buffer: &[u8],
    writer: &mut W,
) -> Result<bool, Failure>
    ensures shown { IfOk result (WritesLines (ShowsMessages (P.fields place.now) buffer.now)
        (W.contents writer.old) (W.contents writer.new)) }
    ensures memory { OnMemory result (AddsLines (W.contents writer.old) (W.contents writer.new)) }
{
    let mut whole = true;
    let mut at = 0;
    loop {
        let message = match any_message(buffer, at) {
            Ok(Some(message)) => message,
            Ok(None) => {
                if at == 0 {
                    write_place(alloc, doc, place, writer)?;
                }
                return Ok(whole);
            }
            Err(error) => {
                let sound = write_rest(alloc, doc, place, buffer, at, error, writer)?;
                return Ok(whole & sound);
            }
        };
        let well = write_line(alloc, doc, place, &message, writer)?;
        whole &= well;
        if message.kind == NLMSG_DONE {
            return Ok(whole);
        }
        at = message.next;
    }
}

/// Writes the document for the bytes that are left at offset `at`, which are no message: an error, or none for zeros after
/// a message. Returns false if it is an error.
fn write_rest<P: Place, W: Write>(
    alloc: Global,
    doc: &mut Document,
    place: &P,
    buffer: &[u8],
    at: usize,
    error: MessageError,
    writer: &mut W,
) -> Result<bool, Failure>
    requires { NextOfAny at (drop at buffer.now) (Err error) }
    ensures shown { IfOk result (WritesLines (ShowsEnd (P.fields place.now) buffer.now at)
        (W.contents writer.old) (W.contents writer.new)) }
    ensures memory { OnMemory result (Keeps (W.contents writer.old) (W.contents writer.new)) }
{
    if are_zeros_after(at, &buffer[at..]) {
        return Ok(true);
    }
    doc.clear(alloc);
    match store_error(doc, place, error) {
        Ok(()) => {}
        Err(_) => return Err(Failure::Memory),
    }
    match print_document(alloc, doc, writer) {
        Ok(()) => Ok(false),
        Err(failure) => Err(failure),
    }
}

/// Writes the document of a message. Returns whether it has no error.
fn write_line<P: Place, W: Write>(
    alloc: Global,
    doc: &mut Document,
    place: &P,
    message: &Message<'_>,
    writer: &mut W,
) -> Result<bool, Failure>
    ensures shown { IfOk result (WritesLines (ShowsMessage (P.fields place.now) message.now)
        (W.contents writer.old) (W.contents writer.new)) }
    ensures memory { OnMemory result (Keeps (W.contents writer.old) (W.contents writer.new)) }
{
    doc.clear(alloc);
    let well = match store_message(doc, place, message) {
        Ok(well) => well,
        Err(_) => return Err(Failure::Memory),
    };
    match print_document(alloc, doc, writer) {
        Ok(()) => Ok(well),
        Err(failure) => Err(failure),
    }
}

/// Writes a document as a line, and clears it. The line reads back as the document, if that does not
/// nest deeper than 128 arrays and objects. Never fails with `Memory`.
///
/// # Errors
///
/// `Writer` if the writer fails. Then the document is cleared too.
pub fn print_document<W: Write>(
    alloc: Global,
    doc: &mut Document,
    writer: &mut W,
) -> Result<(), Failure>
    ensures line { OnOk result (Appends (W.contents writer.old) (W.contents writer.new) (print doc.old ++ 10 ∷ [])) }
    ensures reads { (j : Json) → doc.old ≡ json_tokens j → depth j ≤ 128 → document (print doc.old) ≡ Some j }
    ensures cleared { doc.new ≡ [] }
    ensures failed { IfErr result (λ failure. failure ≡ Writer) }
{
    match doc.write_line(alloc, writer) {
        Ok(()) => Ok(()),
        Err(_) => Err(Failure::Writer),
    }
}
