//! Documents that are not of messages.

ghost use Rattle.std.specs.Prelude.{◌≡◌, ◌++◌, OnOk, IfOk};
ghost use Rattle.std.specs.Io.KnownBytes.{Appends, Keeps};
ghost use Rattle.json.specs.Tree.{json_tokens};
ghost use Rattle.link_json.specs.Doc.{at_json};
ghost use Rattle.link_json.specs.List.{WritesValue};
ghost use Rattle.link_json.specs.Message.{OnMemory, document_line};
ghost use Rattle.link_json.specs.Other.{ShowsListDocument, ShowsCheck, WritesLine, place_document, fault_document, check_document};

use crate::document::Document;
use crate::documents::{end_document, store_empty};
use crate::lists::write_array;
use crate::messages::{Failure, print_document};
use crate::place::Place;
use link_messages::Payload;
use netlink_packet_route::{Family, first_not_canonical};
use std::alloc::{AllocError, Global};
use std::io::Write;

/// Writes a document that only says where it is from.
///
/// # Errors
///
/// A [`Failure`]. Nothing is written, unless the writer fails.
pub fn write_place<P: Place, W: Write>(
    alloc: Global,
    doc: &mut Document,
    place: &P,
    writer: &mut W,
) -> Result<(), Failure>
    ensures shown { OnOk result (Appends (W.contents writer.old) (W.contents writer.new)
        (document_line (place_document (P.fields place.now)))) }
    ensures memory { OnMemory result (Keeps (W.contents writer.old) (W.contents writer.new)) }
{
    doc.clear(alloc);
    match store_empty(doc, place) {
        Ok(()) => print_document(alloc, doc, writer),
        Err(_) => Err(Failure::Memory),
    }
}

/// Writes a document with an error, and its offset, if it has one.
///
/// # Errors
///
/// As [`write_place`].
pub fn write_fault<P: Place, W: Write>(
    alloc: Global,
    doc: &mut Document,
    place: &P,
    at: Option<u64>,
    text: &[u8],
    writer: &mut W,
) -> Result<(), Failure>
    ensures shown { OnOk result (Appends (W.contents writer.old) (W.contents writer.new)
        (document_line (fault_document (P.fields place.now) at text.now))) }
    ensures memory { OnMemory result (Keeps (W.contents writer.old) (W.contents writer.new)) }
{
    doc.clear(alloc);
    match store_fault(doc, place, at, text) {
        Ok(()) => print_document(alloc, doc, writer),
        Err(_) => Err(Failure::Memory),
    }
}

/// Writes the document of an error.
fn store_fault<P: Place>(
    doc: &mut Document,
    place: &P,
    at: Option<u64>,
    text: &[u8],
) -> Result<(), AllocError>
    ensures { OnOk result (doc.new ≡ doc.old ++ json_tokens (fault_document (P.fields place.now) at text.now)) }
{
    doc.begin_object()?;
    place.write_fields(doc)?;
    doc.key("error")?;
    doc.begin_object()?;
    doc.key("at")?;
    write_offset(doc, at)?;
    doc.key("text")?;
    doc.text(text)?;
    doc.end_object()?;
    end_document(doc, false)
}

/// Writes an offset, or null.
fn write_offset(doc: &mut Document, at: Option<u64>) -> Result<(), AllocError>
    ensures { OnOk result (doc.new ≡ doc.old ++ json_tokens (at_json at)) }
{
    match at {
        Some(at) => doc.number(at),
        None => doc.null(),
    }
}

/// Writes the document of a list. Returns whether it has no error.
///
/// # Errors
///
/// As [`write_place`].
pub fn write_list_document<P: Place, W: Write>(
    alloc: Global,
    doc: &mut Document,
    place: &P,
    family: Family,
    bytes: &[u8],
    writer: &mut W,
) -> Result<bool, Failure>
    ensures shown { IfOk result (WritesLine (ShowsListDocument (P.fields place.now) family bytes.now)
        (W.contents writer.old) (W.contents writer.new)) }
    ensures memory { OnMemory result (Keeps (W.contents writer.old) (W.contents writer.new)) }
{
    doc.clear(alloc);
    let well = match store_list(doc, place, family, bytes) {
        Ok(well) => well,
        Err(_) => return Err(Failure::Memory),
    };
    match print_document(alloc, doc, writer) {
        Ok(()) => Ok(well),
        Err(failure) => Err(failure),
    }
}

/// Writes the document of a list. Returns whether it has no error.
fn store_list<P: Place>(
    doc: &mut Document,
    place: &P,
    family: Family,
    bytes: &[u8],
) -> Result<bool, AllocError>
    ensures { IfOk result (WritesValue (ShowsListDocument (P.fields place.now) family bytes.now) doc.old doc.new) }
{
    doc.begin_object()?;
    place.write_fields(doc)?;
    doc.key("list")?;
    doc.begin_object()?;
    doc.key("family")?;
    doc.string(family.name())?;
    doc.key("attrs")?;
    let well = write_array(doc, 0, family, Payload { at: 0, bytes })?;
    doc.end_object()?;
    end_document(doc, well)?;
    Ok(well)
}

/// Writes the document that says whether a list is canonical. Returns whether it is.
///
/// # Errors
///
/// As [`write_place`].
pub fn write_check<P: Place, W: Write>(
    alloc: Global,
    doc: &mut Document,
    place: &P,
    family: Family,
    bytes: &[u8],
    writer: &mut W,
) -> Result<bool, Failure>
    ensures shown { IfOk result (WritesLine (ShowsCheck (P.fields place.now) family bytes.now)
        (W.contents writer.old) (W.contents writer.new)) }
    ensures memory { OnMemory result (Keeps (W.contents writer.old) (W.contents writer.new)) }
{
    let first = first_not_canonical(family, bytes);
    doc.clear(alloc);
    match store_check(doc, place, family, first) {
        Ok(()) => {}
        Err(_) => return Err(Failure::Memory),
    }
    match print_document(alloc, doc, writer) {
        Ok(()) => Ok(first.is_none()),
        Err(failure) => Err(failure),
    }
}

/// Writes the document that says whether a list is canonical, by the offset of its first attribute that is not.
fn store_check<P: Place>(
    doc: &mut Document,
    place: &P,
    family: Family,
    first: Option<usize>,
) -> Result<(), AllocError>
    ensures { OnOk result (doc.new ≡ doc.old ++ json_tokens (check_document (P.fields place.now) family first)) }
{
    let canonical = first.is_none();
    doc.begin_object()?;
    place.write_fields(doc)?;
    doc.key("check")?;
    doc.begin_object()?;
    doc.key("family")?;
    doc.string(family.name())?;
    doc.key("canonical")?;
    doc.boolean(canonical)?;
    doc.key("at")?;
    write_offset(doc, widened(first))?;
    doc.end_object()?;
    end_document(doc, canonical)
}

/// Returns the same offset.
fn widened(at: Option<usize>) -> Option<u64>
    ensures { result ≡ at }
{
    at.map(|at| at as u64)
}
