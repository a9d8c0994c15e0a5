//! Lists of attributes, and the lists of other sets that attributes hold.

ghost use Rattle.std.specs.Prelude.{◌≡◌, ◌++◌, ⊤, Some, IfOk, OnOk};
ghost use Rattle.json.specs.Json.{Json};
ghost use Rattle.json.specs.Tree.{json_tokens};
ghost use Rattle.netlink_packet_route.specs.Family.{table_of};
ghost use Rattle.link_show.specs.Fault.{fault_text};
ghost use Rattle.link_json.specs.Doc.{error_json};
ghost use Rattle.link_json.specs.List.{elements, ShowsList, ShowsArray, fault_json, nest_front, Adds, adds_none, adds_more, WritesValue};

use crate::document::Document;
use crate::elements::{begin_nest, end_nest, write_leaf};
use crate::parts::write_number_field;
use link_base::views::content::Known;
use link_base::{DecodeFault, NlaBuffer};
use link_messages::{HeldList, ListVisitor, MOST_LEVELS, Payload, visit_list};
use link_show::is_state;
use netlink_packet_route::{Context, Family};
use std::alloc::AllocError;

/// Writes the array of a list of a `Family`: an element for each attribute, in order, and one for each error in the place of its
/// attribute. The value of an attribute that holds a list is the array of that, in a peer with its header. `address_family` is
/// that of the message, which decides which set reads some lists; 0 for a list that is in no message. Offsets of errors count
/// from the offset of `list`. Returns whether no element is an error.
pub(crate) fn write_array(
    doc: &mut Document,
    address_family: u8,
    family: Family,
    list: Payload<'_>,
) -> Result<bool, AllocError>
    ensures { IfOk result (WritesValue (ShowsArray (ShowsList address_family family list.entry.at list.entry.bytes.now))
        doc.old doc.new) }
{
    let context = Context::of_message(address_family);
    doc.begin_array()?;
    let well = visit_list(&ElementVisitor, doc, MOST_LEVELS, &context, 0, family, list)?;
    doc.end_array()?;
    Ok(well)
}

/// Writes the elements for attributes.
#[derive(Clone, Copy)]
struct ElementVisitor;

impl ListVisitor<Document> for ElementVisitor {
    type Error = AllocError;

    ghost Piece = { Json };

    ghost display = { λ v. elements };

    ghost adds = { λ old new js. Adds old new js };

    ghost begins = { λ v level h old new. new ≡ old ++ nest_front h };

    ghost reaches = { λ v list. ⊤ };

    fn omits(&self, _context: &Context<'_>, _family: Family, _kind: u16) -> bool {
        false
    }

    fn error(
        &self,
        writer: &mut Document,
        _level: u8,
        family: Family,
        at: usize,
        fault: DecodeFault,
    ) -> Result<(), AllocError> {
        write_fault(writer, family, at, fault)
    }

    fn leaf(
        &self,
        writer: &mut Document,
        context: &Context<'_>,
        _level: u8,
        family: Family,
        list: Option<u16>,
        known: &Known<'_>,
        buffer: NlaBuffer<'_>,
    ) -> Result<(), AllocError> {
        let state = is_state(context, family, list, buffer);
        write_leaf(writer, state, known, buffer)
    }

    fn begin(
        &self,
        writer: &mut Document,
        _level: u8,
        held: &HeldList<'_>,
    ) -> Result<(), AllocError> {
        begin_nest(writer, held)
    }

    fn end(
        &self,
        writer: &mut Document,
        _level: u8,
        held: &HeldList<'_>,
        whole: bool,
    ) -> Result<bool, AllocError> {
        end_nest(writer, held.header)?;
        Ok(whole)
    }

    ghost none = { adds_none };

    ghost both = { adds_more };

    ghost part = { λ v list inner reached within. tt };
}

/// Writes an error at an offset.
fn write_fault(
    doc: &mut Document,
    family: Family,
    at: usize,
    fault: DecodeFault,
) -> Result<(), AllocError>
    ensures { OnOk result (doc.new ≡ doc.old ++ json_tokens (fault_json at (fault_text (table_of family) fault))) }
{
    doc.begin_object()?;
    doc.key("error")?;
    write_fault_at(doc, family, at, fault)?;
    doc.end_object()
}

/// Writes the offset and the text of an error.
fn write_fault_at(
    doc: &mut Document,
    family: Family,
    at: usize,
    fault: DecodeFault,
) -> Result<(), AllocError>
    ensures { OnOk result (doc.new ≡ doc.old ++ json_tokens (error_json (Some at) (fault_text (table_of family) fault))) }
{
    doc.begin_object()?;
    write_number_field(doc, "at", at as u64)?;
    doc.key("text")?;
    doc.fault(family, fault)?;
    doc.end_object()
}
