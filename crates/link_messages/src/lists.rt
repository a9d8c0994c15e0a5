//! The lists of a message: that of its attributes, and those of other sets that attributes hold.

ghost use Rattle.std.specs.Prelude.{◌≡◌, map, IfOk, MatchResult};
ghost use Rattle.link_messages.specs.Message.{packet_of};
ghost use Rattle.link_messages.specs.Finding.{stretch_of};
ghost use Rattle.link_messages.specs.Link.{part_of};
ghost use Rattle.link_messages.specs.Held.{context_of, levels};
ghost use Rattle.link_messages.specs.Within.{IsWithin, within_part};
ghost use Rattle.link_messages.specs.Lists.{Listed, held_list, lists_only, HasLists, ListsMessage, ListsFail, Appends, appends_none, appends_both};

use crate::buffer_parts::{Message, Part, Payload};
use crate::header::link_header;
use crate::held::MOST_LEVELS;
use crate::list_visitor::{HeldList, ListVisitor};
use crate::message::MessageError;
use crate::visiting::visit_list;
use link_base::views::content::Known;
use link_base::{DecodeFault, NlaBuffer};
use netlink_packet_route::{Context, Family};
use std::alloc::{AllocError, Global};
use thiserror::Error;

/// Why the lists of a message could not be returned.
#[derive(Debug, Drop, PartialEq, Eq, Error)]
pub enum ListsError {
    /// An allocation failed.
    #[error("no memory")]
    Memory(#[from(alloc)] AllocError),
    /// The message is not about a link, or too short.
    #[error("{0}")]
    Message(MessageError),
}

/// Returns the lists of a message about a link: that of its attributes, which the set `link` reads, and behind it each list
/// that one of them holds and another set reads ([`opened`](netlink_packet_route::opened)), followed by those in it, through
/// `MOST_LEVELS` levels. They are in the order of the message. An attribute that does not decode holds no list, and hides no
/// other; a malformed header ends its list.
///
/// # Errors
///
/// `Message` with the error of `link_header`. `Memory` if an allocation fails.
pub fn read_lists<'a>(alloc: Global, message: &Message<'a>) -> Result<Vec<Part<'a>>, ListsError>
    ensures { MatchResult result
        (λ lists. ListsMessage message.now.at (packet_of message.now) (map part_of lists.items))
        (ListsFail message.now.at (packet_of message.now)) }
{
    let (header, list) = link_header(message).map_err(ListsError::Message)?;
    match lists_below(alloc, header.family, Family::Link, list) {
        Ok(lists) => Ok(lists),
        Err(error) => Err(ListsError::Memory(error)),
    }
}

/// Returns a list of a set, and behind it the lists that its attributes hold, as `read_lists` does. Where the address family
/// of a message decides which set reads a list, it is AF_UNSPEC.
///
/// # Errors
///
/// If an allocation fails.
pub fn lists_of<'a>(
    alloc: Global,
    family: Family,
    list: Payload<'a>,
) -> Result<Vec<Part<'a>>, AllocError>
    ensures { IfOk result (λ lists. HasLists levels (context_of 0) family (stretch_of list.entry) (map part_of lists.items)) }
{
    lists_below(alloc, 0, family, list)
}

/// Returns a list of a set, and behind it those that its attributes hold, in a message of this address family.
fn lists_below<'a>(
    alloc: Global,
    address_family: u8,
    family: Family,
    list: Payload<'a>,
) -> Result<Vec<Part<'a>>, AllocError>
    ensures { IfOk result (λ lists. HasLists levels (context_of address_family) family (stretch_of list.entry)
        (map part_of lists.items)) }
{
    let context = Context::of_message(address_family);
    let mut lists = Vec::new(alloc);
    lists.push(Part {
        family,
        payload: list,
    })?;
    let visitor = PartVisitor { whole: list };
    visit_list(&visitor, &mut lists, MOST_LEVELS, &context, 0, family, list)?;
    Ok(lists)
}

/// Collects the lists that the attributes of a list hold.
#[derive(Clone, Copy)]
struct PartVisitor<'a> {
    whole: Payload<'a>,
}

impl<'a> ListVisitor<Vec<Part<'a>>> for PartVisitor<'a> {
    type Error = AllocError;

    ghost Piece = { Listed };

    ghost display = { λ v. lists_only };

    ghost adds = { λ old new lists. Appends old.items new.items lists };

    ghost begins = { λ v level h old new. Appends old.items new.items (held_list h.set h.list) };

    ghost reaches = { λ v list. IsWithin (stretch_of v.whole) list };

    fn omits(&self, _context: &Context<'_>, _family: Family, _kind: u16) -> bool {
        false
    }

    fn error(
        &self,
        _writer: &mut Vec<Part<'a>>,
        _level: u8,
        _family: Family,
        _at: usize,
        _fault: DecodeFault,
    ) -> Result<(), AllocError> {
        Ok(())
    }

    fn leaf(
        &self,
        _writer: &mut Vec<Part<'a>>,
        _context: &Context<'_>,
        _level: u8,
        _family: Family,
        _list: Option<u16>,
        _known: &Known<'_>,
        _buffer: NlaBuffer<'_>,
    ) -> Result<(), AllocError> {
        Ok(())
    }

    fn begin(
        &self,
        writer: &mut Vec<Part<'a>>,
        _level: u8,
        held: &HeldList<'_>,
    ) -> Result<(), AllocError> {
        match held.set {
            Some(family) => {
                let payload = part_in(self.whole, held.list);
                writer.push(Part { family, payload })?;
                Ok(())
            }
            None => Ok(()),
        }
    }

    fn end(
        &self,
        _writer: &mut Vec<Part<'a>>,
        _level: u8,
        _held: &HeldList<'_>,
        whole: bool,
    ) -> Result<bool, AllocError> {
        Ok(whole)
    }

    ghost none = { λ a. appends_none a.items };

    ghost both = { λ a b c. appends_both a.items b.items c.items };

    ghost part = { λ v. within_part (stretch_of v.whole) };
}

/// Returns the bytes of a list as a part of the whole in which it is.
fn part_in<'a>(whole: Payload<'a>, list: Payload<'_>) -> Payload<'a>
    requires { IsWithin (stretch_of whole) (stretch_of list) }
    ensures { stretch_of result ≡ stretch_of list.entry }
{
    let start = list.at - whole.at;
    let end = start + list.bytes.len();
    Payload {
        at: list.at,
        bytes: &whole.bytes[start..end],
    }
}
