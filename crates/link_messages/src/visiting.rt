//! A walk through a list, and through the lists that its attributes hold.

ghost use Rattle.std.specs.Prelude.{◌≡◌, ◌+◌, ◌*◌, ◌<◌, ◌^◌, length, Some, IfOk};
ghost use Rattle.link_base.specs.Buffer.{payload_of};
ghost use Rattle.link_base.specs.Labels.{label_in};
ghost use Rattle.link_base.specs.Viewed.{set_in, buffer_in, kind_in, set_of, bytes_in};
ghost use Rattle.netlink_packet_route.specs.Views.{family_in};
ghost use Rattle.link_messages.specs.Finding.{stretch_of};
ghost use Rattle.link_messages.specs.Held.{header_before, list_in, context_in};
ghost use Rattle.link_messages.specs.Shown.{Added, IsKnown, nest_of, rows_in, Shows, ShowsDecoded, ShowsInners, ShowsSingle, shows_unless, shows_in};

use crate::buffer_parts::Payload;
use crate::header::{LinkHeader, peer_parts};
use crate::held::opened_at;
use crate::list_visitor::{HeldList, ListVisitor};
use link_base::NlaBuffer;
use link_base::classes::peer::PEER_HEADER;
use link_base::rows::form::Look;
use link_base::views::content::{Content, Known};
use link_base::views::view::{Value, View};
use link_base::views::view_all::ViewAll;
use netlink_packet_route::{Context, Family, FamilyElements, FamilySet};

/// Visits the attributes of a list of a `Family` in order, and the lists that they hold, each with its attribute, through
/// `depth` levels of lists that other sets read ([`opened`](netlink_packet_route::opened)). `level` is that of the attributes.
/// A malformed attribute hides no other; a malformed header ends its list. Offsets count from the offset of `list`. Returns
/// whether no attribute is malformed, and the visitor finds all well.
///
/// # Errors
///
/// That of the visitor.
#[cycle(walk)]
pub fn visit_list<W, V: ListVisitor<W>>(
    visitor: &V,
    writer: &mut W,
    depth: usize,
    context: &Context<'_>,
    level: u8,
    family: Family,
    list: Payload<'_>,
) -> Result<bool, V::Error>
    requires levels { level + 2 * depth < 62 }
    requires reached { V.reaches visitor.now (stretch_of list) }
    ensures { IfOk result (Added V.adds (Shows (V.display visitor.now) depth context.now level family (stretch_of list.entry))
        writer.old writer.new) }
{
    let mut whole = true;
    let mut items = ViewAll::new(list.bytes, FamilySet { family });
    'attributes: loop {
        let at = list.at + items.offset();
        match items.next() {
            Some(Ok(value)) => {
                let well = visit_value(visitor, writer, depth, context, level, &value, at)?;
                whole = whole & well;
            }
            Some(Err(error)) => {
                visitor.error(writer, level, family, at, error.fault)?;
                whole = false;
            }
            None => return Ok(whole),
        }
    }
}

/// Visits an attribute that decodes and starts at offset `at`, if the visitor does not leave it out.
#[cycle(walk)]
fn visit_value<W, V: ListVisitor<W>>(
    visitor: &V,
    writer: &mut W,
    depth: usize,
    context: &Context<'_>,
    level: u8,
    value: &Value<'_, FamilySet>,
    at: usize,
) -> Result<bool, V::Error>
    requires levels { level + 2 * depth < 62 }
    requires room { at + 4 + length (payload_of (buffer_in value.now)) < 2 ^ 64 }
    requires reached { V.reaches visitor.now (at + 4, payload_of (buffer_in value.now)) }
    ensures { IfOk result (Added V.adds
        (shows_unless ((V.display visitor.now).omits context.now (family_in (set_in value.now)) (kind_in value.now))
        (ShowsDecoded (V.display visitor.now) depth (shows_in (V.display visitor.now) depth) context.now level at
        (family_in (set_in value.now)) (buffer_in value.now))) writer.old writer.new) }
{
    let family = value.set().family;
    let kind = value.kind();
    if visitor.omits(context, family, kind) {
        return Ok(true);
    }
    let known = value.known();
    let buffer = value.buffer();
    match known.content {
        Content::List { list, .. } => {
            let held = held_list(&known, family, None, buffer, at);
            visitor.begin(writer, level, &held)?;
            let elements = View::of_checked(list, FamilyElements { family, list: kind });
            let whole = visit_inners(visitor, writer, depth, context, level + 1, elements, at + 4)?;
            visitor.end(writer, level, &held, whole)
        }
        _ => visit_single(
            visitor, writer, depth, context, level, family, None, &known, buffer, at,
        ),
    }
}

/// Visits the elements of a nested list, which starts at offset `at`.
#[cycle(walk)]
fn visit_inners<W, V: ListVisitor<W>>(
    visitor: &V,
    writer: &mut W,
    depth: usize,
    context: &Context<'_>,
    level: u8,
    elements: View<'_, FamilyElements>,
    at: usize,
) -> Result<bool, V::Error>
    requires levels { level + 2 * depth < 63 }
    requires room { at + length (bytes_in elements) < 2 ^ 64 }
    requires reached { V.reaches visitor.now (at, bytes_in elements) }
    ensures { IfOk result (Added V.adds (ShowsInners (V.display visitor.now) depth (shows_in (V.display visitor.now) depth)
        context.now level at (set_of elements.entry).family (set_of elements.entry).list (bytes_in elements.entry))
        writer.old writer.new) }
{
    let set = elements.set();
    let size = elements.bytes().len();
    let inner = context.of_elements(&elements);
    let mut whole = true;
    let mut rest = elements;
    'elements: loop {
        let place = at + (size - rest.bytes().len());
        let Some(element) = rest.next() else {
            return Ok(whole);
        };
        let known = element.known();
        let well = visit_single(
            visitor,
            writer,
            depth,
            &inner,
            level,
            set.family,
            Some(set.list),
            &known,
            element.buffer(),
            place,
        )?;
        whole = whole & well;
    }
}

/// Visits an attribute that is no nested list, and starts at offset `at`. `list` is the type of the nested list that has it,
/// or `None`.
#[cycle(walk)]
fn visit_single<W, V: ListVisitor<W>>(
    visitor: &V,
    writer: &mut W,
    depth: usize,
    context: &Context<'_>,
    level: u8,
    family: Family,
    list: Option<u16>,
    known: &Known<'_>,
    buffer: NlaBuffer<'_>,
    at: usize,
) -> Result<bool, V::Error>
    requires levels { level + 2 * depth < 63 }
    requires known { IsKnown (rows_in family list) buffer known.now }
    requires room { at + 4 + length (payload_of buffer) < 2 ^ 64 }
    requires reached { V.reaches visitor.now (at + 4, payload_of buffer) }
    ensures { IfOk result (Added V.adds (ShowsSingle (V.display visitor.now) depth (shows_in (V.display visitor.now) depth)
        context.now level at family list buffer.entry known.now.content) writer.old writer.new) }
{
    let f = buffer.raw_kind();
    match opened_at(depth, context, family, list, f, known.content) {
        Some(set) => {
            let held = held_list(&*known, family, Some(set), buffer, at);
            visitor.begin(writer, level, &held)?;
            let inner = context_below(held.header, *context);
            let whole = visit_list(
                visitor,
                writer,
                depth - 1,
                &inner,
                level + 1,
                set,
                held.list,
            )?;
            visitor.end(writer, level, &held, whole)
        }
        None => {
            visitor.leaf(writer, context, level, family, list, known, buffer)?;
            Ok(true)
        }
    }
}

/// Returns what an attribute of a set holds, which starts at offset `at`, and whose list another set reads, if there is one.
fn held_list<'a>(
    known: &'a Known<'_>,
    family: Family,
    set: Option<Family>,
    buffer: NlaBuffer<'a>,
    at: usize,
) -> HeldList<'a>
    requires { at + 4 + length (payload_of buffer) < 2 ^ 64 }
    ensures { nest_of result ≡ record {
      label = label_in known.now.label;
      family = family;
      set = set;
      header = header_before known.now.content (payload_of buffer.entry);
      list = list_in known.now.content (at + 4, payload_of buffer.entry);
    } }
{
    let bytes = buffer.value();
    let (header, list) = split_held(known.content, Payload { at: at + 4, bytes });
    HeldList {
        label: &known.label,
        family,
        set,
        header,
        list,
    }
}

/// Splits a payload into the header before the list, if it has one, and the list.
fn split_held<'a>(content: Content<'_>, payload: Payload<'a>) -> (Option<LinkHeader>, Payload<'a>)
    ensures header { result.0 ≡ header_before content.entry payload.entry.bytes.now }
    ensures list { stretch_of result.1 ≡ list_in content.entry (stretch_of payload.entry) }
{
    match content {
        Content::Bytes {
            look: Look::Peer,
            ..
        } if payload.bytes.len() >= PEER_HEADER => {
            let (header, bytes) = peer_parts(payload.bytes);
            let at = payload.at + PEER_HEADER;
            (Some(header), Payload { at, bytes })
        }
        _ => (None, payload),
    }
}

/// Returns the context of a list that an attribute holds behind a header, or without one.
fn context_below<'a>(header: Option<LinkHeader>, context: Context<'a>) -> Context<'a>
    ensures { result ≡ context_in header context.entry }
{
    match header {
        Some(header) => Context::of_message(header.family),
        None => context,
    }
}
