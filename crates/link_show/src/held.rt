//! Lists of attributes that hold lists of other sets.

ghost use Rattle.std.specs.Prelude.{◌≡◌, ◌<◌, ◌≤◌, ◌∷◌, [], ◌++◌, ⊤, ℕ, refl, length, replicate, IsTrue, IfOk, OnOk};
ghost use Rattle.std.specs.List.{list_all};
ghost use Rattle.link_base.specs.Buffer.{payload_of};
ghost use Rattle.link_base.specs.Labels.{label_in};
ghost use Rattle.netlink_packet_route.specs.Family.{holding_of};
ghost use Rattle.link_messages.specs.Held.{context_of, levels};
ghost use Rattle.link_messages.specs.Shown.{nest_of};
ghost use Rattle.link_show.specs.Sink.{Gains};
ghost use Rattle.link_show.specs.Indents.{indent_text};
ghost use Rattle.link_show.specs.HeaderText.{peer_text};
ghost use Rattle.link_show.specs.List.{indented, Writes};
ghost use Rattle.link_show.specs.Held.{selects, is_selected, set_text, nest_text, empty_mark, title_text, is_state, state_line, WritesLeaf};
ghost use Rattle.link_show.specs.Held.{is_left_out, indent_in, line_display, ShowsSet};

use crate::flags::write_enum;
use crate::indent::{Indent, write_indent};
use crate::line_options::LineOptions;
use crate::links::write_header_fields;
use crate::lists::{write_error, write_flat};
use crate::pieces::{Piece, put_pieces};
use crate::sink::Sink;
use crate::verdicts::write_judgement;
use link_base::rows::label::KindLabel;
use link_base::views::content::Known;
use link_base::{DecodeFault, NamedNumber, NlaBuffer};
use link_messages::link_types::{
    AF_BRIDGE, IFLA_ADDRESS, IFLA_AF_SPEC, IFLA_LINK, IFLA_LINKINFO, IFLA_MASTER, IFLA_MTU,
    IFLA_OPERSTATE, IFLA_PROTINFO,
};
use link_messages::{HeldList, LinkHeader, ListVisitor, MOST_LEVELS, Payload, visit_list};
use netlink_packet_route::link::BridgePortState;
use netlink_packet_route::{Context, Family, FamilySet, Holder};

/// Writes the lines of a list of a `Family`, in a message of this address family: a line for each attribute, below a list that
/// it holds the lines of that, and one for each error, in order. A malformed attribute hides no other; a malformed header ends
/// its list. Lines start with `text` and at most two spaces, those below others with two spaces more; offsets of errors count
/// from the offset of `list`. Returns whether no line is an error, and all held lists that are checked are canonical.
///
/// # Errors
///
/// That of the writer.
pub(crate) fn write_set<W: Sink>(
    writer: &mut W,
    options: LineOptions,
    address_family: u8,
    text: &str,
    spaces: u8,
    family: Family,
    list: Payload<'_>,
) -> Result<bool, W::Error>
    requires { spaces ≤ 2 }
    ensures { IfOk result (Writes (ShowsSet options levels (context_of address_family) (text.now ++ replicate spaces 32)
        list.entry.at family list.entry.bytes.now) (W.output writer.old) (W.output writer.new)) }
{
    let context = Context::of_message(address_family);
    let visitor = LineVisitor {
        options,
        text,
        spaces,
    };
    visit_list(&visitor, writer, MOST_LEVELS, &context, 0, family, list)
}

/// Writes the lines of attributes, which start with `text` and `spaces` spaces, and two more for each list around them.
#[derive(Clone, Copy)]
struct LineVisitor<'a> {
    options: LineOptions,
    text: &'a str,
    spaces: u8,
    ghost few: { spaces ≤ 2 },
}

impl<'a> LineVisitor<'a> {
    /// Returns the indent of the lines of attributes that are in `level` lists.
    #[tactic(auto, using(crate::proofs::HeldLines::indent_more))]
    fn indent(&self, level: u8) -> Indent<'a>
        requires { level < 64 }
        ensures { indent_text result ≡ indent_in (self.now.text.now ++ replicate self.now.spaces 32) level }
    {
        Indent {
            text: self.text,
            spaces: self.spaces + 2 * level,
        }
    }
}

impl<W: Sink> ListVisitor<W> for LineVisitor<'_> {
    type Error = W::Error;

    ghost Piece = { ℕ };

    ghost display = { λ v. line_display v.options (v.text.now ++ replicate v.spaces 32) };

    ghost adds = { λ old new out. Gains (W.output old) (W.output new) out };

    ghost begins = { λ v level h old new. Gains (W.output old) (W.output new)
        (indented (indent_in (v.text.now ++ replicate v.spaces 32) level) (title_text h)) };

    ghost reaches = { λ v list. ⊤ };

    fn omits(&self, context: &Context<'_>, family: Family, kind: u16) -> bool {
        is_left_out(self.options, context, family, kind)
    }

    fn error(
        &self,
        writer: &mut W,
        level: u8,
        family: Family,
        at: usize,
        fault: DecodeFault,
    ) -> Result<(), W::Error> {
        write_error(writer, FamilySet { family }, self.indent(level), at, fault)
    }

    fn leaf(
        &self,
        writer: &mut W,
        context: &Context<'_>,
        level: u8,
        family: Family,
        list: Option<u16>,
        known: &Known<'_>,
        buffer: NlaBuffer<'_>,
    ) -> Result<(), W::Error> {
        let state = is_state(context, family, list, buffer);
        write_leaf(writer, state, self.indent(level), known, buffer)
    }

    fn begin(&self, writer: &mut W, level: u8, held: &HeldList<'_>) -> Result<(), W::Error> {
        write_title(writer, self.indent(level), held)
    }

    fn end(
        &self,
        writer: &mut W,
        level: u8,
        held: &HeldList<'_>,
        whole: bool,
    ) -> Result<bool, W::Error> {
        if !self.options.check {
            return Ok(whole);
        }
        match held.set {
            Some(set) => {
                let canonical = write_judgement(writer, set, self.indent(level + 1), held.list)?;
                Ok(whole & canonical)
            }
            None => Ok(whole),
        }
    }

    ghost none = { λ a. W.none a };

    ghost both = { λ a b c s t first last. W.both a b c s t (s ++ t) first last refl };

    ghost part = { λ v list inner reached within. tt };
}

/// Checks whether the options leave out the attributes of a type.
fn is_left_out(options: LineOptions, context: &Context<'_>, family: Family, kind: u16) -> bool
    ensures { result ≡ is_left_out options context.now family kind }
{
    if !options.brief || family != Family::Link {
        return false;
    }
    match kind {
        IFLA_ADDRESS | IFLA_MTU | IFLA_LINK | IFLA_MASTER | IFLA_OPERSTATE | IFLA_LINKINFO => false,
        IFLA_PROTINFO | IFLA_AF_SPEC => context.address_family != AF_BRIDGE,
        _ => true,
    }
}

/// Writes the line above those of a list: the name of the attribute that holds it, and its set or its header, if they are
/// shown.
fn write_title<W: Sink>(
    writer: &mut W,
    indent: Indent<'_>,
    held: &HeldList<'_>,
) -> Result<(), W::Error>
    ensures { OnOk result (Gains (W.output writer.old) (W.output writer.new)
        (indented (indent_text indent.entry) (title_text (nest_of held.now)))) }
{
    write_indent(writer, indent)?;
    writer.put(nest_name(held.label).as_bytes())?;
    write_set_name(writer, held.family, held.set)?;
    write_peer(writer, held.header)?;
    writer.put(title_end(held.list.bytes).as_bytes())
}

/// Returns the name of an attribute that holds a list.
fn nest_name(label: &Option<KindLabel>) -> &'static str
    ensures { result.now ≡ nest_text (label_in label.now) }
{
    match label {
        Some(label) => label.name,
        None => "IFLA_PROTINFO",
    }
}

/// Returns the end of the line with the name of a list.
fn title_end(list: &[u8]) -> &'static str
    ensures { result.now ≡ empty_mark list.now ++ 10 ∷ [] }
{
    if list.is_empty() { " (empty)\n" } else { "\n" }
}

/// Writes the name of a set in parentheses, if the attribute of `family` alone does not select it.
fn write_set_name<W: Sink>(
    writer: &mut W,
    family: Family,
    set: Option<Family>,
) -> Result<(), W::Error>
    ensures { OnOk result (Gains (W.output writer.old) (W.output writer.new) (set_text family set)) }
{
    match set {
        Some(set) => {
            if !is_selected(family, set) {
                return Ok(());
            }
            let name = set.name();
            put_pieces(
                writer,
                &[Piece::Text(" ("), Piece::Text(name), Piece::Text(")")],
            )
        }
        None => Ok(()),
    }
}

/// Writes the header of a peer, if there is one: its index, and the other fields that are not zero.
fn write_peer<W: Sink>(writer: &mut W, header: Option<LinkHeader>) -> Result<(), W::Error>
    ensures { OnOk result (Gains (W.output writer.old) (W.output writer.new) (peer_text header)) }
{
    match header {
        Some(header) => {
            let index = header.index;
            put_pieces(writer, &[Piece::Text(" ifindex "), Piece::Signed(index)])?;
            write_header_fields(writer, &header)
        }
        None => Ok(()),
    }
}

/// Checks whether a kind, or the address family of the message, selects a set for a list in an attribute of `family`, and not
/// the attribute alone.
fn is_selected(family: Family, set: Family) -> bool
    ensures { result ≡ is_selected family set }
{
    all_select(family, set.holders())
}

/// Checks `selects` for each of these holders.
fn all_select(family: Family, holders: &[Holder<'_>]) -> bool
    ensures { result ≡ list_all (λ holder. selects family (holding_of holder)) holders.now }
{
    holders.iter().all(|holder| selects(family, *holder))
}

/// Checks whether a holder is another thing than an attribute in lists of `family`.
fn selects(family: Family, holder: Holder<'_>) -> bool
    ensures { result ≡ selects family (holding_of holder.entry) }
{
    match holder {
        Holder::Within(within, _) => within.number() != family.number(),
        _ => true,
    }
}

/// Writes the line of an attribute that is no list: the STP state of a bridge port in an `IFLA_PROTINFO`, or another one.
fn write_leaf<W: Sink>(
    writer: &mut W,
    is_state: bool,
    indent: Indent<'_>,
    known: &Known<'_>,
    buffer: NlaBuffer<'_>,
) -> Result<(), W::Error>
    requires { IsTrue is_state → length (payload_of buffer) ≡ 1 }
    ensures { OnOk result (WritesLeaf is_state (indent_text indent.entry) (label_in known.now.label) buffer.entry known.now.content
        (W.output writer.old) (W.output writer.new)) }
{
    if is_state {
        return write_state(writer, indent, buffer.value()[0]);
    }
    write_flat(writer, indent, known, buffer)
}

/// Writes the line of an `IFLA_PROTINFO` that is the STP state of a bridge port.
fn write_state<W: Sink>(writer: &mut W, indent: Indent<'_>, state: u8) -> Result<(), W::Error>
    ensures { OnOk result (Gains (W.output writer.old) (W.output writer.new) (state_line (indent_text indent.entry) (state ∷ []))) }
{
    write_indent(writer, indent)?;
    writer.put(b"IFLA_PROTINFO ")?;
    write_enum(writer, BridgePortState::names(), state.into())?;
    writer.put(b"\n")
}

/// Checks whether an attribute is an `IFLA_PROTINFO` (`include/uapi/linux/if_link.h`) that is the STP state of a bridge port
/// (`BR_STATE_..`, `include/uapi/linux/if_bridge.h`): one byte, in an AF_BRIDGE message.
pub fn is_state(
    context: &Context<'_>,
    family: Family,
    list: Option<u16>,
    buffer: NlaBuffer<'_>,
) -> bool
    ensures { result ≡ is_state context.now family list buffer.entry }
{
    list.is_none()
        && family == Family::Link
        && context.address_family == AF_BRIDGE
        && buffer.kind() == IFLA_PROTINFO
        && buffer.value().len() == 1
}
