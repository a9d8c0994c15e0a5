//! Which attribute set reads the list in an attribute.

ghost use Rattle.std.specs.Prelude.{◌≡◌, List, None};
ghost use Rattle.std.specs.Option.{option_map, option_copied};
ghost use Rattle.link_base.specs.Frame.{Frame, Frames};
ghost use Rattle.link_base.specs.Viewed.{bytes_in};
ghost use Rattle.netlink_packet_route.specs.Family.{holding_of};
ghost use Rattle.netlink_packet_route.specs.Opening.{message_holding, info_holding, holding_at, IsOpened, HasKinds};
ghost use Rattle.netlink_packet_route.specs.Opening.{without_nul, announced, text_of, port_kind_of};

use crate::family::{Family, Holder, IFLA_AF_SPEC, IFLA_PROTINFO};
use link_base::views::attribute_set::AttributeSet;
use link_base::views::view::View;
use link_base::{NLA_F_NESTED, NLA_TYPE_MASK};

const AF_BRIDGE: u8 = 7;

const AF_INET6: u8 = 10;

const IFLA_LINKINFO: u16 = 18;

const IFLA_INFO_KIND: u16 = 1;

const IFLA_INFO_DATA: u16 = 2;

const IFLA_INFO_SLAVE_KIND: u16 = 4;

const IFLA_INFO_SLAVE_DATA: u16 = 5;

/// What decides which attribute set reads a list, besides the attribute that holds it.
#[derive(Clone, Copy, Debug, PartialEq, Eq)]
pub struct Context<'a> {
    /// `ifi_family` of the message.
    pub address_family: u8,
    /// For the elements of an `IFLA_LINKINFO`: its last `IFLA_INFO_KIND`, without a NUL at its end.
    pub info_kind: Option<&'a [u8]>,
    /// For the elements of an `IFLA_LINKINFO`: its last `IFLA_INFO_SLAVE_KIND`, without a NUL at its end. If it has
    /// none, the port kind that `info_kind` announces ([`announced_port_kind`]).
    pub port_kind: Option<&'a [u8]>,
}

impl<'a> Context<'a> {
    /// Returns the context of the attributes of a message with this `ifi_family`.
    pub fn of_message(address_family: u8) -> Self
        ensures { result ≡ record { address_family = address_family; info_kind = None; port_kind = None } }
    {
        Context {
            address_family,
            info_kind: None,
            port_kind: None,
        }
    }

    /// Returns the context of these elements of a nested list: the same with the kinds that are among them.
    pub fn of_elements<S: AttributeSet>(self, elements: &View<'a, S>) -> Self
        ensures family { result.address_family ≡ self.entry.address_family }
        ensures kinds { HasKinds (bytes_in elements.now) result }
    {
        let info_kind = text_in(elements, IFLA_INFO_KIND);
        let port_kind = port_kind_in(info_kind, text_in(elements, IFLA_INFO_SLAVE_KIND));
        Context {
            address_family: self.address_family,
            info_kind,
            port_kind,
        }
    }
}

/// Returns the `Family` of the list in an attribute; `None` if it holds none. `family` is the attribute set that the
/// attribute belongs to. `list` is the type of the nested list that has the attribute, or `None` if it is not in one.
/// `nla_type` is its type, with its flags.
pub fn opened(
    family: Family,
    list: Option<u16>,
    nla_type: u16,
    context: &Context<'_>,
) -> Option<Family>
    ensures { IsOpened (holding_at context.now family list nla_type) result }
{
    match holder_at(family, list, nla_type, context) {
        Some(holder) => Family::from_holder(holder),
        None => None,
    }
}

/// Returns what the attribute is, of which `opened` tells the `Family`.
fn holder_at<'a>(
    family: Family,
    list: Option<u16>,
    nla_type: u16,
    context: &Context<'a>,
) -> Option<Holder<'a>>
    ensures { option_map holding_of result ≡ holding_at context.now family list nla_type }
{
    let kind = nla_type & NLA_TYPE_MASK;
    if let Some(list) = list {
        if family == Family::Link && list == IFLA_LINKINFO {
            return in_info(context, kind);
        }
        return None;
    }
    if family == Family::Link {
        let nested = nla_type & NLA_F_NESTED != 0;
        return in_message(context.address_family, kind, nested);
    }
    Some(Holder::Within(family, kind))
}

/// Returns what an attribute of a message is. `nested` is its `NLA_F_NESTED`.
fn in_message(address_family: u8, kind: u16, nested: bool) -> Option<Holder<'static>>
    ensures { option_map holding_of result ≡ message_holding address_family kind nested }
{
    match kind {
        IFLA_AF_SPEC if address_family == AF_BRIDGE => Some(Holder::BridgeAttribute(kind)),
        IFLA_PROTINFO if address_family == AF_INET6 => Some(Holder::Inet6Attribute(kind)),
        IFLA_PROTINFO if address_family == AF_BRIDGE && nested => {
            Some(Holder::NestedBridgeAttribute(kind))
        }
        IFLA_PROTINFO => None,
        _ => Some(Holder::Within(Family::Link, kind)),
    }
}

/// Returns what an element of an `IFLA_LINKINFO` is.
fn in_info<'a>(context: &Context<'a>, kind: u16) -> Option<Holder<'a>>
    ensures { option_map holding_of result
        ≡ info_holding (option_copied context.now.info_kind) (option_copied context.now.port_kind) kind }
{
    match kind {
        IFLA_INFO_DATA => Some(Holder::InfoKind(context.info_kind?)),
        IFLA_INFO_SLAVE_DATA => Some(Holder::PortKind(context.port_kind?)),
        _ => None,
    }
}

/// Returns the text of the last attribute of type `kind`, without a NUL at its end.
fn text_in<'a, S: AttributeSet>(elements: &View<'a, S>, kind: u16) -> Option<&'a [u8]>
    ensures { (xs : List Frame) → Frames (bytes_in elements.now) xs → option_copied result ≡ text_of kind xs }
{
    match elements.find(kind) {
        Some(element) => Some(without_nul(element.buffer().value())),
        None => None,
    }
}

/// Returns the port kind, from the texts of `IFLA_INFO_KIND` and `IFLA_INFO_SLAVE_KIND`.
pub fn port_kind_in<'a>(kind: Option<&[u8]>, port_kind: Option<&'a [u8]>) -> Option<&'a [u8]>
    ensures { option_copied result ≡ port_kind_of (option_copied kind.entry) (option_copied port_kind.entry) }
{
    match (port_kind, kind) {
        (Some(port_kind), _) => Some(port_kind),
        (None, Some(kind)) => announced_port_kind(kind),
        (None, None) => None,
    }
}

/// Returns the port kind that an `IFLA_INFO_KIND` announces: `bond` for `bond_slave`, `bridge` for `bridge_slave`, and
/// `None` for others. With these kinds, iproute2 sends `IFLA_INFO_SLAVE_DATA` without an `IFLA_INFO_SLAVE_KIND`.
pub fn announced_port_kind(kind: &[u8]) -> Option<&'static [u8]>
    ensures { option_copied result ≡ announced kind.now }
{
    if kind == b"bond_slave".as_slice() {
        Some(b"bond".as_slice())
    } else if kind == b"bridge_slave".as_slice() {
        Some(b"bridge".as_slice())
    } else {
        None
    }
}

/// Returns the bytes of a name without the NUL at their end, if they have one.
pub fn without_nul(bytes: &[u8]) -> &[u8]
    ensures { result.now ≡ without_nul bytes.now }
{
    bytes.strip_suffix(&[0]).unwrap_or(bytes)
}
