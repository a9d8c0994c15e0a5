//! The contents of attributes, as views borrow them.

ghost use Rattle.std.specs.Prelude.{◌≡◌};

use crate::names::vlan_protocol::VlanProtocol;
use crate::rows::form::{ArrayOf, Form, Layout, Look, Order, Role, Width};
use crate::rows::label::KindLabel;
use std::net::{Ipv4Addr, Ipv6Addr};

/// The content of an attribute. Slices are parts of the input; nothing is allocated.
#[derive(Clone, Copy, Debug)]
pub enum Content<'a> {
    /// No value: the payload is ignored.
    Nothing,
    /// A boolean: true if the byte is not zero.
    Bool(bool),
    /// A flag: `None` without a byte, which sets it; otherwise whether the byte is not zero. `flag_is_on` joins the two.
    FlagOrBool(Option<bool>),
    /// An unsigned number, an enum or a set of flags, by its number.
    Number {
        number: u64,
        width: Width,
        order: Order,
        role: Role,
    },
    /// A signed number of four bytes.
    Signed(i32),
    /// A set of flags of one byte; the second byte of the payload is ignored.
    LowFlags(u8),
    /// A set of flags, and a mask.
    MaskedFlags {
        flags: u32,
        mask: u32,
    },
    /// Two consecutive `u32`s.
    Pair(u32, u32),
    /// A VLAN protocol.
    Protocol(VlanProtocol),
    /// A hardware address.
    Mac([u8; 6]),
    /// An IPv4 address.
    Ipv4(Ipv4Addr),
    /// An IPv6 address.
    Ipv6(Ipv6Addr),
    /// Bytes of any length; of a peer, 16 or more.
    Bytes {
        look: Look,
        bytes: &'a [u8],
    },
    /// The bytes of a fixed-layout struct, without additional bytes of the payload.
    Struct {
        layout: Layout,
        bytes: &'a [u8],
    },
    /// The bytes of an array of little-endian numbers.
    Numbers {
        of: ArrayOf,
        bytes: &'a [u8],
    },
    /// The limits of a CAN controller: its name, which ends before the first NUL and may not be UTF-8, and the 32 bytes
    /// of the eight numbers, which are little-endian `u32`s.
    Limits {
        name: &'a [u8],
        numbers: &'a [u8],
    },
    /// The bytes of a list of attributes, each of which holds an address. Skip those whose payload is not `size` bytes
    /// long: they are not addresses.
    Addresses {
        list: &'a [u8],
        size: usize,
    },
    /// The bytes of a nested list, and whether it is written with the nested flag.
    List {
        list: &'a [u8],
        flagged: bool,
    },
    /// The payload of an attribute whose type has no row. `Value::buffer` has its flags.
    Other(&'a [u8]),
}

/// What is known of an attribute: of its type by the row, and of its payload.
#[derive(Clone, Copy, Debug)]
pub struct Known<'a> {
    /// What is known of the attribute type; `None` if no row has the type.
    pub label: Option<KindLabel>,
    /// The content.
    pub content: Content<'a>,
}

impl<'a> Content<'a> {
    ghost use Rattle.link_base.specs.Borrowed.{form_of};

    /// Returns the form; `None` for the payload of an attribute whose type has no row.
    pub fn form(&self) -> Option<Form>
        ensures { result ≡ form_of self.now }
    {
        Some(match *self {
            Content::Nothing => Form::Nothing,
            Content::Bool(_) => Form::Bool,
            Content::FlagOrBool(_) => Form::FlagOrBool,
            Content::Number {
                width,
                order,
                role,
                ..
            } => Form::Number { width, order, role },
            Content::Signed(_) => Form::Signed,
            Content::LowFlags(_) => Form::LowFlags,
            Content::MaskedFlags { .. } => Form::MaskedFlags,
            Content::Pair(_, _) => Form::Pair,
            Content::Protocol(_) => Form::Protocol,
            Content::Mac(_) => Form::Mac,
            Content::Ipv4(_) => Form::Ipv4,
            Content::Ipv6(_) => Form::Ipv6,
            Content::Bytes { look, .. } => Form::Bytes(look),
            Content::Struct { layout, .. } => Form::Struct(layout),
            Content::Numbers { of, .. } => Form::Numbers(of),
            Content::Limits { .. } => Form::Limits,
            Content::Addresses { size, .. } => Form::Addresses { size },
            Content::List { flagged, .. } => Form::List { flagged },
            Content::Other(_) => return None,
        })
    }
}
