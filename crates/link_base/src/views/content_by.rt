//! What a payload says, by the form of its attribute type.

ghost use Rattle.std.specs.Prelude.{◌≡◌, ◌<◌, [], None, Some, length};
ghost use Rattle.link_base.specs.Number.{bound};
ghost use Rattle.link_base.specs.Class.{extent, length_cause};
ghost use Rattle.link_base.specs.Forms.{bytes_in};
ghost use Rattle.link_base.specs.Payloads.{class_by};
ghost use Rattle.link_base.specs.Borrowed.{BorrowsBy, form_of};
ghost use Rattle.link_base.specs.Orders.{bytes_by, number_by};

use crate::classes::address_list::Address;
use crate::classes::fixed_size::FixedSize;
use crate::classes::flag_or_bool::flag_in;
use crate::classes::records::{before_nul, u32_at};
use crate::classes::word::Word;
use crate::names::vlan_protocol::VlanProtocol;
use crate::rows::form::{Form, Order, Width};
use crate::views::content::Content;
use std::net::{Ipv4Addr, Ipv6Addr};

/// Returns the content of a payload of this form, whose length must be one that the form accepts. It borrows the payload,
/// and copies at most 16 bytes.
#[inline(always)]
#[tactic(auto, using(crate::proofs::ContentBy::number_says, crate::proofs::ContentBy::bytes_say))]
pub fn content_by<'a>(form: Form, payload: &'a [u8]) -> Content<'a>
    requires { length_cause (extent (class_by form [])) (length payload.now) ≡ None }
    ensures content { BorrowsBy form payload.now result }
    ensures form { form_of result ≡ Some form }
{
    match form {
        Form::Nothing => Content::Nothing,
        Form::Bool => Content::Bool(payload[0] != 0),
        Form::FlagOrBool => Content::FlagOrBool(flag_in(payload)),
        Form::Number { width, order, role } => Content::Number {
            number: number_in(width, order, payload),
            width,
            order,
            role,
        },
        Form::Signed => Content::Signed(i32::load(payload)),
        Form::LowFlags => Content::LowFlags(payload[0]),
        Form::MaskedFlags => Content::MaskedFlags {
            flags: u32_at(payload, 0),
            mask: u32_at(payload, 4),
        },
        Form::Pair => Content::Pair(u32_at(payload, 0), u32_at(payload, 4)),
        Form::Protocol => Content::Protocol(VlanProtocol::load(payload)),
        Form::Mac => Content::Mac(<[u8; 6]>::load(payload)),
        Form::Ipv4 => Content::Ipv4(Ipv4Addr::load(payload)),
        Form::Ipv6 => Content::Ipv6(Ipv6Addr::load(payload)),
        Form::Bytes(look) => Content::Bytes {
            look,
            bytes: payload,
        },
        Form::Struct(layout) => Content::Struct {
            layout,
            bytes: &payload[..layout.lengths().kept()],
        },
        Form::Numbers(of) => Content::Numbers { of, bytes: payload },
        Form::Limits => Content::Limits {
            name: before_nul(&payload[..16]),
            numbers: &payload[16..48],
        },
        Form::Addresses { size } => Content::Addresses {
            list: payload,
            size,
        },
        Form::List { flagged } => Content::List {
            list: payload,
            flagged,
        },
    }
}

/// Returns the number of `bytes`, which must be as many as the width says.
#[inline(always)]
pub fn number_in(width: Width, order: Order, bytes: &[u8]) -> u64
    requires { length bytes.now ≡ bytes_in width }
    ensures value { result ≡ number_by order bytes.now }
    ensures octets { bytes.now ≡ bytes_by order (bytes_in width) result }
    ensures low { result < bound (bytes_in width) }
{
    match (width, order) {
        (Width::One, _) => bytes[0].number(),
        (Width::Two, Order::Little) => u16::from_bytes(bytes).number(),
        (Width::Two, Order::Big) => <u16 as Word>::from_be_bytes(bytes).number(),
        (Width::Four, Order::Little) => u32::from_bytes(bytes).number(),
        (Width::Four, Order::Big) => <u32 as Word>::from_be_bytes(bytes).number(),
        (Width::Eight, Order::Little) => u64::from_bytes(bytes).number(),
        (Width::Eight, Order::Big) => <u64 as Word>::from_be_bytes(bytes).number(),
    }
}
