//! What entries of an attribute type hold.

ghost use Rattle.std.specs.Prelude.{◌≡◌};
ghost use Rattle.link_base.specs.Borrowed.{elements_at};
ghost use Rattle.link_base.specs.Labels.{label_in};
ghost use Rattle.netlink_packet_route.specs.Family.{table_of};
ghost use Rattle.link_entries.specs.Fields.{fields_at};
ghost use Rattle.link_entries.specs.Rows.{width_in, flags_in, list_in, row_by, element_row, row_of_type};
ghost use Rattle.link_entries.specs.Units.{unit_in, unit_at};

use crate::fields::{Fields, array_number, fields_in, ip_address};
use crate::payload::form_in;
use crate::units::{NONE, unit_of};
use link_base::rows::label::KindLabel;
use link_base::views::attribute_set::AttributeSet;
use netlink_packet_route::{Family, FamilyElements, FamilySet};

/// What entries of an attribute type hold, and how it is written (`struct nlroute_row`).
#[repr(C)]
#[derive(Clone, Copy, Debug)]
pub struct Row {
    /// How many bytes hold every number of the type, or each of two numbers; the length of an address; or that of the bytes
    /// at `offset`. 0 if there are none, or if there may be any number of them.
    pub width: u32,
    /// The flags of `nla_type` that are written: `NLA_F_NESTED` for some lists.
    pub flags: u16,
    /// A number of [`forms`](crate::forms); that of unknown attributes if no row has the type.
    pub form: u8,
    /// 1 if elements follow, otherwise 0.
    pub is_list: u8,
    /// What numbers of the type count, or those of its elements: a number of [`units`](crate::units).
    pub unit: u32,
}

/// Returns what entries of type `kind` hold, or those of its element `inner` if `depth` is 1. `None` if it has no elements, or
/// if `depth` is greater.
#[tactic(auto, using(crate::proofs::RowForms::label_fields))]
pub fn row_for(family: Family, kind: u16, inner: u16, depth: u8) -> Option<Row>
    ensures { result ≡ row_of_type (table_of family) kind inner depth }
{
    let label = FamilySet { family }.label(kind);
    let (own, unit) = (fields_in(label), unit_in(label));
    match depth {
        0 => Some(row_by(own, unit)),
        1 => element_row(family, own, unit, kind, inner),
        _ => None,
    }
}

/// Returns what the element `inner` of an attribute of type `kind` with these fields and this unit holds; `None` if it has no
/// elements.
#[tactic(auto, using(crate::proofs::RowForms::label_fields))]
fn element_row(family: Family, own: Fields, unit: u32, kind: u16, inner: u16) -> Option<Row>
    ensures { result ≡ element_row (elements_at (table_of family) kind) own unit inner }
{
    match own {
        Fields::Numbers { of } => Some(row_by(array_number(of), unit)),
        Fields::Addresses { size } => Some(row_by(ip_address(size), unit)),
        Fields::List { .. } => {
            let label = FamilyElements { family, list: kind }.label(inner);
            Some(row_by(fields_in(label), unit_in(label)))
        }
        _ => None,
    }
}

/// Returns what the numbers of an attribute type with this label count.
fn unit_in(label: Option<KindLabel>) -> u32
    ensures { result ≡ unit_in (label_in label) }
{
    match label {
        Some(label) => unit_of(label.quantity),
        None => NONE,
    }
}

fn row_by(own: Fields, unit: u32) -> Row
    ensures { result ≡ row_by own unit }
{
    Row {
        width: (width_in(own) % 0x1_0000_0000) as u32,
        flags: flags_in(own),
        form: form_in(own),
        is_list: list_in(own),
        unit,
    }
}

/// Returns the number of bytes of each number, of the address, or of the bytes that an entry with these fields refers to.
fn width_in(own: Fields) -> usize
    ensures { result ≡ width_in own }
{
    match own {
        Fields::Number { most, .. } if most < 256 => 1,
        Fields::Number { width, .. } => width.size(),
        Fields::FlagOrBool => 1,
        Fields::Signed | Fields::Words { .. } => 4,
        Fields::Shorts { .. } | Fields::Protocol => 2,
        Fields::Address { size, .. } => size,
        Fields::BridgeId => 8,
        Fields::Passed { size, .. } => size.unwrap_or(0),
        Fields::Limits => 48,
        Fields::Empty
        | Fields::Numbers { .. }
        | Fields::Addresses { .. }
        | Fields::List { .. }
        | Fields::Peer
        | Fields::Unknown => 0,
    }
}

fn flags_in(own: Fields) -> u16
    ensures { result ≡ flags_in own }
{
    match own {
        Fields::List { flag } => flag,
        _ => 0,
    }
}

fn list_in(own: Fields) -> u8
    ensures { result ≡ list_in own }
{
    match own {
        Fields::Numbers { .. } | Fields::Addresses { .. } | Fields::List { .. } => 1,
        _ => 0,
    }
}
