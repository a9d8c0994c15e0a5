//! Which fields of an entry make the payload of its attribute.

ghost use Rattle.std.specs.Prelude.{◌≡◌, option_map};
ghost use Rattle.link_entries.specs.Fields.{any_number, number_form, array_number, role_form, look_form, look_fields, ip_address, struct_fields, row_fields, fields_in, IsNarrow};

use crate::forms;
use link_base::NLA_F_NESTED;
use link_base::rows::form::{ArrayOf, Form, Layout, Look, Order, Role, Width};
use link_base::rows::label::KindLabel;

/// Which fields of an entry make the payload of its attribute, and in which form.
#[derive(Clone, Copy)]
pub enum Fields {
    /// None: the payload is empty.
    Empty,
    /// `number`, at most `most`.
    Number {
        form: u8,
        width: Width,
        most: u64,
        order: Order,
    },
    /// `number`, a signed number of four bytes.
    Signed,
    /// `number` and `second`, two bytes each.
    Shorts {
        form: u8,
        second_first: bool,
    },
    /// `number` and `second`, four bytes each.
    Words {
        form: u8,
        second_first: bool,
    },
    /// `number`, the EtherType of a VLAN protocol.
    Protocol,
    /// The first `size` octets.
    Address {
        form: u8,
        size: usize,
    },
    /// `number`, two bytes in network byte order, and the first six octets.
    BridgeId,
    /// The bytes at `offset`, which must be `size` if it is given.
    Passed {
        form: u8,
        size: Option<usize>,
    },
    /// The bytes at `offset`: a header of 16 bytes, and a list.
    Peer,
    /// The 48 bytes at `offset`: a name, and numbers.
    Limits,
    /// The numbers that follow.
    Numbers {
        of: ArrayOf,
    },
    /// The addresses that follow, of `size` bytes each.
    Addresses {
        size: usize,
    },
    /// The attributes that follow; the `nla_type` of the list has this flag.
    List {
        flag: u16,
    },
    /// The bytes at `offset`: the attribute type has no row.
    Unknown,
    /// `number`, 0 or 1, and `length`, the number of bytes: without one, `number` is 1.
    FlagOrBool,
}

/// Returns the fields of any number of this width.
#[inline(always)]
pub(crate) fn any_number(form: u8, width: Width, order: Order) -> Fields
    ensures value { result ≡ any_number form width order }
    ensures narrow { IsNarrow result }
{
    Fields::Number {
        form,
        width,
        order,
        most: width.most(),
    }
}

/// Returns the form of a number of an array.
#[inline(always)]
pub fn number_form(of: ArrayOf) -> Form
    ensures { result ≡ number_form of }
{
    match of {
        ArrayOf::I32 => Form::Signed,
        _ => Form::Number {
            width: of.width(),
            order: Order::Little,
            role: Role::Plain,
        },
    }
}

/// Returns the fields of a number of an array.
#[inline(always)]
pub fn array_number(of: ArrayOf) -> Fields
    ensures { result ≡ array_number of }
{
    row_fields(number_form(of))
}

/// Returns the form of entries for numbers that say this.
#[inline(always)]
pub(crate) fn role_form(role: Role) -> u8
    ensures { result ≡ role_form role }
{
    match role {
        Role::Plain => forms::UNSIGNED,
        Role::Coded | Role::Enum => forms::NAMED,
        Role::Flags => forms::FLAGS,
    }
}

/// Returns the form of entries for bytes that are shown as this.
#[inline(always)]
pub(crate) fn look_form(look: Look) -> u8
    ensures { result ≡ look_form look }
{
    match look {
        Look::Address => forms::BYTES,
        Look::Text => forms::TEXT,
        Look::Held => forms::HELD,
        Look::Peer => forms::PEER,
    }
}

/// Returns the fields of bytes that are shown as this.
#[inline(always)]
fn look_fields(look: Look) -> Fields
    ensures value { result ≡ look_fields look }
    ensures narrow { IsNarrow result }
{
    match look {
        Look::Peer => Fields::Peer,
        _ => passed(look_form(look), None),
    }
}

/// Returns the fields of an IP address of `size` bytes.
#[inline(always)]
pub fn ip_address(size: usize) -> Fields
    ensures { result ≡ ip_address size }
{
    let form = if size == 4 { forms::IPV4 } else { forms::IPV6 };
    address(form, size)
}

/// Returns the fields of two numbers of two bytes each.
#[inline(always)]
fn shorts(form: u8, second_first: bool) -> Fields
    ensures { result ≡ Fields.Shorts form second_first }
{
    Fields::Shorts { form, second_first }
}

/// Returns the fields of two numbers of four bytes each.
#[inline(always)]
fn words(form: u8, second_first: bool) -> Fields
    ensures { result ≡ Fields.Words form second_first }
{
    Fields::Words { form, second_first }
}

/// Returns the fields of an address of `size` bytes.
#[inline(always)]
fn address(form: u8, size: usize) -> Fields
    ensures { result ≡ Fields.Address form size }
{
    Fields::Address { form, size }
}

/// Returns the fields of bytes that are passed in: `size`, if it is given.
#[inline(always)]
fn passed(form: u8, size: Option<usize>) -> Fields
    ensures { result ≡ Fields.Passed form size }
{
    Fields::Passed { form, size }
}

/// Returns the fields for attributes of a type with this label; for an unknown type, if there is none.
#[inline(always)]
pub fn fields_in(label: Option<KindLabel>) -> Fields
    ensures { result ≡ fields_in (option_map (λ x. x.form) label) }
{
    match label {
        Some(label) => row_fields(label.form),
        None => Fields::Unknown,
    }
}

/// Returns the fields for attributes whose values have this form.
#[inline(always)]
pub fn row_fields(form: Form) -> Fields
    ensures value { result ≡ row_fields form }
    ensures narrow { IsNarrow result }
{
    match form {
        Form::Nothing => Fields::Empty,
        Form::Bool => Fields::Number {
            form: forms::BOOL,
            width: Width::One,
            order: Order::Little,
            most: 1,
        },
        Form::FlagOrBool => Fields::FlagOrBool,
        // One call for each form, so that the compiler knows the form in each row.
        Form::Number { width, order, role } => match role {
            Role::Plain => any_number(forms::UNSIGNED, width, order),
            Role::Coded | Role::Enum => any_number(forms::NAMED, width, order),
            Role::Flags => any_number(forms::FLAGS, width, order),
        },
        Form::Signed => Fields::Signed,
        Form::LowFlags => Fields::Number {
            form: forms::FLAGS,
            width: Width::Two,
            order: Order::Little,
            most: 255,
        },
        Form::MaskedFlags => words(forms::MASKED, false),
        Form::Pair => words(forms::QOS_MAPPING, false),
        Form::Protocol => Fields::Protocol,
        Form::Mac => address(forms::MAC, 6),
        Form::Ipv4 => address(forms::IPV4, 4),
        Form::Ipv6 => address(forms::IPV6, 16),
        Form::Bytes(look) => look_fields(look),
        Form::Struct(layout) => struct_fields(layout),
        Form::Numbers(of) => Fields::Numbers { of },
        Form::Limits => Fields::Limits,
        Form::Addresses { size } => Fields::Addresses { size },
        Form::List { flagged } => Fields::List {
            flag: if flagged { NLA_F_NESTED } else { 0 },
        },
    }
}

/// Returns the fields for a struct.
#[inline(always)]
fn struct_fields(layout: Layout) -> Fields
    ensures value { result ≡ struct_fields layout }
    ensures narrow { IsNarrow result }
{
    match layout {
        Layout::BridgeId => Fields::BridgeId,
        Layout::VlanInfo => shorts(forms::VLAN_INFO, true),
        Layout::BooleanOptions => words(forms::MASKED, false),
        Layout::BitTiming => passed(forms::BITTIMING, Some(32)),
        Layout::Clock => any_number(forms::UNSIGNED, Width::Four, Order::Little),
        Layout::CtrlMode => words(forms::MASKED, true),
        Layout::BerrCounter => shorts(forms::BERR_COUNTER, false),
        _ => passed(forms::BYTES, Some(layout.lengths().kept())),
    }
}
