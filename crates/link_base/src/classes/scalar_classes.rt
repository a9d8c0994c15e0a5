//! Booleans, signed numbers, VLAN protocols, addresses, pairs of numbers, and no value, as payloads.

ghost use Rattle.std.specs.Prelude.{refl, [], ◌∷◌};
ghost use Rattle.link_base.specs.Class.{Boolean, Integer, EtherType, Raw, Nothing};
ghost use Rattle.link_base.specs.IpAddress.{four_octets, sixteen_octets};
ghost use Rattle.link_base.specs.Layout.{octets_of};
ghost use Rattle.link_base.specs.Named.{texts_of};
ghost use Rattle.link_base.specs.Protocol.{protocol_number, vlan_protocols};
ghost use Rattle.link_base.specs.declared.rows.form.Form.TheVariants as forms;

use crate::classes::address_list::Address;
use crate::classes::fixed_size::FixedSize;
use crate::classes::records::u32_at;
use crate::classes::scalars::{emit_i32, emit_mac, emit_u8, emit_u16_be, emit_u32_pair};
use crate::names::vlan_protocol::VlanProtocol;
use crate::rows::form::Form;
use crate::rows::label::Name;
use std::net::{Ipv4Addr, Ipv6Addr};

impl FixedSize for bool {
    type Value = bool;

    const FORM: Form = Form::Bool;

    ghost FORM = { forms.Bool };

    ghost fixed = { refl };

    ghost means = { λ value. Boolean value };

    #[inline]
    fn names() -> &'static [Name] {
        &[]
    }

    #[inline]
    fn load(payload: &[u8]) -> bool {
        payload[0] != 0
    }

    #[inline]
    fn len(_value: &bool) -> usize {
        1
    }

    #[inline]
    fn store(value: &bool, buffer: &mut [u8]) {
        emit_u8(buffer, u8::from(*value));
    }
}

impl FixedSize for i32 {
    type Value = i32;

    const FORM: Form = Form::Signed;

    ghost FORM = { forms.Signed };

    ghost fixed = { refl };

    ghost means = { λ value. Integer value };

    #[inline]
    fn names() -> &'static [Name] {
        &[]
    }

    #[inline]
    fn load(payload: &[u8]) -> i32 {
        i32::from_le_bytes([payload[0], payload[1], payload[2], payload[3]])
    }

    #[inline]
    fn len(_value: &i32) -> usize {
        4
    }

    #[inline]
    fn store(value: &i32, buffer: &mut [u8]) {
        emit_i32(buffer, *value);
    }
}

impl FixedSize for VlanProtocol {
    type Value = VlanProtocol;

    const FORM: Form = Form::Protocol;

    ghost FORM = { forms.Protocol };

    ghost names = { texts_of vlan_protocols };

    ghost fixed = { refl };

    ghost means = { λ value. EtherType (protocol_number value) };

    #[inline]
    fn names() -> &'static [Name] {
        VlanProtocol::names()
    }

    #[inline]
    fn load(payload: &[u8]) -> VlanProtocol {
        VlanProtocol::from(u16::from_be_bytes([payload[0], payload[1]]))
    }

    #[inline]
    fn len(_value: &VlanProtocol) -> usize {
        2
    }

    #[inline]
    fn store(value: &VlanProtocol, buffer: &mut [u8]) {
        emit_u16_be(buffer, u16::from(*value));
    }
}

impl FixedSize for [u8; 6] {
    type Value = [u8; 6];

    const FORM: Form = Form::Mac;

    ghost FORM = { forms.Mac };

    ghost fixed = { refl };

    ghost means = { λ value. Raw value };

    #[inline]
    fn names() -> &'static [Name] {
        &[]
    }

    #[inline]
    fn load(payload: &[u8]) -> [u8; 6] {
        [
            payload[0], payload[1], payload[2], payload[3], payload[4], payload[5],
        ]
    }

    #[inline]
    fn len(value: &[u8; 6]) -> usize {
        value.as_slice().len()
    }

    #[inline]
    fn store(value: &[u8; 6], buffer: &mut [u8]) {
        emit_mac(buffer, value);
    }
}

impl FixedSize for Ipv4Addr {
    type Value = Ipv4Addr;

    const FORM: Form = Form::Ipv4;

    ghost FORM = { forms.Ipv4 };

    ghost fixed = { refl };

    ghost means = { λ address. Raw (four_octets address) };

    #[inline]
    fn names() -> &'static [Name] {
        &[]
    }

    #[inline]
    fn load(payload: &[u8]) -> Ipv4Addr {
        Ipv4Addr::from_payload(payload).unwrap()
    }

    #[inline]
    fn len(_address: &Ipv4Addr) -> usize {
        4
    }

    #[inline]
    fn store(address: &Ipv4Addr, buffer: &mut [u8]) {
        address.put(buffer);
    }
}

impl FixedSize for Ipv6Addr {
    type Value = Ipv6Addr;

    const FORM: Form = Form::Ipv6;

    ghost FORM = { forms.Ipv6 };

    ghost fixed = { refl };

    ghost means = { λ address. Raw (sixteen_octets address) };

    #[inline]
    fn names() -> &'static [Name] {
        &[]
    }

    #[inline]
    fn load(payload: &[u8]) -> Ipv6Addr {
        Ipv6Addr::from_payload(payload).unwrap()
    }

    #[inline]
    fn len(_address: &Ipv6Addr) -> usize {
        16
    }

    #[inline]
    fn store(address: &Ipv6Addr, buffer: &mut [u8]) {
        address.put(buffer);
    }
}

/// Two consecutive little-endian `u32`s: 8 bytes.
impl FixedSize for (u32, u32) {
    type Value = (u32, u32);

    const FORM: Form = Form::Pair;

    ghost FORM = { forms.Pair };

    ghost fixed = { refl };

    ghost means = { λ pair. Raw (octets_of 4 (pair.0 ∷ pair.1 ∷ [])) };

    #[inline]
    fn names() -> &'static [Name] {
        &[]
    }

    #[inline]
    fn load(payload: &[u8]) -> (u32, u32) {
        (u32_at(payload, 0), u32_at(payload, 4))
    }

    #[inline]
    fn len(_pair: &(u32, u32)) -> usize {
        8
    }

    #[inline]
    fn store(pair: &(u32, u32), buffer: &mut [u8]) {
        emit_u32_pair(buffer, pair.0, pair.1);
    }
}

/// No value: the payload is ignored.
impl FixedSize for () {
    type Value = ();

    const FORM: Form = Form::Nothing;

    ghost FORM = { forms.Nothing };

    ghost fixed = { refl };

    ghost means = { λ _. Nothing };

    #[inline]
    fn names() -> &'static [Name] {
        &[]
    }

    #[inline]
    fn load(_payload: &[u8]) {}

    #[inline]
    fn len(_value: &()) -> usize {
        0
    }

    #[inline]
    fn store(_value: &(), _buffer: &mut [u8]) {}
}
