//! Lists as payloads: bytes, arrays of numbers, lists of IP addresses, and nested lists.

ghost use Rattle.std.specs.Prelude.{map, []};
ghost use Rattle.link_base.specs.Class.{Bytes, Many, Raw};
ghost use Rattle.link_base.specs.Forms.{size_in};
ghost use Rattle.link_base.specs.Layout.{octets_by};
ghost use Rattle.link_base.specs.Table.{One, Single, Addresses, Listed, Nested, Inner};
ghost use Rattle.link_base.specs.declared.rows.form.Form.TheVariants as forms;
ghost use Rattle.link_base.specs.declared.rows.form.Look.TheVariants as looks;

use crate::classes::address_list::{Address, addresses_len, emit_addresses, read_addresses};
use crate::classes::coded::NumberNames;
use crate::classes::lengths::{Lengths, check_numbers};
use crate::classes::number_lists::{ArrayWord, emit_numbers, numbers_len, parse_numbers};
use crate::classes::payload_class::PayloadClass;
use crate::lists::canonical::{are_numbers, is_address_list, is_bytes, is_nested};
use crate::lists::checking::{check_elements, check_nested};
use crate::rows::fields::Field;
use crate::rows::form::{Form, Look};
use crate::rows::label::{KindLabel, Name};
use crate::rows::nested::{NestedAttribute, emit_nested, nested_len, read_nested};
use crate::rows::try_clone::{TryClone, try_clone_list};
use crate::wire::buffer::NlaBuffer;
use crate::wire::fault::{DecodeError, DecodeFault};
use std::alloc::{AllocError, Global};
use std::marker::PhantomData;

impl PayloadClass for Vec<u8> {
    type Value = Vec<u8>;

    const FORM: Form = Form::Bytes(Look::Address);

    ghost FORM = { forms.Bytes looks.Address };

    ghost shape = { One Bytes };

    ghost content = { λ bytes. Single (Raw bytes.items) };

    #[inline(always)]
    fn element_label(_kind: u16) -> Option<KindLabel> {
        None
    }

    #[inline]
    fn names() -> &'static [Name] {
        &[]
    }

    #[inline]
    fn fields() -> &'static [Field] {
        &[]
    }

    #[inline]
    fn read(alloc: Global, _kind: u16, payload: &[u8]) -> Result<Vec<u8>, DecodeError> {
        Vec::from_slice(alloc, payload).map_err(DecodeError::Memory)
    }

    #[inline]
    fn check(kind: u16, payload: &[u8]) -> Result<(), DecodeFault> {
        Lengths::AtLeast(0).check(kind, payload)
    }

    #[inline]
    fn size(bytes: &Vec<u8>) -> usize {
        bytes.len()
    }

    #[inline]
    fn emit(bytes: &Vec<u8>, buffer: &mut [u8]) {
        buffer.copy_from_slice(bytes);
    }

    #[inline]
    fn is_canonical(buffer: &NlaBuffer<'_>) -> bool {
        is_bytes(buffer)
    }

    #[inline]
    fn try_clone(alloc: Global, bytes: &Vec<u8>) -> Result<Vec<u8>, AllocError> {
        Vec::from_slice(alloc, bytes)
    }
}

/// The places have no names.
impl<W: ArrayWord> NumberNames for W {
    type Number = W;

    ghost names = { [] };

    #[inline]
    fn names() -> &'static [Name] {
        &[]
    }
}

impl<N: NumberNames> PayloadClass for Vec<N>
where
    N::Number: ArrayWord,
{
    type Value = Vec<N::Number>;

    const FORM: Form = Form::Numbers(N::Number::OF);

    ghost FORM = { forms.Numbers N.Number.OF };

    ghost shape = { One (Many (size_in N.Number.OF)) };

    ghost names = { N.names };

    ghost content = { λ numbers. Single (Raw (octets_by (size_in N.Number.OF) N.Number.value numbers.items)) };

    #[inline(always)]
    fn element_label(_kind: u16) -> Option<KindLabel> {
        None
    }

    #[inline]
    fn names() -> &'static [Name] {
        N::names()
    }

    #[inline]
    fn fields() -> &'static [Field] {
        &[]
    }

    #[inline]
    fn read(alloc: Global, _kind: u16, payload: &[u8]) -> Result<Vec<N::Number>, DecodeError> {
        parse_numbers(alloc, payload)
    }

    #[inline]
    fn check(kind: u16, payload: &[u8]) -> Result<(), DecodeFault> {
        check_numbers(kind, payload, N::Number::OF.size())
    }

    #[inline]
    fn size(numbers: &Vec<N::Number>) -> usize {
        numbers_len(numbers)
    }

    #[inline]
    #[tactic(auto, using(crate::proofs::Layouts::values_len))]
    fn emit(numbers: &Vec<N::Number>, buffer: &mut [u8]) {
        emit_numbers(buffer, numbers);
    }

    #[inline]
    fn is_canonical(buffer: &NlaBuffer<'_>) -> bool {
        are_numbers(buffer, N::Number::OF.size())
    }

    #[inline]
    fn try_clone(alloc: Global, numbers: &Vec<N::Number>) -> Result<Vec<N::Number>, AllocError> {
        Vec::from_slice(alloc, numbers)
    }
}

/// The class of payloads that are a list of IP addresses.
pub struct AddressList<A> {
    of: PhantomData<A>,
}

impl<A: Address + Eq + Drop> PayloadClass for AddressList<A> {
    type Value = Vec<A>;

    const FORM: Form = Form::Addresses { size: A::SIZE };

    ghost FORM = { forms.Addresses A.SIZE };

    ghost shape = { Addresses A.SIZE };

    ghost content = { λ addresses. Listed (map A.octets addresses.items) };

    #[inline(always)]
    fn element_label(_kind: u16) -> Option<KindLabel> {
        None
    }

    #[inline]
    fn names() -> &'static [Name] {
        &[]
    }

    #[inline]
    fn fields() -> &'static [Field] {
        &[]
    }

    #[inline]
    fn read(alloc: Global, kind: u16, payload: &[u8]) -> Result<Vec<A>, DecodeError> {
        read_addresses(alloc, kind, payload)
    }

    #[inline]
    fn check(kind: u16, payload: &[u8]) -> Result<(), DecodeFault> {
        check_elements(kind, payload)
    }

    #[inline]
    fn size(addresses: &Vec<A>) -> usize {
        addresses_len(addresses)
    }

    #[inline]
    fn emit(addresses: &Vec<A>, buffer: &mut [u8]) {
        emit_addresses(addresses, buffer);
    }

    #[inline]
    fn is_canonical(buffer: &NlaBuffer<'_>) -> bool {
        is_address_list(buffer, A::SIZE)
    }

    #[inline]
    fn try_clone(alloc: Global, addresses: &Vec<A>) -> Result<Vec<A>, AllocError> {
        Vec::from_slice(alloc, addresses)
    }
}

/// The class of payloads that are a list of attributes of type `E`.
pub struct NestedList<E> {
    of: PhantomData<E>,
}

impl<E: NestedAttribute + TryClone> PayloadClass for NestedList<E> {
    type Value = Vec<E>;

    const FORM: Form = Form::List {
        flagged: E::FLAGGED,
    };

    ghost FORM = { forms.List E.FLAGGED };

    ghost shape = { Nested E.FLAGGED E.rows };

    ghost content = { λ values. Inner E.FLAGGED (map E.leaf values.items) };

    #[inline(always)]
    fn element_label(kind: u16) -> Option<KindLabel> {
        E::label(None, kind)
    }

    #[inline]
    fn names() -> &'static [Name] {
        &[]
    }

    #[inline]
    fn fields() -> &'static [Field] {
        &[]
    }

    #[inline]
    fn read(alloc: Global, kind: u16, payload: &[u8]) -> Result<Vec<E>, DecodeError> {
        read_nested(alloc, kind, payload)
    }

    #[inline]
    fn check(kind: u16, payload: &[u8]) -> Result<(), DecodeFault> {
        check_nested::<E>(kind, payload)
    }

    #[inline]
    fn size(values: &Vec<E>) -> usize {
        nested_len(values)
    }

    #[inline]
    fn emit(values: &Vec<E>, buffer: &mut [u8]) {
        emit_nested(values, buffer);
    }

    #[inline]
    fn is_canonical(buffer: &NlaBuffer<'_>) -> bool {
        is_nested::<E>(buffer)
    }

    #[inline]
    fn try_clone(alloc: Global, values: &Vec<E>) -> Result<Vec<E>, AllocError> {
        try_clone_list(alloc, values)
    }
}
