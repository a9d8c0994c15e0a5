//! Names of numbers that stay numbers in Rust: of enums of the kernel's headers, of flags, and of places of arrays.

ghost use Rattle.std.specs.Prelude.{◌≡◌, ℕ, List, refl};
ghost use Rattle.link_base.specs.Class.{Number};
ghost use Rattle.link_base.specs.Forms.{bytes_in};
ghost use Rattle.link_base.specs.Labels.{names_in};
ghost use Rattle.link_base.specs.declared.rows.form.Form.TheVariants as forms;
ghost use Rattle.link_base.specs.declared.rows.form.Order.TheVariants as orders;
ghost use Rattle.link_base.specs.declared.rows.form.Role.TheVariants as roles;

use crate::classes::fixed_size::FixedSize;
use crate::classes::word::Word;
use crate::rows::form::{Form, Order, Role};
use crate::rows::label::Name;
use std::marker::PhantomData;

/// An enum of the kernel's headers whose values are plain numbers in Rust, such a set of flags, or the places of an
/// array.
pub trait NumberNames {
    /// The numbers.
    type Number;

    /// The names of the numbers, of the bits, or of the places, which count from 0.
    ghost names: { List (ℕ × List ℕ) };

    /// Returns these names.
    fn names() -> &'static [Name]
        ensures { names_in result.now ≡ Self.names };
}

/// The class of payloads that are such a number.
pub struct Coded<N> {
    of: PhantomData<N>,
}

impl<N: NumberNames> FixedSize for Coded<N>
where
    N::Number: Word,
{
    type Value = N::Number;

    const FORM: Form = Form::Number {
        width: N::Number::WIDTH,
        order: Order::Little,
        role: Role::Coded,
    };

    ghost FORM = { forms.Number N.Number.WIDTH orders.Little roles.Coded };

    ghost names = { N.names };

    ghost fixed = { refl };

    ghost means = { λ value. Number (bytes_in N.Number.WIDTH) (N.Number.value value) };

    #[inline]
    fn names() -> &'static [Name] {
        N::names()
    }

    #[inline]
    fn load(payload: &[u8]) -> N::Number {
        N::Number::from_bytes(payload)
    }

    #[inline]
    #[tactic(auto, using(crate::proofs::Numbers::bytes_len))]
    fn len(_value: &N::Number) -> usize {
        N::Number::WIDTH.size()
    }

    #[inline]
    #[tactic(auto, using(crate::proofs::Numbers::bytes_len))]
    fn store(value: &N::Number, buffer: &mut [u8]) {
        value.emit(buffer);
    }
}

/// The class of payloads that are an array of numbers. The names of `N` are those of its places, which count from 0. An
/// array may be shorter than the list of names, and longer.
pub type Counters<N> = Vec<N>;

/// The class of payloads that are a set of flags, which is a plain number in Rust. Bits without a name are kept.
pub struct CodedFlags<N> {
    of: PhantomData<N>,
}

impl<N: NumberNames> FixedSize for CodedFlags<N>
where
    N::Number: Word,
{
    type Value = N::Number;

    const FORM: Form = Form::Number {
        width: N::Number::WIDTH,
        order: Order::Little,
        role: Role::Flags,
    };

    ghost FORM = { forms.Number N.Number.WIDTH orders.Little roles.Flags };

    ghost names = { N.names };

    ghost fixed = { refl };

    ghost means = { λ value. Number (bytes_in N.Number.WIDTH) (N.Number.value value) };

    #[inline]
    fn names() -> &'static [Name] {
        N::names()
    }

    #[inline]
    fn load(payload: &[u8]) -> N::Number {
        N::Number::from_bytes(payload)
    }

    #[inline]
    #[tactic(auto, using(crate::proofs::Numbers::bytes_len))]
    fn len(_value: &N::Number) -> usize {
        N::Number::WIDTH.size()
    }

    #[inline]
    #[tactic(auto, using(crate::proofs::Numbers::bytes_len))]
    fn store(value: &N::Number, buffer: &mut [u8]) {
        value.emit(buffer);
    }
}
