//! Enums for named numbers as payloads.

ghost use Rattle.std.specs.Prelude.{refl};
ghost use Rattle.link_base.specs.Named.{numbers_of, seen_value, texts_of};
ghost use Rattle.link_base.specs.Forms.{bytes_in};
ghost use Rattle.link_base.specs.declared.rows.form.Form.TheVariants as forms;
ghost use Rattle.link_base.specs.declared.rows.form.Order.TheVariants as orders;
ghost use Rattle.link_base.specs.declared.rows.form.Role.TheVariants as roles;

use crate::classes::fixed_size::FixedSize;
use crate::classes::word::Word;
use crate::names::named::NamedNumber;
use crate::rows::form::{Form, Order, Role};
use crate::rows::label::Name;
use std::marker::PhantomData;

/// The class of payloads that are a number, as a value of the enum `T`.
pub struct Named<T> {
    of: PhantomData<T>,
}

impl<T: NamedNumber> FixedSize for Named<T> {
    type Value = T;

    const FORM: Form = Form::Number {
        width: T::Number::WIDTH,
        order: Order::Little,
        role: Role::Enum,
    };

    ghost FORM = { forms.Number T.Number.WIDTH orders.Little roles.Enum };

    ghost names = { texts_of T.names };

    ghost fixed = { refl };

    ghost means = { λ value. seen_value (bytes_in T.Number.WIDTH) (numbers_of T.names) (T.seen value) };

    #[inline]
    fn names() -> &'static [Name] {
        T::names()
    }

    #[inline]
    fn load(payload: &[u8]) -> T {
        T::from(T::Number::from_bytes(payload))
    }

    #[inline]
    #[tactic(auto, using(crate::proofs::NamedPayloads::length_seen))]
    fn len(_value: &T) -> usize {
        T::Number::WIDTH.size()
    }

    #[inline]
    #[tactic(auto, using(crate::proofs::NamedPayloads::length_seen))]
    fn store(value: &T, buffer: &mut [u8]) {
        let number: T::Number = (*value).into();
        number.emit(buffer);
    }
}
