//! Numbers and sets of flags in network byte order, as payloads.

ghost use Rattle.std.specs.Prelude.{refl};
ghost use Rattle.link_base.specs.Number.{bytes_be};
ghost use Rattle.link_base.specs.Class.{Raw};
ghost use Rattle.link_base.specs.Forms.{bytes_in};
ghost use Rattle.link_base.specs.declared.rows.form.Form.TheVariants as forms;
ghost use Rattle.link_base.specs.declared.rows.form.Order.TheVariants as orders;
ghost use Rattle.link_base.specs.declared.rows.form.Role.TheVariants as roles;

use crate::classes::fixed_size::FixedSize;
use crate::classes::word::Word;
use crate::names::flag_laws::FlagSet;
use crate::rows::form::{Form, Order, Role};
use crate::rows::label::Name;
use std::marker::PhantomData;

/// Payloads that are an unsigned number in network byte order, such as a port (`__be16`).
pub struct Be<W> {
    of: PhantomData<W>,
}

impl<W: Word> FixedSize for Be<W> {
    type Value = W;

    const FORM: Form = Form::Number {
        width: W::WIDTH,
        order: Order::Big,
        role: Role::Plain,
    };

    ghost FORM = { forms.Number W.WIDTH orders.Big roles.Plain };

    ghost fixed = { refl };

    ghost means = { λ value. Raw (bytes_be (bytes_in W.WIDTH) (W.value value)) };

    #[inline]
    fn names() -> &'static [Name] {
        &[]
    }

    #[inline]
    #[tactic(auto, using(crate::proofs::Orders::all_taken))]
    fn load(payload: &[u8]) -> W {
        W::from_be_bytes(payload)
    }

    #[inline]
    #[tactic(auto, using(crate::proofs::Orders::bytes_be_len))]
    fn len(_value: &W) -> usize {
        W::WIDTH.size()
    }

    #[inline]
    #[tactic(auto, using(crate::proofs::Orders::bytes_be_len, crate::proofs::Orders::bytes_be_octets))]
    fn store(value: &W, buffer: &mut [u8]) {
        value.emit_be(buffer);
    }
}

/// Payloads that are a set of flags in network byte order.
pub struct BeFlagBits<F> {
    of: PhantomData<F>,
}

impl<F: FlagSet + Copy + Eq> FixedSize for BeFlagBits<F>
where
    F::Bits: Word,
{
    type Value = F;

    const FORM: Form = Form::Number {
        width: F::Bits::WIDTH,
        order: Order::Big,
        role: Role::Flags,
    };

    ghost FORM = { forms.Number F.Bits.WIDTH orders.Big roles.Flags };

    ghost names = { F.bit_names };

    ghost fixed = { refl };

    ghost means = { λ flags. Raw (bytes_be (bytes_in F.Bits.WIDTH) (F.set_of flags)) };

    #[inline]
    fn names() -> &'static [Name] {
        F::names()
    }

    #[inline]
    #[tactic(auto, using(crate::proofs::Orders::all_taken))]
    fn load(payload: &[u8]) -> F {
        F::from_bits_retain(F::Bits::from_be_bytes(payload))
    }

    #[inline]
    #[tactic(auto, using(crate::proofs::Orders::bytes_be_len))]
    fn len(_flags: &F) -> usize {
        F::Bits::WIDTH.size()
    }

    #[inline]
    #[tactic(auto, using(crate::proofs::Orders::bytes_be_len, crate::proofs::Orders::bytes_be_octets))]
    fn store(flags: &F, buffer: &mut [u8]) {
        flags.bits().emit_be(buffer);
    }
}
