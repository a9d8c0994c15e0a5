//! Sets of flags as payloads.

ghost use Rattle.std.specs.Prelude.{refl, [], ◌∷◌};
ghost use Rattle.link_base.specs.Class.{Number, Raw, LowByte};
ghost use Rattle.link_base.specs.Layout.{octets_of};
ghost use Rattle.link_base.specs.Forms.{bytes_in};
ghost use Rattle.link_base.specs.declared.rows.form.Form.TheVariants as forms;
ghost use Rattle.link_base.specs.declared.rows.form.Order.TheVariants as orders;
ghost use Rattle.link_base.specs.declared.rows.form.Role.TheVariants as roles;

use crate::classes::fixed_size::FixedSize;
use crate::classes::scalars::{emit_low, emit_u32_pair};
use crate::classes::word::Word;
use crate::names::flag_laws::FlagSet;
use crate::rows::form::{Form, Order, Role};
use crate::rows::label::Name;
use bitflags::Flags;
use std::marker::PhantomData;

/// The class of payloads that are a set of flags, as a little-endian number of the width of its bits.
pub struct FlagBits<F> {
    of: PhantomData<F>,
}

impl<F: FlagSet + Copy + Eq> FixedSize for FlagBits<F>
where
    F::Bits: Word,
{
    type Value = F;

    const FORM: Form = Form::Number {
        width: F::Bits::WIDTH,
        order: Order::Little,
        role: Role::Flags,
    };

    ghost FORM = { forms.Number F.Bits.WIDTH orders.Little roles.Flags };

    ghost names = { F.bit_names };

    ghost fixed = { refl };

    ghost means = { λ flags. Number (bytes_in F.Bits.WIDTH) (F.set_of flags) };

    #[inline]
    fn names() -> &'static [Name] {
        F::names()
    }

    #[inline]
    fn load(payload: &[u8]) -> F {
        F::from_bits_retain(F::Bits::from_bytes(payload))
    }

    #[inline]
    #[tactic(auto, using(crate::proofs::Numbers::bytes_len))]
    fn len(_flags: &F) -> usize {
        F::Bits::WIDTH.size()
    }

    #[inline]
    #[tactic(auto, using(crate::proofs::Numbers::bytes_len))]
    fn store(flags: &F, buffer: &mut [u8]) {
        flags.bits().emit(buffer);
    }
}

/// The class of payloads that are two sets of flags, each a little-endian `u32`: the flags, then a mask.
pub struct MaskedFlags<F> {
    of: PhantomData<F>,
}

impl<F: FlagSet + Flags<Bits = u32> + Copy + Eq> FixedSize for MaskedFlags<F> {
    type Value = (F, F);

    const FORM: Form = Form::MaskedFlags;

    ghost FORM = { forms.MaskedFlags };

    ghost names = { F.bit_names };

    ghost fixed = { refl };

    ghost means = { λ masked. Raw (octets_of 4 (F.set_of masked.0 ∷ F.set_of masked.1 ∷ [])) };

    #[inline]
    fn names() -> &'static [Name] {
        F::names()
    }

    #[inline]
    fn load(payload: &[u8]) -> (F, F) {
        let (flags, mask) = <(u32, u32)>::load(payload);
        (F::from_bits_retain(flags), F::from_bits_retain(mask))
    }

    #[inline]
    fn len(_masked: &(F, F)) -> usize {
        8
    }

    #[inline]
    fn store(masked: &(F, F), buffer: &mut [u8]) {
        emit_u32_pair(buffer, masked.0.bits(), masked.1.bits());
    }
}

/// The class of payloads that are a set of flags of one byte as a little-endian `u16`.
pub struct LowFlagBits<F> {
    of: PhantomData<F>,
}

impl<F: FlagSet + Flags<Bits = u8> + Copy + Eq> FixedSize for LowFlagBits<F> {
    type Value = F;

    const FORM: Form = Form::LowFlags;

    ghost FORM = { forms.LowFlags };

    ghost names = { F.bit_names };

    ghost fixed = { refl };

    ghost means = { λ flags. LowByte (F.set_of flags) };

    #[inline]
    fn names() -> &'static [Name] {
        F::names()
    }

    #[inline]
    fn load(payload: &[u8]) -> F {
        F::from_bits_retain(payload[0])
    }

    #[inline]
    fn len(_flags: &F) -> usize {
        2
    }

    #[inline]
    fn store(flags: &F, buffer: &mut [u8]) {
        emit_low(buffer, flags.bits());
    }
}
