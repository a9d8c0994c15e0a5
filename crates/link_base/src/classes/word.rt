//! Unsigned numbers as payloads: `u8`, `u16`, `u32` and `u64` are classes of payloads.

ghost use Rattle.std.specs.Prelude.{◌≡◌, ◌≤◌, ◌<◌, ℕ, length, reverse, refl};
ghost use Rattle.link_base.specs.Number.{number, bytes_of, bytes_be, bound};
ghost use Rattle.link_base.specs.Class.{accepted, Exactly, Number};
ghost use Rattle.link_base.specs.Answers.{read_as, payload_result, OverwritesFront};
ghost use Rattle.link_base.specs.Forms.{bytes_in};
ghost use Rattle.link_base.specs.declared.rows.form.Width.{Width};
ghost use Rattle.link_base.specs.declared.rows.form.Width.TheVariants as widths;
ghost use Rattle.link_base.specs.declared.rows.form.Order.TheVariants as orders;
ghost use Rattle.link_base.specs.declared.rows.form.Role.TheVariants as roles;
ghost use Rattle.link_base.specs.declared.rows.form.Form.TheVariants as forms;

use crate::classes::fixed_size::FixedSize;
use crate::classes::records::{u16_at, u32_at};
use crate::classes::scalars::{
    emit_u8, emit_u16, emit_u16_be, emit_u32, emit_u32_be, emit_u64, emit_u64_be, wrong_length,
};
use crate::rows::form::{Form, Order, Role, Width};
use crate::rows::label::Name;
use crate::wire::fault::DecodeError;
use bitflags::Bits;

/// An unsigned number of fixed width.
pub trait Word: Bits + Eq + Drop {
    /// The width.
    const WIDTH: Width;

    ghost WIDTH: { Width };

    /// The number that a value is.
    ghost value: { Self → ℕ };

    /// Parses a payload.
    ///
    /// # Errors
    ///
    /// `Payload(WrongLength)` if `payload.len()` is not `WIDTH`.
    #[inline]
    fn parse(payload: &[u8]) -> Result<Self, DecodeError>
        ensures { read_as Self.value result ≡ payload_result (accepted (Exactly (bytes_in Self.WIDTH)) number payload.now) }
    {
        let size = Self::WIDTH.size();
        if payload.len() == size {
            Ok(Self::from_bytes(payload))
        } else {
            Err(wrong_length(size, payload.len()))
        }
    }

    /// Parses a payload whose bytes are in network byte order.
    ///
    /// # Errors
    ///
    /// Those of `parse`.
    #[inline]
    fn parse_be(payload: &[u8]) -> Result<Self, DecodeError>
        ensures { read_as Self.value result
            ≡ payload_result (accepted (Exactly (bytes_in Self.WIDTH)) (λ p. number (reverse p)) payload.now) }
    {
        let size = Self::WIDTH.size();
        if payload.len() == size {
            Ok(Self::from_be_bytes(payload))
        } else {
            Err(wrong_length(size, payload.len()))
        }
    }

    /// Returns the number whose bytes these are: `bytes` must be exactly `WIDTH` bytes long.
    fn from_bytes(bytes: &[u8]) -> Self
        requires { length bytes.now ≡ bytes_in Self.WIDTH }
        ensures value { Self.value result ≡ number bytes.now }
        ensures octets { bytes_of (bytes_in Self.WIDTH) (Self.value result) ≡ bytes.now };

    /// Returns the number of these bytes in network byte order: `bytes` must be exactly `WIDTH` bytes long.
    fn from_be_bytes(bytes: &[u8]) -> Self
        requires { length bytes.now ≡ bytes_in Self.WIDTH }
        ensures value { Self.value result ≡ number (reverse bytes.now) }
        ensures octets { bytes_be (bytes_in Self.WIDTH) (Self.value result) ≡ bytes.now };

    /// Returns the number.
    fn number(self) -> u64
        ensures value { result ≡ Self.value self }
        ensures in_range { Self.value self < bound (bytes_in Self.WIDTH) };

    /// Writes the number to the start of `buffer`, which must be at least `WIDTH` bytes long.
    fn emit(self, buffer: &mut [u8])
        requires { bytes_in Self.WIDTH ≤ length buffer.old }
        ensures written { OverwritesFront buffer.old buffer.new (bytes_of (bytes_in Self.WIDTH) (Self.value self)) }
        ensures in_range { Self.value self < bound (bytes_in Self.WIDTH) };

    /// Writes the number to the start of `buffer` as `emit` does, but in network byte order.
    fn emit_be(self, buffer: &mut [u8])
        requires { bytes_in Self.WIDTH ≤ length buffer.old }
        ensures written { OverwritesFront buffer.old buffer.new (bytes_be (bytes_in Self.WIDTH) (Self.value self)) }
        ensures in_range { Self.value self < bound (bytes_in Self.WIDTH) };

    /// As the bits of a set of flags, a value is the same number.
    ghost by_bits: { (bits : Self) → value bits ≡ Self.Bits.pattern bits };
}

impl Word for u8 {
    const WIDTH: Width = Width::One;

    ghost WIDTH = { widths.One };

    ghost value = { λ n. n };

    #[inline]
    fn from_bytes(bytes: &[u8]) -> u8 {
        bytes[0]
    }

    #[inline]
    fn from_be_bytes(bytes: &[u8]) -> u8 {
        bytes[0]
    }

    #[inline]
    fn number(self) -> u64 {
        u64::from(self)
    }

    #[inline]
    fn emit(self, buffer: &mut [u8]) {
        emit_u8(buffer, self);
    }

    #[inline]
    fn emit_be(self, buffer: &mut [u8]) {
        emit_u8(buffer, self);
    }

    ghost by_bits = { λ _. refl };
}

impl Word for u16 {
    const WIDTH: Width = Width::Two;

    ghost WIDTH = { widths.Two };

    ghost value = { λ n. n };

    #[inline]
    fn from_bytes(bytes: &[u8]) -> u16 {
        u16_at(bytes, 0)
    }

    #[inline]
    fn from_be_bytes(bytes: &[u8]) -> u16 {
        u16::from_be_bytes([bytes[0], bytes[1]])
    }

    #[inline]
    fn number(self) -> u64 {
        u64::from(self)
    }

    #[inline]
    fn emit(self, buffer: &mut [u8]) {
        emit_u16(buffer, self);
    }

    #[inline]
    fn emit_be(self, buffer: &mut [u8]) {
        emit_u16_be(buffer, self);
    }

    ghost by_bits = { λ _. refl };
}

impl Word for u32 {
    const WIDTH: Width = Width::Four;

    ghost WIDTH = { widths.Four };

    ghost value = { λ n. n };

    #[inline]
    fn from_bytes(bytes: &[u8]) -> u32 {
        u32_at(bytes, 0)
    }

    #[inline]
    fn from_be_bytes(bytes: &[u8]) -> u32 {
        u32::from_be_bytes([bytes[0], bytes[1], bytes[2], bytes[3]])
    }

    #[inline]
    fn number(self) -> u64 {
        u64::from(self)
    }

    #[inline]
    fn emit(self, buffer: &mut [u8]) {
        emit_u32(buffer, self);
    }

    #[inline]
    fn emit_be(self, buffer: &mut [u8]) {
        emit_u32_be(buffer, self);
    }

    ghost by_bits = { λ _. refl };
}

impl Word for u64 {
    const WIDTH: Width = Width::Eight;

    ghost WIDTH = { widths.Eight };

    ghost value = { λ n. n };

    #[inline]
    fn from_bytes(bytes: &[u8]) -> u64 {
        u64::from_le_bytes([
            bytes[0], bytes[1], bytes[2], bytes[3], bytes[4], bytes[5], bytes[6], bytes[7],
        ])
    }

    #[inline]
    fn from_be_bytes(bytes: &[u8]) -> u64 {
        u64::from_be_bytes([
            bytes[0], bytes[1], bytes[2], bytes[3], bytes[4], bytes[5], bytes[6], bytes[7],
        ])
    }

    #[inline]
    fn number(self) -> u64 {
        self
    }

    #[inline]
    fn emit(self, buffer: &mut [u8]) {
        emit_u64(buffer, self);
    }

    #[inline]
    fn emit_be(self, buffer: &mut [u8]) {
        emit_u64_be(buffer, self);
    }

    ghost by_bits = { λ _. refl };
}

impl<W: Word> FixedSize for W {
    type Value = W;

    const FORM: Form = Form::Number {
        width: W::WIDTH,
        order: Order::Little,
        role: Role::Plain,
    };

    ghost FORM = { forms.Number W.WIDTH orders.Little roles.Plain };

    ghost fixed = { refl };

    ghost means = { λ value. Number (bytes_in W.WIDTH) (W.value value) };

    #[inline]
    fn names() -> &'static [Name] {
        &[]
    }

    #[inline]
    fn load(payload: &[u8]) -> W {
        W::from_bytes(payload)
    }

    #[inline]
    #[tactic(auto, using(crate::proofs::Numbers::bytes_len))]
    fn len(_value: &W) -> usize {
        W::WIDTH.size()
    }

    #[inline]
    #[tactic(auto, using(crate::proofs::Numbers::bytes_len))]
    fn store(value: &W, buffer: &mut [u8]) {
        value.emit(buffer);
    }
}
