//! Arrays of numbers: payloads of any number of them, and fields of structs that are written.

ghost use Rattle.std.specs.Int.{w32, cast_unsigned};
ghost use Rattle.std.specs.Prelude.{◌≡◌, ℕ, ◌<◌, ◌≤◌, ◌*◌, ◌%◌, length, map, IfOk};
ghost use Rattle.link_base.specs.Number.{number, bytes_of};
ghost use Rattle.link_base.specs.declared.rows.form.ArrayOf.{ArrayOf};
ghost use Rattle.link_base.specs.declared.rows.form.ArrayOf.TheVariants as arrays;
ghost use Rattle.link_base.specs.Class.{accepted, Multiple};
ghost use Rattle.link_base.specs.Forms.{size_in};
ghost use Rattle.link_base.specs.Layout.{numbers_of, octets_by};
ghost use Rattle.link_base.specs.Held.{IsOctets};
ghost use Rattle.link_base.specs.Answers.{PayloadAnswers, OnMemory, OverwritesFront, capped};

use crate::classes::records::{check_multiple, u16_at, u32_at};
use crate::classes::scalars::{emit_u16, emit_u32, emit_u64};
use crate::classes::word::Word;
use crate::rows::form::ArrayOf;
use crate::wire::fault::DecodeError;
use std::alloc::Global;

/// A number of which arrays are payloads: `Vec<u16>`, `Vec<u32>`, `Vec<u64>` and `Vec<i32>` are classes. Those of `u8`
/// are bytes.
pub trait ArrayWord: Copy + Eq + Drop {
    /// Which number it is.
    const OF: ArrayOf;

    ghost OF: { ArrayOf };

    /// The unsigned number of the same bytes.
    ghost value: { Self → ℕ };

    /// Returns the number whose bytes these are: `bytes` must be exactly as many as `OF` has.
    fn from_bytes(bytes: &[u8]) -> Self
        requires { length bytes.now ≡ size_in Self.OF }
        ensures value { Self.value result ≡ number bytes.now }
        ensures octets { bytes_of (size_in Self.OF) (Self.value result) ≡ bytes.now };

    /// Writes the number to the start of `buffer`, which must be at least as long.
    fn emit(self, buffer: &mut [u8])
        requires { size_in Self.OF ≤ length buffer.old }
        ensures { OverwritesFront buffer.old buffer.new (bytes_of (size_in Self.OF) (Self.value self)) };
}

impl ArrayWord for u16 {
    const OF: ArrayOf = ArrayOf::U16;

    ghost OF = { arrays.U16 };

    ghost value = { λ n. n };

    #[inline]
    fn from_bytes(bytes: &[u8]) -> u16 {
        u16_at(bytes, 0)
    }

    #[inline]
    fn emit(self, buffer: &mut [u8]) {
        emit_u16(buffer, self);
    }
}

impl ArrayWord for u32 {
    const OF: ArrayOf = ArrayOf::U32;

    ghost OF = { arrays.U32 };

    ghost value = { λ n. n };

    #[inline]
    fn from_bytes(bytes: &[u8]) -> u32 {
        u32_at(bytes, 0)
    }

    #[inline]
    fn emit(self, buffer: &mut [u8]) {
        emit_u32(buffer, self);
    }
}

impl ArrayWord for u64 {
    const OF: ArrayOf = ArrayOf::U64;

    ghost OF = { arrays.U64 };

    ghost value = { λ n. n };

    #[inline]
    fn from_bytes(bytes: &[u8]) -> u64 {
        <u64 as Word>::from_bytes(bytes)
    }

    #[inline]
    fn emit(self, buffer: &mut [u8]) {
        emit_u64(buffer, self);
    }
}

impl ArrayWord for i32 {
    const OF: ArrayOf = ArrayOf::I32;

    ghost OF = { arrays.I32 };

    ghost value = { λ z. cast_unsigned w32 z };

    #[inline]
    fn from_bytes(bytes: &[u8]) -> i32 {
        u32_at(bytes, 0).cast_signed()
    }

    #[inline]
    fn emit(self, buffer: &mut [u8]) {
        emit_u32(buffer, self.cast_unsigned());
    }
}

/// Parses an array of little-endian numbers.
///
/// # Errors
///
/// `Payload(WrongLength)` if `payload.len()` is not a multiple of their width. `Memory` if an allocation fails, which is
/// possible only if it is one, and not 0.
pub fn parse_numbers<W: ArrayWord>(alloc: Global, payload: &[u8]) -> Result<Vec<W>, DecodeError>
    ensures value { PayloadAnswers (λ vs. map W.value vs.items) result
        (accepted (Multiple (size_in W.OF)) (numbers_of (size_in W.OF)) payload.now) }
    ensures octets { IfOk result (λ vs. octets_by (size_in W.OF) W.value vs.items ≡ payload.now) }
    ensures memory { OnMemory result ((0 < length payload.now) × (length payload.now % size_in W.OF ≡ 0)) }
{
    let size = W::OF.size();
    check_multiple(payload, size)?;
    let count = payload.len() / size;
    let mut numbers = Vec::with_capacity(alloc, count).map_err(DecodeError::Memory)?;
    for i in 0..count {
        let at = size * i;
        numbers.push_reserved(W::from_bytes(&payload[at..at + size]));
    }
    Ok(numbers)
}

/// Returns the length of the written numbers in bytes; saturates at `usize::MAX`.
#[inline]
pub fn numbers_len<W: ArrayWord>(numbers: &[W]) -> usize
    ensures { result ≡ capped (length (octets_by (size_in W.OF) W.value numbers.now)) }
{
    numbers.len().saturating_mul(W::OF.size())
}

/// Writes consecutive little-endian numbers to the start of `buffer`; the rest is unchanged. `buffer` must be at least
/// as long as the numbers.
pub fn emit_numbers<W: ArrayWord>(buffer: &mut [u8], numbers: &[W])
    requires { size_in W.OF * length numbers.now ≤ length buffer.old }
    ensures written { OverwritesFront buffer.old buffer.new (octets_by (size_in W.OF) W.value numbers.now) }
    ensures octets { IsOctets (size_in W.OF * length numbers.now) (octets_by (size_in W.OF) W.value numbers.now) }
{
    let mut at = 0usize;
    for number in numbers {
        (*number).emit(&mut buffer[at..]);
        at += W::OF.size();
    }
}
