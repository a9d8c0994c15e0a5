//! Serialization of attribute lists.

ghost use Rattle.std.specs.Prelude.{◌≡◌, ◌≤◌, ◌<◌, ◌↔◌, IsTrue, OnOk, length, map, MatchResult};
ghost use Rattle.std.specs.List.{AllByRecursion};
ghost use Rattle.link_base.specs.Table.{Fits, written_list};
ghost use Rattle.link_base.specs.Held.{IsInRange};
ghost use Rattle.link_base.specs.Answers.{capped, OverwritesFront, IsMeasured, IsFirstUnfit, WriteAnswers};

use crate::rows::attribute::{Attribute, MAX_PAYLOAD};
use crate::wire::fault::{TooLong, WriteError};
use crate::wire::padding::total_size;
use std::alloc::{AllocError, Global};

/// Returns the length of the written list in bytes, the sum of `buffer_len`; saturates at `usize::MAX`.
pub fn list_len<F: Attribute>(values: &[F]) -> usize
    ensures { result ≡ capped (length (written_list (map F.means values.now))) }
{
    let mut len = 0usize;
    for value in values {
        len = len.saturating_add(value.buffer_len());
    }
    len
}

/// Checks whether every value fits; true for an empty list.
#[tactic(auto, using(crate::proofs::Emit::not_all_fit))]
pub fn list_fits<F: Attribute>(values: &[F]) -> bool
    ensures { IsTrue result ↔ AllByRecursion Fits (map F.means values.now) }
{
    measure_list(values).is_ok()
}

/// Returns the length of the written list in bytes, as `list_len` does.
///
/// # Errors
///
/// `TooLong` with the index of the first value that does not fit.
pub fn measure_list<F: Attribute>(values: &[F]) -> Result<usize, TooLong>
    ensures { MatchResult result (IsMeasured (map F.means values.now))
        (λ first. IsFirstUnfit (map F.means values.now) first.index) }
{
    let mut len = 0usize;
    for (i, value) in values.iter().enumerate() {
        let size = value.value_len();
        if size > MAX_PAYLOAD {
            return Err(TooLong { index: i });
        }
        len = len.saturating_add(total_size(size));
    }
    Ok(len)
}

/// Writes the list to the start of `buffer`; the rest of the buffer is unchanged. `buffer` must be at least
/// `list_len(values)` bytes long, and every value must fit.
#[inline(always)]
pub fn emit_list<F: Attribute>(values: &[F], buffer: &mut [u8])
    requires fits { AllByRecursion Fits (map F.means values.now) }
    requires room { length (written_list (map F.means values.now)) ≤ length buffer.old }
    ensures written { OverwritesFront buffer.old buffer.new (written_list (map F.means values.now)) }
    ensures in_range { AllByRecursion (IsInRange F.table) (map F.means values.now) }
{
    let mut at = 0usize;
    for value in values {
        let size = value.value_len();
        value.emit_sized(size, &mut buffer[at..]);
        at += total_size(size);
    }
}

/// Returns the written list.
///
/// # Errors
///
/// `TooLong` with the index of the first value that does not fit. `Memory` if an allocation fails, or if the list would
/// have `usize::MAX` bytes or more; this is possible only if every value fits and the list is not empty.
pub fn write_list<F: Attribute>(alloc: Global, values: &[F]) -> Result<Vec<u8>, WriteError>
    ensures answer { WriteAnswers (map F.means values.now) result }
    ensures in_range { OnOk result (AllByRecursion (IsInRange F.table) (map F.means values.now)) }
{
    let len = measure_list(values)?;
    if values.is_empty() {
        return Ok(Vec::new(alloc));
    }
    if len == usize::MAX {
        return Err(WriteError::Memory(AllocError));
    }
    let mut out = vec![in alloc; 0u8; len].map_err(WriteError::Memory)?;
    emit_list(values, &mut out);
    Ok(out)
}
