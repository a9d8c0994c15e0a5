//! Parsing of attribute lists.

ghost use Rattle.std.specs.Prelude.{◌≡◌, map, None};
ghost use Rattle.link_base.specs.Frame.{frame_fault};
ghost use Rattle.link_base.specs.Table.{Gives, Decodes};
ghost use Rattle.link_base.specs.Answers.{ListAnswers, ListFaultUnless, OnListMemory};

use crate::rows::attribute::Attribute;
use crate::wire::fault::{DecodeError, DecodeFault, ListError};
use crate::wire::frame_table::FrameTable;
use std::alloc::Global;

/// Parses an attribute list.
///
/// # Errors
/// `Fault` if and only if the input does not decode, unless an allocation fails: the first error in the list and the
/// byte offset of its attribute. Errors are ordered by offset, whether the attribute's header or its payload is
/// malformed. `Memory` if an allocation fails, which is possible only if the list starts with a whole attribute.
pub fn read_list<F: Attribute>(alloc: Global, bytes: &[u8]) -> Result<Vec<F>, ListError>
    ensures answer { ListAnswers (λ vs. map F.means vs.items) result (Gives F.table) bytes.now }
    ensures fault { ListFaultUnless result (Decodes F.table bytes.now) }
    ensures memory { OnListMemory result (frame_fault bytes.now ≡ None) }
{
    let mut table = FrameTable::before_walk(alloc, bytes);
    if let Err(error) = table.find_frames() {
        return Err(ListError::Memory(error));
    }
    let mut values = match Vec::with_capacity(alloc, table.len()) {
        Ok(values) => values,
        Err(error) => return Err(ListError::Memory(error)),
    };
    for i in 0..table.len() {
        if let Err(error) = F::parse_into(alloc, &table.frame(i), &mut values) {
            return Err(error.at(table.offset(i)));
        }
    }
    match table.fault() {
        Some((at, cause)) => Err(DecodeError::Fault(DecodeFault::Frame(cause)).at(at)),
        None => Ok(values),
    }
}
