//! Buffers padded with zeros.

ghost use Rattle.std.specs.Prelude.{◌≡◌, ◌++◌, ◌-◌, length, replicate, IfOk};

use std::alloc::{AllocError, Global};

/// Returns the bytes of `got`, padded with zeros up to `size` bytes if there are fewer. This completes a struct from a
/// kernel that is older than the parser.
///
/// # Errors
///
/// `AllocError` if an allocation fails.
pub fn expand_buffer_if_small(alloc: Global, got: &[u8], size: usize) -> Result<Vec<u8>, AllocError>
    ensures { IfOk result (λ bytes. bytes.items ≡ got.now ++ replicate (size - length got.now) 0) }
{
    let mut bytes = Vec::with_capacity(alloc, got.len().max(size))?;
    bytes.extend_from_slice(got)?;
    bytes.resize(got.len().max(size), 0)?;
    Ok(bytes)
}
