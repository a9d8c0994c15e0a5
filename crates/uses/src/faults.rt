//! Finds the first error of a list and its offset.

ghost use Rattle.std.specs.Prelude.{◌≡◌, None, List, map, take, IfOk, OnErr, MatchOption};
ghost use Rattle.netlink_packet_route.specs.Frame.{frame_fault};
ghost use Rattle.netlink_packet_route.specs.Table.{AttrValue, Gives};
ghost use Rattle.netlink_packet_route.specs.Wire.{Wire, FirstFault};

use netlink_packet_route::link::{Attribute, DecodeFault, ListError, read_list};
use std::alloc::{AllocError, Global};

/// Returns the byte offset of the first decode error of a list, or `None` if the list decodes. Works for every
/// attribute set.
///
/// # Errors
///
/// `AllocError` if an allocation fails, which is possible only if the list starts with a whole attribute.
pub fn first_fault<F: Attribute>(alloc: Global, bytes: &[u8]) -> Result<Option<usize>, AllocError>
    ensures found { IfOk result (λ found. MatchOption found
        ((vs : List AttrValue) × Wire (Gives F.table) bytes.now vs)
        (λ at. (fault : DecodeFault) × FirstFault (Gives F.table) bytes.now at fault)) }
    ensures memory { OnErr result (frame_fault bytes.now ≡ None) }
{
    match read_list::<F>(alloc, bytes) {
        Ok(_) => Ok(None),
        Err(ListError::Fault { at, .. }) => Ok(Some(at)),
        Err(ListError::Memory(error)) => Err(error),
    }
}

/// Parses a list up to its first decode error. Returns the values before the error, and the error with its byte offset,
/// or `None` if the list has no error.
///
/// # Errors
///
/// `AllocError` if an allocation fails, which is possible only if the list starts with a whole attribute.
pub fn read_front<F: Attribute>(
    alloc: Global,
    bytes: &[u8],
) -> Result<(Vec<F>, Option<(usize, DecodeFault)>), AllocError>
    ensures front { IfOk result (λ read. MatchOption read.1
        (Wire (Gives F.table) bytes.now (map F.means read.0.items))
        (λ fault. FirstFault (Gives F.table) bytes.now fault.0 fault.1
        × Wire (Gives F.table) (take fault.0 bytes.now) (map F.means read.0.items))) }
    ensures memory { OnErr result (frame_fault bytes.now ≡ None) }
{
    match read_list(alloc, bytes) {
        Ok(values) => Ok((values, None)),
        Err(ListError::Memory(error)) => Err(error),
        Err(ListError::Fault { at, fault }) => {
            let (front, _) = bytes.split_at(at);
            match read_list(alloc, front) {
                Ok(values) => Ok((values, Some((at, fault)))),
                // The bytes before the first error decode, so an allocation failed.
                Err(_) => Err(AllocError),
            }
        }
    }
}
