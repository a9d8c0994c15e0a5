//! Lists from arrays of entries.

ghost use Rattle.std.specs.Prelude.{◌≡◌};
ghost use Rattle.netlink_packet_route.specs.Family.{table_of};
ghost use Rattle.link_entries.specs.Encoded.{encoded_by, measured, Stores};

use crate::encoding::{begins_well, encode};
use crate::entry::Entry;
use crate::misfit::{Misfit, MisfitAt};
use netlink_packet_route::Family;

/// Returns the length of the list that `write` writes, in bytes; saturates at `usize::MAX`. Nothing is allocated.
///
/// # Errors
///
/// The first entry that cannot be written.
pub fn measure(family: Family, entries: &[Entry], octets: &[u8]) -> Result<usize, MisfitAt>
    ensures { result ≡ measured (encoded_by (table_of family) octets.now entries.now) }
{
    if !begins_well(entries) {
        return Err(MisfitAt {
            index: 0,
            misfit: Misfit::BadElement,
        });
    }
    encode(family, entries, octets, &mut [])
}

/// Writes entries as a list to the start of `out`. Entries may refer to `octets`. Returns the number of bytes
/// written, or `None` if `out` is too small. Nothing is allocated.
///
/// # Errors
///
/// The first entry that cannot be written. `out` is unchanged unless the result is `Ok(Some(n))`; then `out[n..]` is.
pub fn write(
    family: Family,
    entries: &[Entry],
    octets: &[u8],
    out: &mut [u8],
) -> Result<Option<usize>, MisfitAt>
    ensures { Stores (encoded_by (table_of family) octets.now entries.now) out.old out.new result }
{
    // Before anything is stored: `out` is unchanged if an entry cannot be written.
    match measure(family, entries, octets) {
        Ok(len) if len > out.len() => Ok(None),
        Ok(_) => match encode(family, entries, octets, out) {
            Ok(len) => Ok(Some(len)),
            Err(first) => Err(first),
        },
        Err(first) => Err(first),
    }
}
