//! Checks whether a list is canonical.

ghost use Rattle.std.specs.Prelude.{◌↔◌, IsTrue, MatchOption};
ghost use Rattle.link_base.specs.Table.{Canonical, FirstNotCanonical};
ghost use Rattle.netlink_packet_route.specs.Family.{table_of};

use crate::by_family;
use crate::family::Family;
use link_base::{first_not_canonical as first_in_list, list_is_canonical};

/// Checks whether `bytes` is a canonical list of `family`, that is, whether [`rewrite`](crate::rewrite) returns the
/// same bytes. Builds no values and does not allocate.
pub fn is_canonical(family: Family, bytes: &[u8]) -> bool
    ensures { IsTrue result ↔ Canonical (table_of family) bytes.now }
{
    by_family!(family, list_is_canonical(bytes))
}

/// Returns the byte offset of the first attribute that is not canonical; bytes that are not an attribute count as one.
/// Everything before that offset is canonical. Returns `None` if the whole list is canonical. Builds no values and does
/// not allocate.
pub fn first_not_canonical(family: Family, bytes: &[u8]) -> Option<usize>
    ensures { MatchOption result (Canonical (table_of family) bytes.now)
        (λ at. FirstNotCanonical (table_of family) bytes.now at) }
{
    by_family!(family, first_in_list(bytes))
}
