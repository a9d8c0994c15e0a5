//! A comparison of what the library returns with what a test expects. It returns true only if the model says the same.

ghost use Rattle.std.specs.Prelude.{IsTrue, MatchOption};
ghost use Rattle.netlink_packet_route.specs.Family.{table_of};
ghost use Rattle.link_base.specs.Table.{Canonical, FirstNotCanonical};

use netlink_packet_route::{Family, first_not_canonical, is_canonical};

/// Checks whether the first attribute that is not canonical in a list of `family` is at the offset `wanted`; if that is
/// `None`, whether the list is canonical.
pub fn is_judged(family: Family, list: &[u8], wanted: Option<usize>) -> bool
    ensures { IsTrue result → MatchOption wanted (Canonical (table_of family) list.now)
        (λ at. FirstNotCanonical (table_of family) list.now at) }
{
    first_not_canonical(family, list) == wanted && is_canonical(family, list) == wanted.is_none()
}
