//! Counts the attributes of a list, which checks whether it decodes.

ghost use Rattle.std.specs.Prelude.{◌≤◌, length, IfOk};
ghost use Rattle.link_base.specs.Table.{Gives};
ghost use Rattle.link_base.specs.Checked.{ListChecks};
ghost use Rattle.netlink_packet_route.specs.Family.{table_of};

use crate::by_family;
use crate::family::Family;
use link_base::{ListFault, check_list};

/// Checks whether `bytes` is a list of `family`, and returns the number of its values. Each attribute is one value.
/// Builds no values and does not allocate. [`is_canonical`](crate::is_canonical) checks for canonical form.
///
/// # Errors
///
/// The error and the offset that `read_list` returns in `ListError::Fault`. For an error in a nested list, the offset is
/// that of the attribute that holds the list.
#[inline(always)]
pub fn count_values(family: Family, bytes: &[u8]) -> Result<usize, ListFault>
    ensures answer { ListChecks (Gives (table_of family)) bytes.now result }
    ensures bounded { IfOk result (λ n. n ≤ length bytes.now) }
{
    by_family!(family, check_list(bytes))
}
