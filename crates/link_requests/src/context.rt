//! Which attribute set reads the list that a value announces.

ghost use Rattle.std.specs.Prelude.{◌≡◌};
ghost use Rattle.link_requests.specs.Opening.{kinds_of, set_at};

use netlink_packet_route::{Context, Family, opened};

/// Returns the set that reads the list of a value with this `nla_type`, in a list of a set, or in its nested lists of type `list`.
#[tactic(auto, using(crate::proofs::Readers::read_by))]
pub(crate) fn set_at(
    context: &Context<'_>,
    family: Family,
    list: Option<u16>,
    nla_type: u16,
) -> Option<Family>
    ensures { result ≡ set_at (kinds_of context.now) family list nla_type }
{
    opened(family, list, nla_type, context)
}
