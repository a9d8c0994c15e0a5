//! Attributes whose payload is a list of another set.

ghost use Rattle.std.specs.Prelude.{◌≡◌, ◌<◌, IfSome};
ghost use Rattle.netlink_packet_route.specs.Opening.{holding_at, IsOpened};
ghost use Rattle.link_messages.specs.Held.{may_hold, Answers};

use link_base::rows::form::Look;
use link_base::views::content::Content;
use netlink_packet_route::{Context, Family, opened};

/// How many levels of lists are opened below a list. A message has four that the kernel reads
/// (`include/uapi/linux/if_link.h`): the `IFLA_INFO_DATA` of a veth holds a list, the peer in that one, an `IFLA_AF_SPEC` of
/// the peer one, and an `AF_INET6` of that one.
pub const MOST_LEVELS: usize = 6;

/// Returns the set that reads the list in an attribute, such as an `IFLA_INFO_DATA` or an `IFLA_AF_SPEC`
/// (`include/uapi/linux/if_link.h`), if `depth` levels of lists may still be opened. `None` if none does, or if the content is
/// no bytes of a list; those of a peer are one behind a header, but not in a nested list, where no set has a peer; those of an
/// attribute without a row may be one, as in an `IFLA_PROTINFO`. The other arguments are those of [`opened`].
pub fn opened_at(
    depth: usize,
    context: &Context<'_>,
    family: Family,
    list: Option<u16>,
    nla_type: u16,
    content: Content<'_>,
) -> Option<Family>
    ensures answer { Answers depth list (IsOpened (holding_at context.now family list nla_type)) content.entry result }
    ensures depth { IfSome result (λ _. 0 < depth) }
{
    let may = (depth > 0) & may_hold(list, content);
    if !may {
        return None;
    }
    opened(family, list, nla_type, context)
}

/// Checks whether a content may be the list of another set. `list` is that of `opened_at`.
fn may_hold(list: Option<u16>, content: Content<'_>) -> bool
    ensures { result ≡ may_hold list content.entry }
{
    match content {
        Content::Bytes {
            look: Look::Held,
            ..
        }
        | Content::Other(_) => true,
        Content::Bytes {
            look: Look::Peer,
            ..
        } => list.is_none(),
        _ => false,
    }
}
