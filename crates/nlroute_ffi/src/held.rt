//! The list of an attribute set in the attributes of a message.

ghost use Rattle.std.specs.Prelude.{◌≡◌, List, [], ◌∷◌, drop, None, IfOk, OnErr};
ghost use Rattle.netlink_packet_route.specs.declared.family.Family.TheVariants.{Link};
ghost use Rattle.link_messages.specs.Finding.{stretch_of};
ghost use Rattle.link_messages.specs.Held.{context_of, levels};
ghost use Rattle.link_messages.specs.Lists.{Listed, held_list, lists_only, HasLists};
ghost use Rattle.nlroute_ffi.specs.Held.{last_list, HeldAnswers};
ghost use Rattle.nlroute_ffi.specs.Search.{Keeps, keeps_none, keeps_both, any_list, always_reached};

use crate::refusal::Refusal;
use link_base::views::content::Known;
use link_base::{DecodeFault, NlaBuffer};
use link_messages::{HeldList, ListVisitor, MOST_LEVELS, Payload, visit_list};
use netlink_packet_route::{Context, Family};
use std::convert::Infallible;

/// Bytes of an input: `struct nlroute_range` of the header.
#[repr(C)]
#[derive(Clone, Copy)]
pub struct ByteRange {
    /// Offset of the first, in bytes.
    pub offset: u64,
    /// Their number.
    pub length: u64,
}

/// Stores where the last list of `family` is, of those that the attributes in `list` hold, and those in these, and returns 0.
/// `list` has the attributes of a message of this address family.
///
/// # Errors
///
/// `Absent` if there is none. Then `held` is unchanged.
pub(crate) fn store_held(
    family: Family,
    address_family: u8,
    list: &[u8],
    held: &mut ByteRange,
) -> Result<usize, Refusal>
    ensures answer { HeldAnswers address_family list.now held.new family result }
    ensures zero { IfOk result (λ n. n ≡ 0) }
    ensures unchanged { OnErr result (held.new ≡ held.old) }
{
    match last_held(family, address_family, list) {
        Some(found) => {
            *held = found;
            Ok(0)
        }
        None => Err(Refusal::Absent),
    }
}

/// Returns where the last list of `wanted` is, of those that the attributes in `list` hold, and those in these.
fn last_held(wanted: Family, address_family: u8, list: &[u8]) -> Option<ByteRange>
    ensures { (lists : List Listed) × HasLists levels (context_of address_family) Link (0, list.now) lists
        × (result ≡ last_list wanted None (drop 1 lists)) }
{
    let mut search = Search {
        wanted,
        found: None,
    };
    let Ok(_) = visit_list(
        &ListKeeper,
        &mut search,
        MOST_LEVELS,
        &Context::of_message(address_family),
        0,
        Family::Link,
        Payload { at: 0, bytes: list },
    );
    search.found
}

/// The search for the last list of a set.
#[derive(Drop)]
struct Search {
    wanted: Family,
    found: Option<ByteRange>,
}

/// Keeps the lists of the set that a search is for.
struct ListKeeper;

impl ListVisitor<Search> for ListKeeper {
    type Error = Infallible;

    ghost Piece = { Listed };

    ghost display = { λ v. lists_only };

    ghost adds = { λ old new lists. Keeps old new lists };

    ghost begins = { λ v level h old new. Keeps old new (held_list h.set h.list) };

    ghost reaches = { λ v list. any_list list };

    fn omits(&self, _context: &Context<'_>, _family: Family, _kind: u16) -> bool {
        false
    }

    fn error(
        &self,
        _search: &mut Search,
        _level: u8,
        _family: Family,
        _at: usize,
        _fault: DecodeFault,
    ) -> Result<(), Infallible> {
        Ok(())
    }

    fn leaf(
        &self,
        _search: &mut Search,
        _context: &Context<'_>,
        _level: u8,
        _family: Family,
        _list: Option<u16>,
        _known: &Known<'_>,
        _buffer: NlaBuffer<'_>,
    ) -> Result<(), Infallible> {
        Ok(())
    }

    fn begin(
        &self,
        search: &mut Search,
        _level: u8,
        held: &HeldList<'_>,
    ) -> Result<(), Infallible> {
        if let Some(set) = held.set {
            keep(search, set, held.list);
        }
        Ok(())
    }

    fn end(
        &self,
        _search: &mut Search,
        _level: u8,
        _held: &HeldList<'_>,
        whole: bool,
    ) -> Result<bool, Infallible> {
        Ok(whole)
    }

    ghost none = { λ a. keeps_none a };

    ghost both = { λ a b c s t. keeps_both a b c s t };

    ghost part = { λ v list inner h is. always_reached inner };
}

/// Keeps a list, if it is of the set that the search is for.
fn keep(search: &mut Search, set: Family, list: Payload<'_>)
    ensures { Keeps search.old search.new ((set, stretch_of list.entry) ∷ []) }
{
    if set.number() == search.wanted.number() {
        search.found = Some(ByteRange {
            offset: list.at as u64,
            length: list.bytes.len() as u64,
        });
    }
}
