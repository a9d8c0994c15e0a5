//! Theorems about the types and functions of this crate. The functions have empty bodies.

ghost use Rattle.std.specs.Prelude.{◌≡◌, ◌↔◌, ℕ, List, IsTrue};
ghost use Rattle.std.specs.Option.{option_copied};
ghost use Rattle.link_base.specs.Table.{Canonical, Rewriting};
ghost use Rattle.netlink_packet_route.specs.Family.{table_of, holding_of};
ghost use Rattle.netlink_packet_route.specs.Rewrite.{Converges};
ghost use Rattle.netlink_packet_route.specs.declared.family.Family.{Family};
ghost use Rattle.netlink_packet_route.specs.declared.family.Holder.{Holder};
ghost use Rattle.netlink_packet_route.specs.declared.hex_text.HexError.{HexError};
ghost use Rattle.netlink_packet_route.specs.declared.opening.Context.{Context};

use crate::family::{Family, Holder};
use crate::hex_text::HexError;
use crate::opening::Context;

/// States that `==` on `Family` and on `HexError` returns true if and only if its arguments are the same value, and `==`
/// on `Holder` if and only if its arguments are the same variant with the same text or attribute type; and on `Context` if
/// and only if its arguments have the same address family and the same texts of the kinds.
pub fn equality()
    ensures family { (a b : Family) → IsTrue (⟦<Family as PartialEq>⟧.eq a b) ↔ (a ≡ b) }
    ensures holder { (a b : Holder) → IsTrue (⟦<Holder<'static> as PartialEq>⟧.eq a b)
        ↔ (holding_of a ≡ holding_of b) }
    ensures hex { (a b : HexError) → IsTrue (⟦<HexError as PartialEq>⟧.eq a b) ↔ (a ≡ b) }
    ensures context { (a b : Context) → IsTrue (⟦<Context<'static> as PartialEq>⟧.eq a b)
        ↔ ((a.address_family ≡ b.address_family) × (option_copied a.info_kind ≡ option_copied b.info_kind)
        × (option_copied a.port_kind ≡ option_copied b.port_kind)) }
{}

/// States that re-encoding `t` gives a canonical list if `t` is the output of [`rewrite`](crate::rewrite) (or satisfies
/// `Converges`, as that output does).
pub fn second_rewriting()
    ensures { (family : Family) (t u : List ℕ) → Converges (table_of family) t → Rewriting (table_of family) t u
        → Canonical (table_of family) u }
{}
