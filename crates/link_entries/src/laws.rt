//! Theorems about entries. The functions have empty bodies; each states its theorem as its contract.

ghost use Rattle.std.specs.Prelude.{◌≡◌, ◌↔◌, ℕ, ◌∷◌, List, Option, Some, Ok, IsTrue, length};
ghost use Rattle.std.specs.List.{AllZip, AllByRecursion};
ghost use Rattle.link_base.specs.Number.{IsBytes};
ghost use Rattle.link_base.specs.Table.{Table, Decodes, Rewriting};
ghost use Rattle.link_messages.specs.Walk.{Item};
ghost use Rattle.netlink_packet_route.specs.declared.family.Family.{Family};
ghost use Rattle.netlink_packet_route.specs.Family.{table_of};
ghost use Rattle.link_entries.specs.declared.entry.Entry.{Entry};
ghost use Rattle.link_entries.specs.declared.fields.Fields.{Fields};
ghost use Rattle.link_entries.specs.declared.misfit.Misfit.{Misfit};
ghost use Rattle.link_entries.specs.declared.misfit.MisfitAt.{MisfitAt};
ghost use Rattle.link_entries.specs.Flat.{Flat, IsGroup};
ghost use Rattle.link_entries.specs.Finding.{Finds, last_entry, last_inner, IsElementFound};
ghost use Rattle.link_entries.specs.Payload.{payload_of};
ghost use Rattle.link_entries.specs.Order.{misfit_in, first_misfit};
ghost use Rattle.link_entries.specs.Encoded.{encoded_by};
ghost use Rattle.link_entries.specs.Agreement.{IsEntry, Agrees};

use crate::misfit::{Misfit, MisfitAt};

/// A list has one array of entries only.
pub fn one_flat()
    ensures { (table : Table) (list : List ℕ) (es others : List Entry) → Flat table list es → Flat table list others
        → es ≡ others }
{}

/// [`find`](crate::find) finds the last entry of an attribute of the type that [`flatten`](crate::flatten) stores.
pub fn find_in_flat()
    ensures { (table : Table) (kind : ℕ) (list : List ℕ) (found : Option Entry) (es : List Entry)
        → Finds table kind list (Ok found) → Flat table list es → found ≡ last_entry kind es }
{}

/// [`find_in`](crate::find_in) finds the last element of the type or index among the entries of the attribute that
/// [`flatten`](crate::flatten) stores.
pub fn find_in_group()
    ensures { (table : Table) (x : Item) (inner : ℕ) (found : Option Entry) (e : Entry) (es : List Entry)
        → IsElementFound table (Some x) inner found → IsGroup table x (e ∷ es) → found ≡ last_inner inner es }
{}

/// For the entries of a list and its bytes, [`write`](crate::write) writes what
/// [`rewrite`](netlink_packet_route::rewrite) returns for the list.
pub fn written_back()
    ensures { (family : Family) (list written : List ℕ) (es : List Entry) → IsBytes list → Flat (table_of family) list es
        → Rewriting (table_of family) list written → encoded_by (table_of family) list es ≡ Ok written }
{}

/// What [`write`](crate::write) writes decodes. Entries have sixteen octets, as the type has.
#[tactic(auto, using(crate::proofs::WrittenDecodes::encoded_decodes, netlink_packet_route::proofs::Families::families_formed))]
pub fn written_decodes()
    ensures { (family : Family) (octets written : List ℕ) (es : List Entry) → AllByRecursion (λ e. length e.octets ≡ 16) es
        → encoded_by (table_of family) octets es ≡ Ok written → Decodes (table_of family) written }
{}

/// The entries of what [`write`](crate::write) writes are the entries that it was passed, one by one: the same types,
/// depths, forms and contents. Not stated: offsets, lengths where no bytes are referred to, the number of a list, and the
/// indexes of addresses and numbers.
#[tactic(auto, using(crate::proofs::AgreeLists::written_agrees, netlink_packet_route::proofs::Families::families_formed))]
pub fn written_read()
    ensures { (family : Family) (octets written : List ℕ) (es read : List Entry) → AllByRecursion IsEntry es
        → encoded_by (table_of family) octets es ≡ Ok written → Flat (table_of family) written read
        → AllZip (Agrees (table_of family) octets written) es read }
{}

/// Of several errors of an entry, without its elements, the first is returned of `BadForm`, `BadNumber`, `BadOctets` and
/// `TooLong`.
#[tactic(auto, using(crate::proofs::CheckOrder::in_order))]
pub fn first_misfits()
    ensures { (own : Fields) (e : Entry) (octets : List ℕ)
        → misfit_in (payload_of own e octets) ≡ first_misfit own e octets }
{}

/// Two values of `Misfit`, or of `MisfitAt`, are equal (`==`) if and only if they are identical.
pub fn misfit_equality()
    ensures misfit { (a b : Misfit) → IsTrue (⟦<Misfit as PartialEq>⟧.eq a b) ↔ (a ≡ b) }
    ensures at { (a b : MisfitAt) → IsTrue (⟦<MisfitAt as PartialEq>⟧.eq a b) ↔ (a ≡ b) }
{}
