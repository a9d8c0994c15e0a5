//! Theorems about enums for named numbers, and about VLAN protocols. The functions have empty bodies; each states its
//! theorem as its contract.

ghost use Rattle.std.specs.Prelude.{◌≡◌, ◌≢◌, ℕ, ◌<◌, ◌^◌, ◌↔◌, IsTrue, List, Result, Ok};
ghost use Rattle.link_base.specs.Class as class;
ghost use Rattle.link_base.specs.Named.{Listed, Bare, NoText, TextOrNumber, numbers_of, value_of, number_of, seen_of};
ghost use Rattle.link_base.specs.Named.{seen_value, seen_canon, text_of, displayed, HasLabel, Accepts, ReadsText};
ghost use Rattle.link_base.specs.declared.wire.fault.DecodeError.{DecodeError};
ghost use Rattle.link_base.specs.Protocol.{vlan_protocols, protocol_number};
ghost use Rattle.link_base.specs.declared.names.vlan_protocol.VlanProtocol.{VlanProtocol};
ghost use Rattle.link_base.specs.declared.names.vlan_protocol.VlanProtocol.TheVariants.{Ieee8021Q};

use crate::names::named::NamedNumber;
use crate::names::vlan_protocol::VlanProtocol;

// ---- numbers

/// The value for a number holds that number: it is the named variant if the number has a name, and `Other` if not.
pub fn number_back<T: NamedNumber>()
    ensures number { (d : ℕ) → number_of (T.seen (value_of T.names d)) ≡ d }
    ensures seen { (d : ℕ) → T.seen (value_of T.names d) ≡ seen_of (numbers_of T.names) d }
{}

/// Converting a value to its number and back gives its normal form (`canon`): `Other` of a number that has a name
/// becomes the named variant.
pub fn value_back<T: NamedNumber>()
    ensures seen { (v : T) → T.seen (value_of T.names (number_of (T.seen v)))
        ≡ seen_canon (numbers_of T.names) (T.seen v) }
    ensures canon { (v : T) (n : ℕ) → class.canon (seen_value n (numbers_of T.names) (T.seen v))
        ≡ seen_value n (numbers_of T.names) (T.seen (value_of T.names (number_of (T.seen v)))) }
{}

/// Two values that hold the same are identical.
#[tactic(auto, using(crate::proofs::Naming::different))]
pub fn different<T: NamedNumber>()
    ensures { (a b : T) → T.seen a ≡ T.seen b → a ≡ b }
{}

/// Two values are equal if and only if they are identical.
pub fn equality<T: NamedNumber>()
    ensures { (a b : T) → IsTrue (T.PartialEq.eq a b) ↔ (a ≡ b) }
{}

// ---- strings

/// If the type accepts strings, the `Display` output of a named variant parses to this variant, and so does each
/// additional string. If the type accepts numbers below `2^bits` and displays a number without a name as the bare
/// number, the `Display` output of a value whose number is below `2^bits` and `2^64` parses to the value for this
/// number.
pub fn text_back<T: NamedNumber>()
    ensures name { (v : T) (d : ℕ) (r : Result T DecodeError) → T.names.accepted ≢ NoText → T.seen v ≡ Listed d
        → ReadsText T.names (displayed T.names (T.seen v)) r → r ≡ Ok v }
    ensures further { (v : T) (text : List ℕ) (r : Result T DecodeError) → T.names.accepted ≢ NoText
        → HasLabel T.names.further v (λ l. text ≡ l.text) → ReadsText T.names text r → r ≡ Ok v }
    ensures number { (v : T) (bits : ℕ) (r : Result T DecodeError) → T.names.accepted ≡ TextOrNumber bits
        → T.names.other_text ≡ Bare → number_of (T.seen v) < 2 ^ bits → number_of (T.seen v) < 2 ^ 64
        → ReadsText T.names (displayed T.names (T.seen v)) r → r ≡ Ok (value_of T.names (number_of (T.seen v))) }
{}

/// A string is accepted for at most one value.
#[tactic(auto, using(crate::proofs::Naming::one_text))]
pub fn one_text<T: NamedNumber>()
    ensures { (text : List ℕ) (v w : T) → Accepts T.names text v → Accepts T.names text w → v ≡ w }
{}

// ---- protocols

/// The EtherType of a protocol converts to the protocol, and every number except 0x88A8 to 802.1Q. The `Display` output
/// of a protocol parses to the protocol, and a string is accepted for at most one protocol. Two protocols are equal if
/// and only if they are identical. The default is 802.1Q.
pub fn vlan_protocol()
    ensures number { (p : VlanProtocol) → value_of vlan_protocols (protocol_number p) ≡ p }
    ensures other { (d : ℕ) → d ≢ 0x88A8 → value_of vlan_protocols d ≡ Ieee8021Q }
    ensures equal { (p q : VlanProtocol) → IsTrue (⟦<VlanProtocol as PartialEq>⟧.eq p q) ↔ (p ≡ q) }
    ensures default { (p : VlanProtocol) → ⟦<VlanProtocol as Default>⟧.is_default p ↔ (p ≡ Ieee8021Q) }
    ensures text { (p : VlanProtocol) (r : Result VlanProtocol DecodeError)
        → ReadsText vlan_protocols (text_of vlan_protocols.labels (protocol_number p)) r → r ≡ Ok p }
    ensures one { (text : List ℕ) (p q : VlanProtocol)
        → Accepts vlan_protocols text p → Accepts vlan_protocols text q → p ≡ q }
{}
