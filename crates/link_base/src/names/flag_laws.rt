//! Theorems about `Flags`: what its functions return for a set in which every bit is known, what equal sets have in
//! common, and what the terms in the contracts of `Flags` mean bit by bit. The functions here have empty bodies; each
//! states its theorem as its contract.

ghost use Rattle.std.specs.Prelude.{◌≡◌, ◌≢◌, ◌↔◌, ◌⊎◌, ◌==◌, ◌-◌, ◌^◌, ◌<◌, ℕ, List, not, false, IsTrue};
ghost use Rattle.std.specs.Int.{bit_at};
ghost use Rattle.std.specs.Int.RustNames.{bit_and, bit_or, bit_xor};
ghost use Rattle.bitflags.specs.Sets.{known_bits, without};
ghost use Rattle.link_base.specs.Equality.{IsThorough};
ghost use Rattle.link_base.specs.Labels.{names_in};

use crate::rows::label::Name;
use bitflags::Flags;
use std::hash::Hash;

/// A set of flags that consists of its bits and nothing else.
pub trait FlagSet: Flags + PartialEq + Clone {
    /// The bits that have names, each with the kernel's name.
    ghost bit_names: { List (ℕ × List ℕ) };

    /// Returns the bits that have names, each with the constant in the kernel's headers without the prefix that all
    /// constants of the set have in common, such as `REORDER_HDR`.
    fn names() -> &'static [Name]
        ensures { names_in result.now ≡ bit_names };

    /// The contracts of `Flags` apply.
    ghost is_exact: { Self.exact };

    /// `==` compares the bits.
    ghost equal_by_bits: { (a b : Self) → Self.PartialEq.eq a b ≡ (Self.set_of a == Self.set_of b) };

    /// Equal sets are identical.
    ghost thorough: { IsThorough Self.PartialEq.eq (λ (a : Self). a) };

    /// A clone is the same set.
    ghost copies: { (a b : Self) → Self.Clone.is_clone a b → b ≡ a };

    /// Cloning does not fail.
    ghost is_copied: { (a : Self) → Self.Clone.is_infallible a };
}

/// A set of flags in which every bit is known, whether it has a name or not. The trait has no methods, only laws.
pub trait KnownBits: FlagSet {
    /// Together, its flags have every bit.
    ghost every_bit: { known_bits Self.table ≡ 2 ^ Self.Bits.size - 1 };
}

/// The contracts of `Flags` apply. Two sets are equal if and only if their bits are equal, and then they are identical. A
/// clone is the same set, and cloning does not fail.
pub fn equality<F: FlagSet>()
    ensures contracts { F.exact }
    ensures equal { (a b : F) → F.PartialEq.eq a b ≡ (F.set_of a == F.set_of b) }
    ensures same { (a b : F) → IsTrue (F.PartialEq.eq a b) → a ≡ b }
    ensures copy { (a b : F) → F.Clone.is_clone a b → b ≡ a }
    ensures copied { (a : F) → F.Clone.is_infallible a }
{}

/// Equal sets have equal hashes.
pub fn hashing<F: FlagSet + Hash>()
    ensures { (a b : F) → F.set_of a ≡ F.set_of b → F.hash_input a ≡ F.hash_input b }
{}

/// What holds if every bit is known, in the terms of the contracts of `Flags`, for all bits `n` of a set.
#[tactic(auto, using(crate::proofs::FlagLemmas::all_kept, crate::proofs::FlagLemmas::all_asked, crate::proofs::FlagLemmas::others_kept, crate::proofs::FlagLemmas::none_unknown))]
pub fn every_bit_known<F: KnownBits>()
    ensures contracts { F.exact }
    // `all` has every bit
    ensures all { known_bits F.table ≡ 2 ^ F.Bits.size - 1 }
    // `from_bits` returns `Some`; `from_bits_truncate` and `truncate` keep all bits
    ensures kept { (n : ℕ) → n < 2 ^ F.Bits.size → bit_and n (known_bits F.table) ≡ n }
    // `is_all` checks whether every bit is set
    ensures is_all { (n : ℕ) → n < 2 ^ F.Bits.size → (bit_or (known_bits F.table) n == n) ≡ (n == 2 ^ F.Bits.size - 1) }
    // `complement` has the bits that are not set
    ensures complement { (n : ℕ) → n < 2 ^ F.Bits.size
        → bit_and (2 ^ F.Bits.size - 1 - n) (known_bits F.table) ≡ 2 ^ F.Bits.size - 1 - n }
    // `contains_unknown_bits` returns `false`
    ensures none_unknown { (n : ℕ) → n < 2 ^ F.Bits.size → not (bit_and (known_bits F.table) n == n) ≡ false }
{}

/// The terms in the contracts of `Flags`, bit by bit: `a` has the bits of one set, `b` those of another.
#[tactic(auto, using(crate::proofs::FlagLemmas::both, crate::proofs::FlagLemmas::either, crate::proofs::FlagLemmas::one, crate::proofs::FlagLemmas::first_alone, crate::proofs::FlagLemmas::others, crate::proofs::FlagLemmas::every_one, crate::proofs::FlagLemmas::none_shared))]
pub fn bit_by_bit()
    // `intersection`
    ensures both { (a b i : ℕ) → (bit_at (bit_and a b) i ≡ 1) ↔ ((bit_at a i ≡ 1) × (bit_at b i ≡ 1)) }
    // `union`, `insert` and `set` with `true`
    ensures either { (a b i : ℕ) → (bit_at (bit_or a b) i ≡ 1) ↔ ((bit_at a i ≡ 1) ⊎ (bit_at b i ≡ 1)) }
    // `symmetric_difference` and `toggle`
    ensures one { (a b i : ℕ) → (bit_at (bit_xor a b) i ≡ 1) ↔ (bit_at a i ≢ bit_at b i) }
    // `difference`, `remove` and `set` with `false`
    ensures first_alone { (size a b i : ℕ) → a < 2 ^ size → b < 2 ^ size
        → (bit_at (without size a b) i ≡ 1) ↔ ((bit_at a i ≡ 1) × (bit_at b i ≡ 0)) }
    // `complement`
    ensures others { (size a i : ℕ) → a < 2 ^ size → i < size → (bit_at (2 ^ size - 1 - a) i ≡ 1) ↔ (bit_at a i ≡ 0) }
    // `contains`
    ensures every_one { (a b : ℕ) → (bit_and a b ≡ b) ↔ ((i : ℕ) → bit_at b i ≡ 1 → bit_at a i ≡ 1) }
    // `intersects`, if it returns `false`
    ensures none_shared { (a b : ℕ) → (bit_and a b ≡ 0) ↔ ((i : ℕ) → bit_at a i ≡ 1 → bit_at b i ≡ 0) }
{}
