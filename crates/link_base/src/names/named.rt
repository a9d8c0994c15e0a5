//! Enums for numbers, some of which have names.

ghost use Rattle.std.specs.Prelude.{◌≡◌, ℕ, IsTrue};
ghost use Rattle.std.specs.List.{AllByRecursion};
ghost use Rattle.link_base.specs.Equality.{IsThorough};
ghost use Rattle.link_base.specs.Named.{Naming, Seen, Listed, Free, IsSeen, is_naming, value_of, number_of, texts_of};
ghost use Rattle.link_base.specs.Labels.{names_in};

use crate::classes::word::Word;
use crate::rows::label::Name;

/// An enum with a variant for each name, and a variant `Other` for every other number. Numbers are converted by `From` and
/// `Into`.
pub trait NamedNumber: Copy + Eq + Drop + From<Self::Number> + Into<Self::Number> {
    /// The type of the numbers: `u8`, `u16`, `u32` or `u64`.
    type Number: Word;

    /// The variants, their `Display` output and their numbers, and additional strings that are accepted.
    ghost names: { Naming Self };

    /// What a value holds.
    ghost seen: { Self → Seen };

    /// Returns the numbers that have names, each with the `Display` output of its variant.
    fn names() -> &'static [Name]
        ensures { names_in result.now ≡ texts_of names };

    /// Each named variant holds its number.
    ghost cases_hold: { AllByRecursion (λ l. seen l.case ≡ Listed l.number) names.labels };

    /// `Other(d)` holds the number `d`.
    ghost other_holds: { (d : ℕ) → seen (names.other d) ≡ Free d };

    /// There are no other variants.
    ghost no_more: { (v : Self) → IsSeen names v (seen v) };

    /// The numbers are distinct. All strings, `Display` output and additional ones, are distinct even if ASCII case is
    /// ignored, and none of them also parses as a number.
    ghost well_named: { IsTrue (is_naming names) };

    /// Equal values are identical.
    ghost thorough: { IsThorough Self.PartialEq.eq (λ (v : Self). v) };

    /// A number is converted to its variant, or to `Other` if it has no name.
    ghost from_number: { (d : Self.Number) (v : Self) → Self.From.from_gives d v
        → v ≡ value_of names (Self.Number.value d) };

    /// A value is converted to its number.
    ghost to_number: { (v : Self) (d : Self.Number) → Self.Into.converts v d
        → Self.Number.value d ≡ number_of (seen v) };
}
