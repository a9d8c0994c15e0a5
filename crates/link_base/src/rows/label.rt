//! What is known of an attribute type besides its payloads: its name, what its numbers count, the form of its values, the
//! names of its numbers or bits, and the fields of a struct.

ghost use Rattle.std.specs.Prelude.{◌≡◌, option_map};
ghost use Rattle.link_base.specs.Labels.{names_in, name_in};

use crate::rows::fields::Field;
use crate::rows::form::Form;

/// What the number of an attribute counts, or what it is.
#[derive(Clone, Copy, Debug, PartialEq, Eq)]
pub enum Quantity {
    /// Anything else: a count, a priority, an enum, or no number at all.
    Number,
    /// Clock ticks of 1/100 s (`USER_HZ`).
    ClockTicks,
    /// Milliseconds.
    Milliseconds,
    /// Seconds.
    Seconds,
    /// Bits per second.
    BitsPerSecond,
    /// Ohms.
    Ohms,
    /// Nanoseconds.
    Nanoseconds,
    /// Hertz.
    Hertz,
    /// The interface index of a link.
    InterfaceIndex,
    /// A bit mask, or a port identifier with a priority in its upper bits.
    Mask,
}

/// The name of a number of an enum, or of a bit of a set of flags.
#[derive(Clone, Copy, Debug, PartialEq, Eq)]
pub struct Name {
    /// The number; of a bit, the set that has only this bit.
    pub number: u64,
    /// The name: of a number, the variant's `Display` output, such as `802.3ad`; of a bit, the constant in the kernel's
    /// headers without the prefix that all constants of the set have in common, such as `REORDER_HDR`.
    pub text: &'static str,
}

/// The names of numbers or of bits, each after its number, as `&'static [Name]`: `names![0 "unset" 1 "set"]`.
#[macro_export]
macro_rules! names {
    ($($number:literal $text:literal)*) => {
        &[$($crate::rows::label::Name { number: $number, text: $text },)*]
    };
}

/// What is known of an attribute type besides its payloads.
#[derive(Clone, Copy, Debug, PartialEq, Eq)]
pub struct KindLabel {
    /// The constant in the kernel's headers, such as `IFLA_BR_FORWARD_DELAY`.
    pub name: &'static str,
    /// What the names of all attribute types of the list begin with, such as `IFLA_BR_`.
    pub prefix: &'static str,
    /// What the number counts.
    pub quantity: Quantity,
    /// The form of the content.
    pub form: Form,
    /// The names of the enum's numbers, or of the bits of the sets of flags; none for other forms. Numbers and bits may
    /// have no name.
    pub names: &'static [Name],
    /// The fields of a struct that are shown, in this order; none for other forms.
    pub fields: &'static [Field],
}

impl KindLabel {
    /// Returns the name of a number of the enum, or of a bit of the set of flags; `None` if it has no name.
    pub fn name_of(&self, number: u64) -> Option<&'static str>
        ensures { option_map (λ text. text.now) result ≡ name_in (names_in self.now.names.now) number }
    {
        name_of(self.names, number)
    }
}

/// Returns the name of a number, or of a bit; `None` if it has no name.
pub fn name_of(names: &[Name], number: u64) -> Option<&'static str>
    ensures { option_map (λ text. text.now) result ≡ name_in (names_in names.now) number }
{
    for name in names {
        if name.number == number {
            return Some(name.text);
        }
    }
    None
}
