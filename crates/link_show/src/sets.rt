//! Sets of attributes whose lists have a text.

ghost use Rattle.std.specs.Prelude.{◌≡◌};
ghost use Rattle.link_base.specs.Borrowed.{elements_at};

use link_base::Attribute;
use link_base::views::attribute_set::{AttributeSet, CheckedSet, ElementSet, Set};
use netlink_packet_route::{FamilyElements, FamilySet};

/// A set of attributes, with those in its nested lists.
pub trait ListSet: CheckedSet {
    /// The attributes in nested lists of one attribute type.
    type Elements: AttributeSet;

    /// Returns the attributes in nested lists of the attribute type `list`.
    fn elements(&self, list: u16) -> Self::Elements
        ensures { Self.Elements.rows result ≡ elements_at (Self.rows self.now) list };
}

impl<F: Attribute> ListSet for Set<F> {
    type Elements = ElementSet<F>;

    fn elements(&self, list: u16) -> ElementSet<F> {
        ElementSet::new(list)
    }
}

impl ListSet for FamilySet {
    type Elements = FamilyElements;

    fn elements(&self, list: u16) -> FamilyElements {
        FamilyElements {
            family: self.family,
            list,
        }
    }
}
