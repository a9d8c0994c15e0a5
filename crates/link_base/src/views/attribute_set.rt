//! Sets of attributes, as views read them.

ghost use Rattle.std.specs.Prelude.{◌≡◌, ⊤, IsTrue};
ghost use Rattle.link_base.specs.Table.{Table, Gives, label_at};
ghost use Rattle.link_base.specs.Labels.{label_in};
ghost use Rattle.link_base.specs.Buffer.{kind_field_of, payload_of};
ghost use Rattle.link_base.specs.Borrowed.{elements_at};
ghost use Rattle.link_base.specs.Checked.{Checks};
ghost use Rattle.link_base.specs.WellFormed.{is_table};

use crate::rows::attribute::Attribute;
use crate::rows::label::KindLabel;
use crate::wire::buffer::NlaBuffer;
use crate::wire::fault::DecodeFault;
use std::alloc::AllocError;
use std::marker::PhantomData;

/// A set of attributes whose lists can be viewed.
pub trait AttributeSet: Copy {
    /// The rows of the set's table: attribute types, and what their payloads are.
    ghost rows: { Self → Table };

    /// The table is well-formed. The body is empty: the contract is the fact.
    fn well_formed(&self)
        ensures { IsTrue (is_table (Self.rows self.now)) };

    /// Returns what is known of an attribute type besides its payloads; `None` if no row has the type.
    fn label(&self, kind: u16) -> Option<KindLabel>
        ensures { label_in result ≡ label_at (Self.rows self.now) kind };
}

/// A set of attributes that can be checked one at a time.
pub trait CheckedSet: AttributeSet {
    /// Checks whether an attribute decodes.
    ///
    /// # Errors
    ///
    /// `Value`, `NestedFrame` or `NestedValue`: the error that `parse` returns unless an allocation fails.
    fn check(&self, buffer: &NlaBuffer<'_>) -> Result<(), DecodeFault>
        ensures { Checks (Gives (Self.rows self.now) (kind_field_of buffer.now) (payload_of buffer.now)) result };
}

/// The attributes that values of the type `F` represent.
pub struct Set<F> {
    of: PhantomData<F>,
}

/// The attributes in a nested list that values of the type `F` hold.
pub struct ElementSet<F> {
    list: u16,
    of: PhantomData<F>,
}

impl<F> Clone for Set<F> {
    ghost is_clone = { λ set copy. copy ≡ set };

    ghost is_infallible = { λ _. ⊤ };

    fn clone(&self) -> Result<Self, AllocError> {
        Ok(Set { of: self.of })
    }
}

impl<F> Copy for Set<F> {}

impl<F> Clone for ElementSet<F> {
    ghost is_clone = { λ set copy. copy ≡ set };

    ghost is_infallible = { λ _. ⊤ };

    fn clone(&self) -> Result<Self, AllocError> {
        Ok(*self)
    }
}

impl<F> Copy for ElementSet<F> {}

impl<F> Set<F> {
    /// Returns the set.
    #[inline]
    pub fn new() -> Self {
        Set { of: PhantomData }
    }
}

impl<F> ElementSet<F> {
    ghost use Rattle.link_base.specs.Viewed.{list_of};

    /// Returns the set of the attributes in nested lists of the attribute type `list`.
    #[inline]
    pub fn new(list: u16) -> Self
        ensures { list_of result ≡ list }
    {
        ElementSet {
            list,
            of: PhantomData,
        }
    }
}

impl<F: Attribute> AttributeSet for Set<F> {
    ghost rows = { λ _. F.table };

    #[inline(always)]
    fn well_formed(&self) {}

    #[inline(always)]
    fn label(&self, kind: u16) -> Option<KindLabel> {
        F::label(None, kind)
    }
}

impl<F: Attribute> CheckedSet for Set<F> {
    #[inline(always)]
    fn check(&self, buffer: &NlaBuffer<'_>) -> Result<(), DecodeFault> {
        F::check(buffer)
    }
}

impl<F: Attribute> AttributeSet for ElementSet<F> {
    ghost use Rattle.link_base.specs.Viewed.{list_of};

    ghost rows = { λ set. elements_at F.table (list_of set) };

    #[inline(always)]
    fn well_formed(&self) {}

    #[inline(always)]
    fn label(&self, kind: u16) -> Option<KindLabel> {
        F::label(Some(self.list), kind)
    }
}
