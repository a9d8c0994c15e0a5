//! Views of lists: the attributes of a list that decodes, as they are in its bytes.

ghost use Rattle.std.specs.Prelude.{◌≡◌, ◌+◌, ◌-◌, ◌/◌, ◌≤◌, List, length, IfSome};
ghost use Rattle.std.specs.Iterator.{at_most, UpTo};
ghost use Rattle.std.specs.Iterator.SizeHint.{IsWithinCount};
ghost use Rattle.link_base.specs.Frame.{Frame, Frames};
ghost use Rattle.link_base.specs.Table.{class_at, form_at, label_at};
ghost use Rattle.link_base.specs.Labels.{label_in};
ghost use Rattle.link_base.specs.Buffer.{kind_field_of, payload_of};
ghost use Rattle.link_base.specs.Borrowed.{HasValue, HasValues, Borrows, elements_at, form_of};

use crate::rows::attribute::Attribute;
use crate::rows::label::KindLabel;
use crate::views::attribute_set::{AttributeSet, CheckedSet, ElementSet, Set};
use crate::views::content::{Content, Known};
use crate::views::content_by::content_by;
use crate::wire::buffer::NlaBuffer;
use crate::wire::fault::DecodeFault;
use crate::wire::iterator::count_bounds;
use std::alloc::AllocError;

/// An attribute of a list that decodes. It borrows the bytes of the list.
pub struct Value<'a, S: AttributeSet> {
    buffer: NlaBuffer<'a>,
    set: S,
    ghost decodes: { HasValue (S.rows set) (kind_field_of buffer) (payload_of buffer) },
}

/// The attributes of a list that decodes. It borrows the bytes of the list.
pub struct View<'a, S: AttributeSet> {
    rest: &'a [u8],
    whole: usize,
    set: S,
    ghost sound: { HasValues (S.rows set) rest.now },
    ghost within: { length rest.now ≤ whole },
}

impl<'a, S: AttributeSet> Clone for Value<'a, S> {
    ghost use Rattle.std.specs.Prelude.{⊤};
    ghost use Rattle.link_base.specs.Viewed.{IsSameValue};

    ghost is_clone = { λ x y. IsSameValue x y };

    ghost is_infallible = { λ _. ⊤ };

    fn clone(&self) -> Result<Self, AllocError> {
        Ok(Value::of_checked(self.buffer, self.set))
    }
}

impl<'a, S: AttributeSet> Copy for Value<'a, S> {}

impl<'a, S: AttributeSet> Clone for View<'a, S> {
    ghost use Rattle.std.specs.Prelude.{⊤};
    ghost use Rattle.link_base.specs.Viewed.{IsSameView};

    ghost is_clone = { λ v w. IsSameView v w };

    ghost is_infallible = { λ _. ⊤ };

    fn clone(&self) -> Result<Self, AllocError> {
        Ok(self.again())
    }
}

impl<'a, S: AttributeSet> Copy for View<'a, S> {}

impl<'a, S: AttributeSet> Value<'a, S> {
    ghost use Rattle.link_base.specs.Viewed.{buffer_in, kind_in, payload_in, set_in, ViewsElements};

    /// Returns an attribute of `set` as a value. It must decode, as a check of it shows; [`new`](Value::new) checks it.
    #[inline(always)]
    pub fn of_checked(buffer: NlaBuffer<'a>, set: S) -> Self
        requires { HasValue (S.rows set) (kind_field_of buffer) (payload_of buffer) }
        ensures attribute { buffer_in result ≡ buffer.entry }
        ensures set { set_in result ≡ set }
    {
        Value { buffer, set }
    }

    /// Returns the set that the attribute belongs to.
    #[inline]
    pub fn set(&self) -> S
        ensures { result ≡ set_in self.now }
    {
        self.set
    }

    /// Returns the attribute as it is in the list.
    #[inline]
    pub fn buffer(&self) -> NlaBuffer<'a>
        ensures { result ≡ buffer_in self.now }
    {
        self.buffer
    }

    /// Returns the attribute type.
    #[inline]
    pub fn kind(&self) -> u16
        ensures { result ≡ kind_in self.now }
    {
        self.buffer.kind()
    }

    /// Returns what is known of the attribute type besides its payloads: its name in the kernel's headers, what its
    /// numbers count, the form of its content, and the names of its numbers or bits; `None` if no row has the type.
    #[inline(always)]
    pub fn label(&self) -> Option<KindLabel>
        ensures { label_in result ≡ label_at (S.rows (set_in self.now)) (kind_in self.now) }
    {
        self.set.label(self.kind())
    }

    /// Returns the label and the content, by one look-up of the row, and for an element one of its list's.
    #[inline(always)]
    pub fn known(&self) -> Known<'a>
        ensures label { label_in result.label ≡ label_at (S.rows (set_in self.now)) (kind_in self.now) }
        ensures content { Borrows (class_at (S.rows (set_in self.now)) (kind_in self.now)) (payload_in self.now)
            result.content }
        ensures form { form_of result.content ≡ form_at (S.rows (set_in self.now)) (kind_in self.now) }
    {
        self.set.well_formed();
        match self.label() {
            Some(label) => Known {
                label: Some(label),
                content: content_by(label.form, self.buffer.value()),
            },
            None => Known {
                label: None,
                content: Content::Other(self.buffer.value()),
            },
        }
    }

    /// Returns the content.
    #[inline(always)]
    pub fn content(&self) -> Content<'a>
        ensures content { Borrows (class_at (S.rows (set_in self.now)) (kind_in self.now)) (payload_in self.now) result }
        ensures form { form_of result ≡ form_at (S.rows (set_in self.now)) (kind_in self.now) }
    {
        self.known().content
    }

    /// Returns a view of the attributes in a nested list, as those of `elements`, which must have the table of this
    /// nested list; `None` if the attribute is not a nested list.
    #[inline]
    pub fn elements_as<T: AttributeSet>(&self, elements: T) -> Option<View<'a, T>>
        requires { T.rows elements ≡ elements_at (S.rows (set_in self.now)) (kind_in self.now) }
        ensures { ViewsElements (class_at (S.rows (set_in self.now)) (kind_in self.now)) (payload_in self.now)
            elements result }
    {
        match self.content() {
            Content::List { list, .. } => Some(View::of_checked(list, elements)),
            _ => None,
        }
    }
}

impl<'a, S: CheckedSet> Value<'a, S> {
    ghost use Rattle.link_base.specs.Viewed.{IsValue};

    /// Checks an attribute of `set` and returns it as a value.
    ///
    /// # Errors
    ///
    /// `Value`, `NestedFrame` or `NestedValue` if the attribute does not decode.
    #[inline(always)]
    pub fn new(buffer: NlaBuffer<'a>, set: S) -> Result<Self, DecodeFault>
        ensures { IsValue (S.rows set) buffer.entry set result }
    {
        match set.check(&buffer) {
            Ok(()) => Ok(Value::of_checked(buffer, set)),
            Err(fault) => Err(fault),
        }
    }
}

impl<'a, F: Attribute> Value<'a, Set<F>> {
    ghost use Rattle.link_base.specs.Viewed.{kind_in, payload_in, ViewsElementsOf};

    /// Returns a view of the attributes in a nested list; `None` if the attribute is not a nested list.
    #[inline]
    pub fn elements(&self) -> Option<View<'a, ElementSet<F>>>
        ensures { ViewsElementsOf (class_at F.table (kind_in self.now)) (kind_in self.now) (payload_in self.now) result }
    {
        self.elements_as(ElementSet::new(self.kind()))
    }
}

impl<'a, S: AttributeSet> View<'a, S> {
    ghost use Rattle.link_base.specs.Viewed.{bytes_in, whole_length, set_of, kind_in, set_in, IsSameView, SplitsView};
    ghost use Rattle.link_base.specs.Viewed.{seen, first_of, last_of};

    /// Returns a view of a list of attributes of `set`. The list must decode, as a check of it shows.
    #[inline(always)]
    pub fn of_checked(bytes: &'a [u8], set: S) -> Self
        requires { HasValues (S.rows set) bytes.now }
        ensures bytes { bytes_in result ≡ bytes.now }
        ensures whole { whole_length result ≡ length bytes.now }
        ensures set { set_of result ≡ set }
    {
        View {
            rest: bytes,
            whole: bytes.len(),
            set,
        }
    }

    /// Returns the set that the attributes belong to.
    #[inline]
    pub fn set(&self) -> S
        ensures { result ≡ set_of self.now }
    {
        self.set
    }

    /// Returns the bytes of the attributes that are left: the end of the list, from the next attribute on.
    #[inline]
    pub fn bytes(&self) -> &'a [u8]
        ensures { result.now ≡ bytes_in self.now }
    {
        self.rest
    }

    /// Returns the byte offset in the list of the attribute that comes next.
    #[inline]
    pub fn offset(&self) -> usize
        ensures { result ≡ whole_length self.now - length (bytes_in self.now) }
    {
        self.whole - self.rest.len()
    }

    /// Returns the same view.
    #[inline(always)]
    fn again(&self) -> View<'a, S>
        ensures { IsSameView self.now result }
    {
        View {
            rest: self.rest,
            whole: self.whole,
            set: self.set,
        }
    }

    /// Returns the first attribute, and a view of the others; `None` if there is no attribute.
    #[inline(always)]
    fn split_first(&self) -> Option<(Value<'a, S>, View<'a, S>)>
        ensures { SplitsView self.now result }
    {
        if self.rest.is_empty() {
            return None;
        }
        let (whole, set) = (self.whole, self.set);
        let buffer = NlaBuffer::at_front(self.rest);
        let rest = buffer.step_over(self.rest);
        Some((Value { buffer, set }, View { rest, whole, set }))
    }

    /// Returns the number of attributes that are left. This goes over the list.
    pub fn len(&self) -> usize
        ensures { (xs : List Frame) → Frames (bytes_in self.now) xs → result ≡ length xs }
    {
        let mut view = self.again();
        let mut count = 0;
        while let Some((_, others)) = view.split_first() {
            count += 1;
            view = others;
        }
        count
    }

    /// Returns the first of the attributes that are left whose type is `kind`; `None` if there is none.
    pub fn first(&self, kind: u16) -> Option<Value<'a, S>>
        ensures first { (xs : List Frame) → Frames (bytes_in self.now) xs → seen result ≡ first_of kind xs }
        ensures kind { IfSome result (λ x. kind_in x ≡ kind) }
        ensures set { IfSome result (λ x. set_in x ≡ set_of self.now) }
    {
        let mut view = self.again();
        while let Some((value, others)) = view.split_first() {
            if value.kind() == kind {
                return Some(value);
            }
            view = others;
        }
        None
    }

    /// Returns the last of the attributes that are left whose type is `kind`; `None` if there is none. Unless it takes
    /// all attributes of a type, Linux takes the last.
    pub fn find(&self, kind: u16) -> Option<Value<'a, S>>
        ensures last { (xs : List Frame) → Frames (bytes_in self.now) xs → seen result ≡ last_of kind xs }
        ensures kind { IfSome result (λ x. kind_in x ≡ kind) }
        ensures set { IfSome result (λ x. set_in x ≡ set_of self.now) }
    {
        let mut view = self.again();
        let mut found = None;
        while let Some((value, others)) = view.split_first() {
            if value.kind() == kind {
                found = Some(value);
            }
            view = others;
        }
        found
    }
}

impl<'a, S: AttributeSet> Iterator for View<'a, S> {
    ghost use Rattle.link_base.specs.Viewed.{bytes_in, NextValue};
    ghost use Rattle.link_base.specs.IteratorItems.{IsHint};

    type Item = Value<'a, S>;

    ghost next_gives = { λ s r t. NextValue s r t };

    ghost remaining = { λ s. at_most ((length (bytes_in s) + 3) / 4) };

    #[inline]
    fn next(&mut self) -> Option<Value<'a, S>> {
        match self.split_first() {
            Some((value, others)) => {
                *self = others;
                Some(value)
            }
            None => None,
        }
    }

    /// Returns the bounds of [`count_bounds`] on the number of attributes that are left.
    fn size_hint(&self) -> (usize, Option<usize>)
        ensures lower { IsWithinCount result.0 (at_most ((length (bytes_in self.now) + 3) / 4)) }
        ensures upper { IfSome result.1 (UpTo (at_most ((length (bytes_in self.now) + 3) / 4))) }
        ensures bounds { IsHint (bytes_in self.now) result }
    {
        count_bounds(self.rest)
    }
}
