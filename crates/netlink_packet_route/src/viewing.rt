//! Views of the lists of a `Family`: their attributes, without values.

ghost use Rattle.std.specs.Prelude.{◌≡◌, IfOk};
ghost use Rattle.link_base.specs.Table.{Gives, class_at, label_at};
ghost use Rattle.link_base.specs.Buffer.{kind_field_of, payload_of};
ghost use Rattle.link_base.specs.Borrowed.{table_within};
ghost use Rattle.link_base.specs.Checked.{Checks};
ghost use Rattle.link_base.specs.Labels.{label_in};
ghost use Rattle.link_base.specs.Viewed.{kind_in, payload_in, set_in, set_of, all_set_of, ViewsList, ViewsElements, IsAllOf};
ghost use Rattle.netlink_packet_route.specs.Family.{table_of};
ghost use Rattle.netlink_packet_route.specs.Views.{family_in, elements_in, elements_table};

use crate::by_family;
use crate::counting::count_values;
use crate::family::Family;
use link_base::rows::label::KindLabel;
use link_base::views::attribute_set::{AttributeSet, CheckedSet};
use link_base::views::view::{Value, View};
use link_base::views::view_all::ViewAll;
use link_base::{Attribute, DecodeFault, ListFault, NlaBuffer};

/// The attributes in the lists of a `Family`.
#[derive(Clone, Copy, Debug)]
pub struct FamilySet {
    /// The attribute set.
    pub family: Family,
}

/// The attributes in the nested lists of one attribute type, in the lists of a `Family`.
#[derive(Clone, Copy, Debug)]
pub struct FamilyElements {
    /// The attribute set of the lists.
    pub family: Family,
    /// The attribute type of the nested lists.
    pub list: u16,
}

impl AttributeSet for FamilySet {
    ghost rows = { λ set. table_of (family_in set) };

    #[inline(always)]
    fn well_formed(&self) {}

    #[inline(always)]
    fn label(&self, kind: u16) -> Option<KindLabel> {
        by_family!(self.family, label_as(None, kind))
    }
}

impl CheckedSet for FamilySet {
    fn check(&self, buffer: &NlaBuffer<'_>) -> Result<(), DecodeFault> {
        by_family!(self.family, check_as(buffer))
    }
}

impl AttributeSet for FamilyElements {
    ghost rows = { elements_table };

    #[inline(always)]
    fn well_formed(&self) {}

    #[inline(always)]
    fn label(&self, kind: u16) -> Option<KindLabel> {
        by_family!(self.family, label_as(Some(self.list), kind))
    }
}

/// Checks a list and returns a view of its attributes. Nothing is allocated, and no value is built.
///
/// # Errors
///
/// The first error in the list, with the byte offset of its attribute: the error that `read_list` returns in
/// `ListError::Fault` unless an allocation fails.
pub fn view_list(family: Family, bytes: &[u8]) -> Result<View<'_, FamilySet>, ListFault>
    ensures list { ViewsList (table_of family) bytes.now result }
    ensures set { IfOk result (λ view. family_in (set_of view) ≡ family) }
{
    count_values(family, bytes)?;
    Ok(View::of_checked(bytes, FamilySet { family }))
}

/// Returns a view of a list that may be malformed: each attribute that decodes, or its error. Nothing is allocated, and
/// no value is built.
pub fn view_all(family: Family, bytes: &[u8]) -> ViewAll<'_, FamilySet>
    ensures list { IsAllOf bytes.now result }
    ensures set { family_in (all_set_of result) ≡ family }
{
    ViewAll::new(bytes, FamilySet { family })
}

/// Returns a view of the attributes in a nested list; `None` if the attribute is not a nested list.
pub fn view_elements<'a>(value: &Value<'a, FamilySet>) -> Option<View<'a, FamilyElements>>
    ensures { ViewsElements (class_at (table_of (family_in (set_in value.now))) (kind_in value.now))
        (payload_in value.now) (elements_in (set_in value.now) (kind_in value.now)) result }
{
    value.elements_as(FamilyElements {
        family: value.set().family,
        list: value.kind(),
    })
}

#[inline(always)]
fn check_as<F: Attribute>(buffer: &NlaBuffer<'_>) -> Result<(), DecodeFault>
    ensures { Checks (Gives F.table (kind_field_of buffer.now) (payload_of buffer.now)) result }
{
    F::check(buffer)
}

#[inline(always)]
fn label_as<F: Attribute>(list: Option<u16>, kind: u16) -> Option<KindLabel>
    ensures { label_in result ≡ label_at (table_within F.table list) kind }
{
    F::label(list, kind)
}
