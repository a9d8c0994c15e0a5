//! Views of the lists of an attribute set.

ghost use Rattle.link_base.specs.Viewed.{ViewsList, IsAllOf};

use crate::lists::checking::check_list;
use crate::rows::attribute::Attribute;
use crate::views::attribute_set::Set;
use crate::views::view::View;
use crate::views::view_all::ViewAll;
use crate::wire::fault::ListFault;

/// Checks a list and returns a view of its attributes. Nothing is allocated, and no value is built.
///
/// # Errors
///
/// The first error in the list, with the byte offset of its attribute: the error that `read_list` returns in
/// `ListError::Fault` unless an allocation fails.
pub fn view_list<F: Attribute>(bytes: &[u8]) -> Result<View<'_, Set<F>>, ListFault>
    ensures { ViewsList F.table bytes.now result }
{
    check_list::<F>(bytes)?;
    Ok(View::of_checked(bytes, Set::new()))
}

/// Returns a view of a list that may be malformed: each attribute that decodes, or its error. Nothing is allocated, and
/// no value is built.
pub fn view_all<F: Attribute>(bytes: &[u8]) -> ViewAll<'_, Set<F>>
    ensures { IsAllOf bytes.now result }
{
    ViewAll::new(bytes, Set::new())
}
