//! Views of lists: the attributes of a list without values, with what is known of their types. The calls here take the
//! enum of the attributes as a type; those of the crate's root take a [`Family`](crate::Family).

pub use link_base::classes::flag_or_bool::flag_is_on;
pub use link_base::rows::fields::Field;
pub use link_base::rows::form::{ArrayOf, Form, Layout, Look, Order, Role, Width};
pub use link_base::rows::label::{KindLabel, Name, Quantity};
pub use link_base::views::attribute_set::{AttributeSet, CheckedSet, ElementSet, Set};
pub use link_base::views::content::{Content, Known};
pub use link_base::views::view::{Value, View};
pub use link_base::views::view_all::ViewAll;
pub use link_base::views::view_laws;
pub use link_base::views::viewing::{view_all, view_list};
pub use link_vlan_can::CanBitTimingLimits;
