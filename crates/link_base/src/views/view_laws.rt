//! Theorems about views. The functions have empty bodies; each states its theorem as its contract.

ghost use Rattle.std.specs.Prelude.{◌≡◌, List, ℕ, Result, Ok, Some};
ghost use Rattle.std.specs.Iterator.{Drains};
ghost use Rattle.link_base.specs.declared.views.view.Value.{Value};
ghost use Rattle.link_base.specs.declared.wire.fault.ListFault.{ListFault};
ghost use Rattle.link_base.specs.Number.{IsBytes};
ghost use Rattle.link_base.specs.Frame.{Frame, Frames, kind_of};
ghost use Rattle.link_base.specs.Class.{Octets, Raw};
ghost use Rattle.link_base.specs.Forms.{layout_extent};
ghost use Rattle.link_base.specs.Structs.{packed, values_along};
ghost use Rattle.link_base.specs.Table.{Table, AttrValue, Case, Single, One, Gives, Decodes, FirstNotCanonical, class_at};
ghost use Rattle.link_base.specs.Viewed.{bytes_in, set_of, IsWalk, StartsAt, all_set_of, IsAllOf, IsWalkOfAll};

use crate::classes::struct_class::PayloadStruct;
use crate::views::attribute_set::{AttributeSet, CheckedSet};
use crate::views::view::View;
use crate::views::view_all::ViewAll;

/// The attributes that a view has left are a list that decodes.
#[tactic(auto, using(crate::proofs::ViewWalks::left_decodes))]
pub fn decodes<S: AttributeSet>(_view: &View<'_, S>)
    ensures { IsBytes (bytes_in _view.now) → Decodes (S.rows (set_of _view.now)) (bytes_in _view.now) }
{}

/// A view that is walked to its end returns the attributes of its list, in order. They decode to the values that
/// `read_list` returns, each to the value in its place.
pub fn walk<S: AttributeSet>(_view: &View<'_, S>)
    ensures { (items : List (Value S _)) → Drains (⟦<View<'static, S> as Iterator>⟧.next_gives) _view.now items
        → IsWalk (S.rows (set_of _view.now)) (set_of _view.now) (bytes_in _view.now) items }
{}

/// A [`ViewAll`] that is walked to its end returns, for each attribute of a list whose headers are well-formed, the
/// attribute or its error, in order. If the list decodes, there is no error. If it does not, whether a header or a payload
/// is malformed, the first error is the one that `read_list` and `view_list` return, at the same offset.
pub fn walk_all<S: CheckedSet>(_all: &ViewAll<'_, S>)
    ensures { (s : List ℕ) → IsAllOf s _all.now → (items : List (Result (Value S _) ListFault))
        → Drains (⟦<ViewAll<'static, S> as Iterator>⟧.next_gives) _all.now items
        → IsWalkOfAll (S.rows (all_set_of _all.now)) (all_set_of _all.now) s items }
{}

/// If all headers of a list are well-formed, the offset that `first_not_canonical` returns is that of one of its
/// attributes.
pub fn first_other()
    ensures { (table : Table) (s : List ℕ) (xs : List Frame) (at : ℕ) → Frames s xs → FirstNotCanonical table s at
        → StartsAt xs at }
{}

/// If the payload of an attribute is a struct, the value that `parse` returns represents the fields that
/// [`Value::as_struct`](crate::views::view::Value::as_struct) returns.
pub fn structs<T: PayloadStruct>()
    ensures { (table : Table) (f : ℕ) (p : List ℕ) (v : AttrValue) (x : T) → IsBytes p
        → class_at table (kind_of f) ≡ Some (One (Octets (layout_extent T.LAYOUT))) → Gives table f p (Ok v)
        → T.held x ≡ values_along T.classes p → v ≡ Case (kind_of f) (Single (Raw (packed (T.held x)))) }
{}
