//! Theorems about lists, for every attribute set and every table. The functions have empty bodies; each states its
//! theorem as its contract.

ghost use Rattle.std.specs.Prelude.{◌≡◌, ◌↔◌, ℕ, ◌+◌, ◌%◌, ◌<◌, ◌≤◌, true, List, ◌++◌, length, map};
ghost use Rattle.std.specs.Prelude.{None, Result, Ok, IsTrue};
ghost use Rattle.std.specs.List.{AllByRecursion};
ghost use Rattle.link_base.specs.declared.wire.fault.Cause.{Cause};
ghost use Rattle.link_base.specs.declared.wire.fault.DecodeFault.{DecodeFault};
ghost use Rattle.std.specs.Iterator.{Drains};
ghost use Rattle.link_base.specs.declared.wire.buffer.NlaBuffer.{NlaBuffer};
ghost use Rattle.link_base.specs.declared.wire.frame_table.FrameTable.{FrameTable};
ghost use Rattle.link_base.specs.declared.wire.iterator.NlasIterator.{NlasIterator};
ghost use Rattle.link_base.specs.declared.wire.fault.DecodeError.{DecodeError};
ghost use Rattle.link_base.specs.declared.wire.fault.ListError.{ListError};
ghost use Rattle.link_base.specs.declared.wire.fault.ListFault.{ListFault};
ghost use Rattle.link_base.specs.declared.wire.fault.WriteError.{WriteError};
ghost use Rattle.link_base.specs.declared.wire.fault.TooLong.{TooLong};
ghost use Rattle.link_base.specs.declared.wire.fault.RewriteError.{RewriteError};
ghost use Rattle.link_base.specs.declared.rows.label.Quantity.{Quantity};
ghost use Rattle.link_base.specs.declared.classes.lengths.Lengths.{Lengths};
ghost use Rattle.link_base.specs.declared.rows.fields.Field.{Field};
ghost use Rattle.link_base.specs.declared.rows.form.Form.{Form};
ghost use Rattle.link_base.specs.declared.rows.form.Layout.{Layout};
ghost use Rattle.link_base.specs.declared.rows.form.Order.{Order};
ghost use Rattle.link_base.specs.declared.rows.form.Role.{Role};
ghost use Rattle.link_base.specs.declared.rows.form.Width.{Width};
ghost use Rattle.link_base.specs.declared.rows.label.Name.{Name};
ghost use Rattle.link_base.specs.declared.rows.label.KindLabel.{KindLabel};
ghost use Rattle.link_base.specs.Labels.{named, field_row, label_of};
ghost use Rattle.link_base.specs.Buffer.{kind_field_of, payload_of};
ghost use Rattle.link_base.specs.IteratorItems.{AreItems, IsCount, bytes_left};
ghost use Rattle.link_base.specs.Number.{IsBytes};
ghost use Rattle.link_base.specs.Frame.{Frame, Frames, kind_of, max_payload, pad};
ghost use Rattle.link_base.specs.Wire.{Wire, FirstFault, Reads};
ghost use Rattle.link_base.specs.Table.{Row, Shape, row_at, Table, AttrValue, Other, class_at, Gives, Fits, canon, cut};
ghost use Rattle.link_base.specs.Table.{Canonical, Rewriting, written_kind, written_payload, written_list};
ghost use Rattle.link_base.specs.Editions.{AreEditions, among, without, kinds_of};
ghost use Rattle.link_base.specs.Held.{IsInRange, HidesNone, IsPlain};
ghost use Rattle.link_base.specs.WellFormed.{is_table, IsOverfull};
ghost use Rattle.link_base.specs.Coherent.{IsShapeOf};
ghost use Rattle.link_base.specs.Lawful.{IsLawful};
ghost use Rattle.link_base.specs.FrameTableParts.{walked_bytes, offsets_of, fault_of};

use crate::classes::lengths::Lengths;
use crate::rows::attribute::Attribute;
use crate::rows::fields::Field;
use crate::rows::form::{Form, Layout, Order, Role, Width};
use crate::rows::label::{KindLabel, Name, Quantity};
use crate::wire::buffer::NlaBuffer;
use crate::wire::fault::{
    Cause, DecodeError, DecodeFault, ListError, ListFault, RewriteError, TooLong, WriteError,
};
use crate::wire::frame_table::FrameTable;
use crate::wire::iterator::NlasIterator;

// ---- tables

/// Every table is lawful. The `impl` of `Attribute` for an attribute set uses this theorem as its law `lawful`.
pub fn lawful()
    ensures { (table : Table) → IsLawful table }
{}

/// With every table, every sequence of bytes decodes to values or has a first error. It never has both, and the values
/// or the error are unique.
pub fn one_reading()
    ensures either { (table : Table) (s : List ℕ) → IsBytes s
        → (q : Result (List AttrValue) (ℕ × DecodeFault)) × Reads (Gives table) s q }
    ensures only { (table : Table) (s : List ℕ) (q r : Result (List AttrValue) (ℕ × DecodeFault))
        → Reads (Gives table) s q → Reads (Gives table) s r → q ≡ r }
{}

/// Bytes can be split into frames in at most one way.
#[tactic(auto, using(crate::proofs::Cuts::one_cut_lem))]
pub fn one_cut()
    ensures { (s : List ℕ) (xs ys : List Frame) → Frames s xs → Frames s ys → xs ≡ ys }
{}

/// In a well-formed table, every decoded value fits in an attribute, with one exception: a nested list in a payload of
/// 65529 bytes or more (`IsOverfull`).
#[tactic(auto, using(crate::proofs::LimitLemmas::limit))]
pub fn limit()
    ensures { (table : Table) (f : ℕ) (p : List ℕ) (v : AttrValue) → is_table table ≡ true → IsBytes p
        → length p ≤ max_payload → Gives table f p (Ok v) → (¬ (Fits v)) ↔ IsOverfull (class_at table (kind_of f)) p }
{}

/// Removing the rows of some attribute types from a table gives its previous version: a list without attributes of
/// these types decodes to the same result with both tables, and is canonical with both or with neither.
#[tactic(auto, using(crate::proofs::EditionLemmas::editions))]
pub fn editions()
    ensures { (added : List ℕ) (table : Table) → kinds_of (among added table) ≡ added
        → AreEditions added (without added table) table }
{}

/// An iterator that is run to its end returns the attributes in its bytes, or those before the first malformed header
/// and then that error. Their number is within the bounds that `size_hint` returns.
pub fn items()
    ensures { (it : NlasIterator) (items : List (Result NlaBuffer DecodeError))
        → Drains (⟦<NlasIterator<'static> as Iterator>⟧.next_gives) it items
        → AreItems (bytes_left it) items × IsCount (bytes_left it) (length items) }
{}

// ---- equality

/// `==` compares every field, and is an equivalence relation: equal values represent the same attribute, and `==` is
/// reflexive, symmetric and transitive.
pub fn equality<F: Attribute>()
    ensures same { (a b : F) → IsTrue (F.PartialEq.eq a b) → F.means a ≡ F.means b }
    ensures itself { (a : F) → IsTrue (F.PartialEq.eq a a) }
    ensures either_way { (a b : F) → F.PartialEq.eq a b ≡ F.PartialEq.eq b a }
    ensures chained { (a b c : F) → IsTrue (F.PartialEq.eq a b) → IsTrue (F.PartialEq.eq b c)
        → IsTrue (F.PartialEq.eq a c) }
{}

/// Two values of `Cause`, of `DecodeFault`, or of `ListFault` are equal if and only if they are identical.
pub fn fault_equality()
    ensures cause { (a b : Cause) → IsTrue (⟦<Cause as PartialEq>⟧.eq a b) ↔ (a ≡ b) }
    ensures fault { (a b : DecodeFault) → IsTrue (⟦<DecodeFault as PartialEq>⟧.eq a b) ↔ (a ≡ b) }
    ensures list { (a b : ListFault) → IsTrue (⟦<ListFault as PartialEq>⟧.eq a b) ↔ (a ≡ b) }
{}

/// Two errors of a payload, of a list, of writing, or of re-encoding are equal if and only if they are identical.
pub fn error_equality()
    ensures decode { (a b : DecodeError) → IsTrue (⟦<DecodeError as PartialEq>⟧.eq a b) ↔ (a ≡ b) }
    ensures list { (a b : ListError) → IsTrue (⟦<ListError as PartialEq>⟧.eq a b) ↔ (a ≡ b) }
    ensures write { (a b : WriteError) → IsTrue (⟦<WriteError as PartialEq>⟧.eq a b) ↔ (a ≡ b) }
    ensures rewrite { (a b : RewriteError) → IsTrue (⟦<RewriteError as PartialEq>⟧.eq a b) ↔ (a ≡ b) }
    ensures too_long { (a b : TooLong) → IsTrue (⟦<TooLong as PartialEq>⟧.eq a b) ↔ (a ≡ b) }
{}

/// Two `Quantity`s or `Form`s are equal if and only if they are identical; two `Name`s, if and only if they have the same
/// number and the same text; two `Field`s, if and only if they have the same name, offset, quantity, form and names; two
/// `KindLabel`s, if and only if they have the same name, prefix, quantity, form, names and fields.
pub fn label_equality()
    ensures quantity { (a b : Quantity) → IsTrue (⟦<Quantity as PartialEq>⟧.eq a b) ↔ (a ≡ b) }
    ensures form { (a b : Form) → IsTrue (⟦<Form as PartialEq>⟧.eq a b) ↔ (a ≡ b) }
    ensures name { (a b : Name) → IsTrue (⟦<Name as PartialEq>⟧.eq a b) ↔ (named a ≡ named b) }
    ensures field { (a b : Field) → IsTrue (⟦<Field as PartialEq>⟧.eq a b) ↔ (field_row a ≡ field_row b) }
    ensures label { (a b : KindLabel) → IsTrue (⟦<KindLabel as PartialEq>⟧.eq a b) ↔ (label_of a ≡ label_of b) }
{}

/// Two values of `Width`, `Order`, `Role`, `Lengths` or `Layout` are equal if and only if they are identical.
pub fn layout_equality()
    ensures width { (a b : Width) → IsTrue (⟦<Width as PartialEq>⟧.eq a b) ↔ (a ≡ b) }
    ensures order { (a b : Order) → IsTrue (⟦<Order as PartialEq>⟧.eq a b) ↔ (a ≡ b) }
    ensures role { (a b : Role) → IsTrue (⟦<Role as PartialEq>⟧.eq a b) ↔ (a ≡ b) }
    ensures lengths { (a b : Lengths) → IsTrue (⟦<Lengths as PartialEq>⟧.eq a b) ↔ (a ≡ b) }
    ensures layout { (a b : Layout) → IsTrue (⟦<Layout as PartialEq>⟧.eq a b) ↔ (a ≡ b) }
{}

/// Two `NlaBuffer`s are equal if and only if they have the same `nla_type` and the same payload; two `NlasIterator`s,
/// if and only if they have the same bytes left; two `FrameTable`s, if and only if they have the same bytes, the same
/// offsets and the same error.
pub fn frame_equality()
    ensures frame { (a b : NlaBuffer) → IsTrue (⟦<NlaBuffer<'static> as PartialEq>⟧.eq a b)
        ↔ ((kind_field_of a ≡ kind_field_of b) × (payload_of a ≡ payload_of b)) }
    ensures iterator { (a b : NlasIterator) → IsTrue (⟦<NlasIterator<'static> as PartialEq>⟧.eq a b)
        ↔ (bytes_left a ≡ bytes_left b) }
    ensures table { (a b : FrameTable) → IsTrue (⟦<FrameTable<'static> as PartialEq>⟧.eq a b)
        ↔ ((walked_bytes a ≡ walked_bytes b) × (offsets_of a ≡ offsets_of b) × (fault_of a ≡ fault_of b)) }
{}

// ---- attribute sets: decoded values

/// If decoded values fit, what is written for them decodes to these values, after `cut`.
#[tactic(auto, using(crate::proofs::Written::read_written))]
pub fn reads_back<F: Attribute>()
    ensures { (s : List ℕ) (vs : List AttrValue) → IsBytes s → Wire (Gives F.table) s vs → AllByRecursion Fits vs
        → Wire (Gives F.table) (written_list vs) (map cut vs) }
{}

/// A decoded value is in range, is not an `Other` whose attribute type has a row (nor is an element of its nested
/// list), and is its own normal form (`canon`).
pub fn read_values<F: Attribute>()
    ensures in_range { (f : ℕ) (p : List ℕ) (v : AttrValue) → f < 65536 → IsBytes p → Gives F.table f p (Ok v)
        → IsInRange F.table v }
    ensures hides_none { (f : ℕ) (p : List ℕ) (v : AttrValue) → f < 65536 → IsBytes p → Gives F.table f p (Ok v)
        → HidesNone F.table v }
    ensures own { (f : ℕ) (p : List ℕ) (v : AttrValue) → f < 65536 → IsBytes p → Gives F.table f p (Ok v)
        → canon v ≡ v }
{}

/// If no row has the attribute type, the decoded value is `Other` with `nla_type` and the payload, and both are written
/// unchanged.
pub fn other_kept<F: Attribute>()
    ensures { (f : ℕ) (p : List ℕ) (v : AttrValue) → class_at F.table (kind_of f) ≡ None → Gives F.table f p (Ok v)
        → (v ≡ Other f p) × (written_kind v ≡ f) × (written_payload v ≡ p) }
{}

/// If list `a` decodes and its length is a multiple of four, then appending list `b` appends the values of `b`; or, if
/// `b` is malformed, the first error is that of `b`, with its offset increased by the length of `a`.
pub fn joined<F: Attribute>()
    ensures values { (a b : List ℕ) (vs ws : List AttrValue) → length a % 4 ≡ 0
        → Wire (Gives F.table) a vs → Wire (Gives F.table) b ws → Wire (Gives F.table) (a ++ b) (vs ++ ws) }
    ensures fault { (a b : List ℕ) (vs : List AttrValue) (at : ℕ) (fault : DecodeFault) → length a % 4 ≡ 0
        → Wire (Gives F.table) a vs → FirstFault (Gives F.table) b at fault
        → FirstFault (Gives F.table) (a ++ b) (length a + at) fault }
{}

// ---- attribute sets: values that a program holds

/// What is written for plain values that fit decodes to their normal forms (`canon`).
#[tactic(auto, using(crate::proofs::PlainLemmas::plain_back))]
pub fn plain_back<F: Attribute>()
    ensures { (vs : List AttrValue) → AllByRecursion (IsPlain F.table) vs → AllByRecursion Fits vs
        → Wire (Gives F.table) (written_list vs) (map canon vs) }
{}

/// Plain values that fit are written as equal bytes if and only if their normal forms are equal.
#[tactic(auto, using(crate::proofs::PlainLemmas::plain_bytes))]
pub fn plain_bytes<F: Attribute>()
    ensures { (vs ws : List AttrValue) → AllByRecursion (IsPlain F.table) vs → AllByRecursion Fits vs
        → AllByRecursion (IsPlain F.table) ws → AllByRecursion Fits ws
        → (written_list vs ≡ written_list ws) ↔ (map canon vs ≡ map canon ws) }
{}

/// `cut` leaves a plain value and its normal form unchanged.
pub fn plain_uncut<F: Attribute>()
    ensures { (v : AttrValue) → IsPlain F.table v → (cut v ≡ v) × (cut (canon v) ≡ canon v) }
{}

/// A value and its normal form are written with the same `nla_type` and the same payload.
pub fn one_form()
    ensures { (v : AttrValue) → (written_kind (canon v) ≡ written_kind v)
        × (written_payload (canon v) ≡ written_payload v) }
{}

// ---- attribute sets: re-encoded and canonical lists

/// A re-encoded list equals the input if and only if the input is canonical, and is never longer than the input,
/// rounded up to a multiple of four. It can be re-encoded in turn; the result is canonical, and re-encoding it again
/// changes nothing.
pub fn rewriting<F: Attribute>()
    ensures same { (s t : List ℕ) → IsBytes s → Rewriting F.table s t → (t ≡ s) ↔ Canonical F.table s }
    ensures no_longer { (s t : List ℕ) → IsBytes s → Rewriting F.table s t → length t ≤ pad (length s) }
    ensures second { (s t : List ℕ) → IsBytes s → Rewriting F.table s t
        → (u : List ℕ) × Rewriting F.table t u × Canonical F.table u × Rewriting F.table u u }
{}

/// An input has at most one re-encoded list. From the second pass on, re-encoding changes nothing.
pub fn one_rewriting<F: Attribute>()
    ensures at_most_one { (s t u : List ℕ) → Rewriting F.table s t → Rewriting F.table s u → t ≡ u }
    ensures second { (s t u : List ℕ) → IsBytes s → Rewriting F.table s t → Rewriting F.table t u
        → Rewriting F.table u u }
    ensures third { (s t u w : List ℕ) → IsBytes s → Rewriting F.table s t → Rewriting F.table t u
        → Rewriting F.table u w → w ≡ u }
{}

/// If two inputs can be re-encoded twice, the results are equal if and only if the values of the inputs are equal after
/// `cut`.
pub fn second_equal<F: Attribute>()
    ensures { (s t u s2 t2 u2 : List ℕ) (vs ws : List AttrValue) → IsBytes s → IsBytes s2
        → Wire (Gives F.table) s vs → Rewriting F.table s t → Rewriting F.table t u
        → Wire (Gives F.table) s2 ws → Rewriting F.table s2 t2 → Rewriting F.table t2 u2
        → (u ≡ u2) ↔ (map cut vs ≡ map cut ws) }
{}

/// Every canonical list decodes to values, which fit and are written as the same bytes.
pub fn canonical_reads<F: Attribute>()
    ensures read { (s : List ℕ) → IsBytes s → Canonical F.table s → (vs : List AttrValue) × Wire (Gives F.table) s vs }
    ensures fit { (s : List ℕ) (vs : List AttrValue) → IsBytes s → Canonical F.table s → Wire (Gives F.table) s vs
        → AllByRecursion Fits vs }
    ensures stays { (s : List ℕ) (vs : List AttrValue) → IsBytes s → Canonical F.table s → Wire (Gives F.table) s vs
        → written_list vs ≡ s }
{}

/// Canonical lists with equal values are equal, and the concatenation of two canonical lists is canonical.
pub fn canonical_once<F: Attribute>()
    ensures once { (s t : List ℕ) (vs : List AttrValue) → IsBytes s → IsBytes t
        → Canonical F.table s → Canonical F.table t → Wire (Gives F.table) s vs → Wire (Gives F.table) t vs → s ≡ t }
    ensures joined { (s t : List ℕ) → Canonical F.table s → Canonical F.table t → Canonical F.table (s ++ t) }
{}

/// In a well-formed table, the class of each row is that of its form.
#[tactic(auto, using(crate::proofs::Coherence::row_sound))]
pub fn row_forms()
    ensures { (table : Table) (k : ℕ) (r : Row Shape) → is_table table ≡ true → row_at table k ≡ Some r
        → IsShapeOf r.form r.names r.class }
{}
