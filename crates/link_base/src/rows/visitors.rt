//! What is done by the row of an attribute type alone: the visitors of `AttributeRows::visit_row`.

ghost use Rattle.std.specs.Prelude.{◌≡◌, ◌↔◌, IsTrue, None, Some};
ghost use Rattle.link_base.specs.Frame.{kind_of};
ghost use Rattle.link_base.specs.Table.{Gives, Allows, label_at, label_with};
ghost use Rattle.link_base.specs.Labels.{label_in, label_of};
ghost use Rattle.link_base.specs.Buffer.{kind_field_of, payload_of};
ghost use Rattle.link_base.specs.Checked.{Checks};
ghost use Rattle.link_base.specs.Borrowed.{elements_at};

use crate::classes::payload_class::PayloadClass;
use crate::rows::attribute::Meaning;
use crate::rows::by_rows::{RowHead, RowVisitor};
use crate::rows::label::KindLabel;
use crate::wire::buffer::NlaBuffer;
use crate::wire::fault::DecodeFault;

/// Checks whether an attribute decodes.
#[derive(Drop)]
pub(crate) struct Check<'a, 'b> {
    /// The attribute.
    pub(crate) buffer: &'b NlaBuffer<'a>,
}

impl<'a, 'b, F: Meaning> RowVisitor<F> for Check<'a, 'b> {
    type Output = Result<(), DecodeFault>;

    ghost asks = { λ visitor kind. kind_of (kind_field_of visitor.buffer.now) ≡ kind };

    ghost answers = { λ visitor kind result.
        Checks (Gives F.table (kind_field_of visitor.buffer.now) (payload_of visitor.buffer.now)) result };

    #[inline(always)]
    fn row<C: PayloadClass>(self, kind: u16, _head: RowHead) -> Result<(), DecodeFault> {
        C::check(kind, self.buffer.value())
    }

    #[inline(always)]
    fn other(self, _kind: u16) -> Result<(), DecodeFault> {
        Ok(())
    }
}

/// Returns what is known of an attribute type besides its payloads.
#[derive(Drop)]
pub(crate) struct Label;

impl<F: Meaning> RowVisitor<F> for Label {
    type Output = Option<KindLabel>;

    ghost asks = { λ _ _. Unit {0} };

    ghost answers = { λ visitor kind result. label_in result ≡ label_at F.table kind };

    #[inline(always)]
    #[tactic(auto, using(crate::proofs::Entries::label_of_row))]
    fn row<C: PayloadClass>(self, _kind: u16, head: RowHead) -> Option<KindLabel> {
        Some(label_row::<C>(head))
    }

    #[inline(always)]
    #[tactic(auto, using(crate::proofs::Entries::label_of_none))]
    fn other(self, _kind: u16) -> Option<KindLabel> {
        None
    }
}

/// Returns what is known of an attribute type whose row has the class `C`.
#[inline(always)]
fn label_row<C: PayloadClass>(head: RowHead) -> KindLabel
    ensures { label_of result ≡ label_with head.prefix.now head.quantity head.name.now C.FORM C.names C.fields }
{
    KindLabel {
        name: head.name,
        prefix: head.prefix,
        quantity: head.quantity,
        form: C::FORM,
        names: C::names(),
        fields: C::fields(),
    }
}

/// Returns what is known of an attribute type in nested lists. The attribute type is that of the lists.
#[derive(Drop)]
pub(crate) struct ElementLabel {
    /// The attribute type in the lists.
    pub(crate) kind: u16,
}

impl<F: Meaning> RowVisitor<F> for ElementLabel {
    type Output = Option<KindLabel>;

    ghost asks = { λ _ _. Unit {0} };

    ghost answers = { λ visitor list result. label_in result ≡ label_at (elements_at F.table list) visitor.kind };

    #[inline(always)]
    #[tactic(auto, using(crate::proofs::Entries::class_of_row))]
    fn row<C: PayloadClass>(self, _list: u16, _head: RowHead) -> Option<KindLabel> {
        C::element_label(self.kind)
    }

    #[inline(always)]
    #[tactic(auto, using(crate::proofs::Entries::class_of_none))]
    fn other(self, _list: u16) -> Option<KindLabel> {
        None
    }
}

/// Checks whether an attribute is canonical.
#[derive(Drop)]
pub(crate) struct Canonical<'a, 'b> {
    /// The attribute.
    pub(crate) buffer: &'b NlaBuffer<'a>,
}

impl<'a, 'b, F: Meaning> RowVisitor<F> for Canonical<'a, 'b> {
    type Output = bool;

    ghost asks = { λ visitor kind. kind_of (kind_field_of visitor.buffer.now) ≡ kind };

    ghost answers = { λ visitor kind result.
        IsTrue result ↔ Allows F.table (kind_field_of visitor.buffer.now) (payload_of visitor.buffer.now) };

    #[inline(always)]
    #[tactic(auto, using(crate::proofs::Entries::class_of_row))]
    fn row<C: PayloadClass>(self, _kind: u16, _head: RowHead) -> bool {
        C::is_canonical(self.buffer)
    }

    #[inline(always)]
    #[tactic(auto, using(crate::proofs::Entries::class_of_none))]
    fn other(self, _kind: u16) -> bool {
        true
    }
}
