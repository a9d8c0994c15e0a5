//! What is done with the attributes of a list, and of the lists in it.

ghost use Rattle.std.specs.Prelude.{◌≡◌, ◌<◌, ◌++◌, ℕ, [], List, IfOk, OnOk};
ghost use Rattle.link_messages.specs.Finding.{Stretch};
ghost use Rattle.link_messages.specs.Shown.{Display, Nest, nest_of, IsKnown, rows_in, Added, Ends};
ghost use Rattle.link_messages.specs.Within.{IsWithin};

use crate::buffer_parts::Payload;
use crate::header::LinkHeader;
use link_base::rows::label::KindLabel;
use link_base::views::content::Known;
use link_base::{DecodeFault, NlaBuffer};
use netlink_packet_route::{Context, Family};

/// An attribute that holds a list.
#[derive(Clone, Copy, Debug)]
pub struct HeldList<'a> {
    /// What is known of the attribute's type; `None` if no row has the type, as that of an `IFLA_PROTINFO`.
    pub label: &'a Option<KindLabel>,
    /// The set that the attribute belongs to.
    pub family: Family,
    /// The set that reads the list; `None` for a nested list.
    pub set: Option<Family>,
    /// The header before the list, if the attribute is a peer.
    pub header: Option<LinkHeader>,
    /// The list.
    pub list: Payload<'a>,
}

/// What [`visit_list`](crate::visit_list) calls for each attribute, to write to a `W`. A `level` is how many lists an attribute
/// is in, below the one that is visited; it is below 64.
pub trait ListVisitor<W> {
    /// Why something cannot be written.
    type Error;

    /// What is written: pieces such as bytes.
    ghost Piece: { Type 0 };

    /// What is written of an attribute.
    ghost display: { Self → Display Piece };

    /// These pieces were written, and nothing else.
    ghost adds: { W → W → List Piece → Type 0 };

    /// An attribute that holds a list was begun.
    ghost begins: { Self → ℕ → Nest → W → W → Type 0 };

    /// Which lists can be visited.
    ghost reaches: { Self → Stretch → Type 0 };

    /// Checks whether attributes of type `kind` are left out, if they decode.
    fn omits(&self, context: &Context<'_>, family: Family, kind: u16) -> bool
        ensures { result ≡ (display self.now).omits context.now family kind };

    /// Writes an error at an offset.
    fn error(
        &self,
        writer: &mut W,
        level: u8,
        family: Family,
        at: usize,
        fault: DecodeFault,
    ) -> Result<(), Self::Error>
        requires { level < 64 }
        ensures { OnOk result (adds writer.old writer.new ((display self.now).error level family at fault)) };

    /// Writes an attribute that holds no list. `list` is the type of the nested list that has it, or `None`.
    fn leaf(
        &self,
        writer: &mut W,
        context: &Context<'_>,
        level: u8,
        family: Family,
        list: Option<u16>,
        known: &Known<'_>,
        buffer: NlaBuffer<'_>,
    ) -> Result<(), Self::Error>
        requires level { level < 64 }
        requires known { IsKnown (rows_in family list) buffer known.now }
        ensures { OnOk result ((out : List Piece)
            × (display self.now).leaf context.now level family list buffer.entry known.now.content out
            × adds writer.old writer.new out) };

    /// Writes what precedes the attributes of a list that an attribute holds.
    fn begin(&self, writer: &mut W, level: u8, held: &HeldList<'_>) -> Result<(), Self::Error>
        requires level { level < 64 }
        requires reached { reaches self.now (nest_of held.now).list }
        ensures { OnOk result (begins self.now level (nest_of held.now) writer.old writer.new) };

    /// Writes what follows them. `whole` is whether they are all well. Returns whether the attribute is.
    fn end(
        &self,
        writer: &mut W,
        level: u8,
        held: &HeldList<'_>,
        whole: bool,
    ) -> Result<bool, Self::Error>
        requires { level < 63 }
        ensures { IfOk result (Ends adds (begins self.now level (nest_of held.now))
            (λ inner. (display self.now).around level (nest_of held.now) inner whole) writer.old writer.new) };

    /// A theorem for the prover: no pieces, if nothing was written.
    ghost none: { (a : W) → adds a a [] };

    /// A theorem for the prover: pieces that were written in two parts.
    ghost both: { (a b c : W) (s t : List Piece) → adds a b s → adds b c t → adds a c (s ++ t) };

    /// A theorem for the prover: with a list, the lists in it can be visited.
    ghost part: { (v : Self) (list inner : Stretch) → reaches v list → IsWithin list inner → reaches v inner };
}
