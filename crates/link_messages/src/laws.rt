//! Theorems about messages and lists of attributes. The functions have empty bodies.

ghost use Rattle.std.specs.Prelude.{◌≡◌, ◌↔◌, ℕ, List, [], ◌∷◌, ◌++◌, drop, map, Option, Some, Ok, IsTrue};
ghost use Rattle.link_base.specs.declared.wire.fault.Cause.{Cause};
ghost use Rattle.link_messages.specs.declared.buffer_parts.Message.{Message};
ghost use Rattle.link_messages.specs.declared.buffer_parts.Payload.{Payload};
ghost use Rattle.link_messages.specs.declared.buffer_parts.Part.{Part};
ghost use Rattle.link_messages.specs.declared.message.MessageError.{MessageError};
ghost use Rattle.link_messages.specs.declared.acknowledgement.Acknowledgement.{Acknowledgement};
ghost use Rattle.link_messages.specs.declared.header.LinkHeader.{LinkHeader};
ghost use Rattle.link_messages.specs.declared.lists.ListsError.{ListsError};
ghost use Rattle.link_messages.specs.Message.{NextMessage, Stand};
ghost use Rattle.link_messages.specs.Finding.{stretch_of};
ghost use Rattle.link_messages.specs.Link.{part_of};
ghost use Rattle.link_messages.specs.Walk.{Item, Walk};
ghost use Rattle.link_messages.specs.BeforeFault.{seen_of};
ghost use Rattle.link_messages.specs.Same.{IsSameMessage, IsSameAcknowledgement};

use crate::acknowledgement::Acknowledgement;
use crate::buffer_parts::{Message, Part, Payload};
use crate::header::LinkHeader;
use crate::lists::ListsError;
use crate::message::MessageError;

/// States that consecutive messages and the next message are consecutive messages again. A loop over a buffer uses this
/// as its step.
#[tactic(auto, using(crate::proofs::Messages::stand_more))]
pub fn one_more()
    ensures { (s : List ℕ) (from at : ℕ) (ms : List Message) (m : Message) → Stand s from ms at
        → NextMessage at (drop at s) (Ok (Some m)) → Stand s from (ms ++ m ∷ []) m.next }
{}

/// States that a list has at most one walk: two walks have attributes with the same offsets, types and payloads, and the
/// same malformed header. So all calls that stop at the first malformed header describe the same attributes.
pub fn one_walk()
    ensures { (list : List ℕ) (xs ys : List Item) (e f : Option (ℕ × Cause)) → Walk list xs e → Walk list ys f
        → (map seen_of xs ≡ map seen_of ys) × (e ≡ f) }
{}

/// States that two errors are equal (`==`) if and only if they are the same value.
pub fn error_equality()
    ensures message { (a b : MessageError) → IsTrue (⟦<MessageError as PartialEq>⟧.eq a b) ↔ (a ≡ b) }
    ensures lists { (a b : ListsError) → IsTrue (⟦<ListsError as PartialEq>⟧.eq a b) ↔ (a ≡ b) }
{}

/// States that two messages, payloads, parts, replies or headers are equal (`==`) if and only if all their fields are.
/// Borrowed bytes are compared, and not where they are in memory.
pub fn equality()
    ensures message { (a b : Message) → IsTrue (⟦<Message<'static> as PartialEq>⟧.eq a b) ↔ IsSameMessage a b }
    ensures payload { (a b : Payload) → IsTrue (⟦<Payload<'static> as PartialEq>⟧.eq a b)
        ↔ (stretch_of a ≡ stretch_of b) }
    ensures part { (a b : Part) → IsTrue (⟦<Part<'static> as PartialEq>⟧.eq a b) ↔ (part_of a ≡ part_of b) }
    ensures acknowledgement { (a b : Acknowledgement) → IsTrue (⟦<Acknowledgement<'static> as PartialEq>⟧.eq a b)
        ↔ IsSameAcknowledgement a b }
    ensures header { (a b : LinkHeader) → IsTrue (⟦<LinkHeader as PartialEq>⟧.eq a b) ↔ (a ≡ b) }
{}
