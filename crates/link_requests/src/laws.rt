//! Theorems about requests. The functions have empty bodies; each states its theorem as its contract.

ghost use Rattle.std.specs.Prelude.{◌≡◌, ◌↔◌, ◌≤◌, IsTrue, ℕ, List, length, Option, Some, Result, Ok, true};
ghost use Rattle.std.specs.List.{AllByRecursion};
ghost use Rattle.netlink_packet_route.specs.declared.family.Family.{Family};
ghost use Rattle.netlink_packet_route.specs.declared.family.Family.TheVariants.{Link};
ghost use Rattle.netlink_packet_route.specs.Family.{table_of};
ghost use Rattle.link_messages.specs.declared.buffer_parts.Message.{Message};
ghost use Rattle.link_messages.specs.declared.header.LinkHeader.{LinkHeader};
ghost use Rattle.link_messages.specs.declared.message.MessageError.{MessageError};
ghost use Rattle.link_messages.specs.Message.{NextMessage, packet_of};
ghost use Rattle.link_messages.specs.Header.{HasLinkHeader};
ghost use Rattle.link_entries.specs.declared.entry.Entry.{Entry};
ghost use Rattle.link_base.specs.Table.{Table};
ghost use Rattle.link_entries.specs.Flat.{Flat};
ghost use Rattle.link_entries.specs.Encoded.{encoded_by};
ghost use Rattle.link_requests.specs.declared.head.Head.{Head};
ghost use Rattle.link_requests.specs.declared.misfit.RequestError.{RequestError};
ghost use Rattle.link_requests.specs.declared.level.Scope.{Scope};
ghost use Rattle.link_requests.specs.declared.level.Scope.TheVariants.{Attributes};
ghost use Rattle.link_requests.specs.Opening.{Kinds, no_kinds};
ghost use Rattle.link_requests.specs.Lists.{is_single};
ghost use Rattle.link_requests.specs.Value.{begins_at};
ghost use Rattle.link_requests.specs.Values.{values_of};
ghost use Rattle.link_requests.specs.Request.{attributes_of, request_of};
ghost use Rattle.link_requests.specs.Law.{IsHead, IsMessageOf, IsHeaderOf, attributes_in, Consists, has_attributes, IsOwn, IsUnmarked, of_type, IsPlain, list_at};

use crate::head::Head;
use crate::misfit::RequestError;

/// In what [`write_request`](crate::write_request) writes, [`next_message`](link_messages::next_message) finds one message: its
/// type, sequence and port are those of the head, its flags are those of the head and NLM_F_REQUEST, its attributes are those
/// that the values encode to, and it ends where the bytes end.
pub fn message_found()
    ensures { (head : Head) (octets s : List ℕ) (es : List Entry) (result : Result (Option Message) MessageError) → IsHead head
        → request_of head octets es ≡ Ok s → NextMessage 0 s result
        → (m : Message) × (result ≡ Ok (Some m)) × IsMessageOf head octets es s m }
{}

/// The header of this message, which [`link_header`](link_messages::link_header) returns, has the fields of the head.
pub fn header_found()
    ensures { (head : Head) (octets s : List ℕ) (es : List Entry) (m : Message) (header : LinkHeader) → IsHead head
        → IsMessageOf head octets es s m → HasLinkHeader (packet_of m) header → IsHeaderOf head header }
{}

/// What the values of a list encode to consists of their attributes, in order, with the payload that each value encodes
/// to, with the values that follow it. It has no others: bytes are attributes in one way only. So a reader finds, as the
/// last attribute of a type, that of the last value of the type; also in a nested list, and in the list of another set.
pub fn attributes_found()
    ensures message { (head : Head) (octets s : List ℕ) (es : List Entry) → attributes_of head octets es ≡ Ok s
        → Consists s (attributes_in octets (Attributes Link) 0 (no_kinds head.address_family) 0 es) }
    ensures list { (octets s : List ℕ) (scope : Scope) (depth i : ℕ) (x : Kinds) (es : List Entry) → has_attributes scope ≡ true
        → values_of octets scope depth x i es ≡ Ok s → Consists s (attributes_in octets scope depth x i es) }
{}

/// Of what is written, each attribute of the message is marked, or has to name its form, and there is at most one
/// `IFLA_PROTINFO`, `IFLA_LINKINFO` and `IFLA_AF_SPEC`. The entries of a list of any set are not marked: where their depth was
/// forgotten, they are not written, unless they name the form of an attribute of the message.
pub fn marks()
    ensures marked { (head : Head) (octets s : List ℕ) (es : List Entry) → attributes_of head octets es ≡ Ok s
        → AllByRecursion (IsOwn head.address_family) es }
    ensures once { (head : Head) (octets s : List ℕ) (es : List Entry) (k : ℕ) → attributes_of head octets es ≡ Ok s
        → is_single k ≡ true → length (of_type k es) ≤ 1 }
    ensures read { (table : Table) (list : List ℕ) (es : List Entry) → Flat table list es → AllByRecursion IsUnmarked es }
{}

/// Values that refer to their bytes, and among which are no lists of other sets with values, encode to what
/// [`link_entries::write`] writes for them as a list of their own. So the theorems about entries hold for them: what they
/// encode to decodes, and its entries are the values.
pub fn plain_values()
    ensures { (octets s : List ℕ) (set : Family) (depth i : ℕ) (x : Kinds) (es : List Entry)
        → AllByRecursion (IsPlain set x.address_family) (list_at depth es) → begins_at depth es ≡ true
        → values_of octets (Attributes set) depth x i es ≡ Ok s → encoded_by (table_of set) octets (list_at depth es) ≡ Ok s }
{}

/// Two errors, or two heads, are equal (`==`) if and only if they are identical.
pub fn equality()
    ensures error { (a b : RequestError) → IsTrue (⟦<RequestError as PartialEq>⟧.eq a b) ↔ (a ≡ b) }
    ensures head { (a b : Head) → IsTrue (⟦<Head as PartialEq>⟧.eq a b) ↔ (a ≡ b) }
{}
