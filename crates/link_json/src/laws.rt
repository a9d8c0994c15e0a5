//! Theorems about what is written. The functions have empty bodies; each states its theorem as its contract.

ghost use Rattle.std.specs.Prelude.{◌≡◌, ◌↔◌, ◌≤◌, ◌+◌, ℕ, Bool, true, false, List, Option, IsTrue};
ghost use Rattle.std.specs.List.{AllByRecursion};
ghost use Rattle.json.specs.Json.{Json};
ghost use Rattle.json.specs.Tree.{depth, items_depth, members_depth};
ghost use Rattle.netlink_packet_route.specs.declared.family.Family.{Family};
ghost use Rattle.link_json.specs.Doc.{Field, items_of, members_of};
ghost use Rattle.link_json.specs.Line.{IsLine, IsPlace};
ghost use Rattle.link_json.specs.Message.{ShowsMessages};
ghost use Rattle.link_json.specs.Ok.{SaysOk, SayOk};
ghost use Rattle.link_json.specs.Other.{ShowsListDocument, ShowsCheck, fault_document, place_document};
ghost use Rattle.link_json.specs.declared.messages.Failure.{Failure};

use crate::messages::Failure;

/// States that the documents of messages nest at most 33 arrays and objects, or one more than the members that say where
/// they are from: where those nest at most 127, the documents nest at most 128, so their lines read back, as
/// `print_document` states.
pub fn shallow_messages()
    ensures { (place : List Field) (d : ℕ) → 32 ≤ d → members_depth (members_of place) ≤ d
        → (s : List ℕ) (js : List Json) (whole : Bool) → ShowsMessages place s js whole → items_depth (items_of js) ≤ d + 1 }
{}

/// States this of the other documents.
pub fn shallow_others()
    ensures faults { (place : List Field) (d : ℕ) → 32 ≤ d → members_depth (members_of place) ≤ d
        → (at : Option ℕ) (text : List ℕ) → depth (fault_document place at text) ≤ d + 1 }
    ensures lists { (place : List Field) (d : ℕ) → 32 ≤ d → members_depth (members_of place) ≤ d
        → (family : Family) (bytes : List ℕ) (j : Json) (well : Bool) → ShowsListDocument place family bytes j well → depth j ≤ d + 1 }
    ensures checks { (place : List Field) (d : ℕ) → 32 ≤ d → members_depth (members_of place) ≤ d
        → (family : Family) (bytes : List ℕ) (j : Json) (well : Bool) → ShowsCheck place family bytes j well → depth j ≤ d + 1 }
{}

/// States that the documents of messages say whether they have an error, in `ok`, their last member; and that a buffer has
/// none if all say so.
pub fn ok_of_messages()
    ensures { (place : List Field) (s : List ℕ) (js : List Json) (whole : Bool) → ShowsMessages place s js whole → SayOk js whole }
{}

/// States this of the other documents.
pub fn ok_of_others()
    ensures places { (place : List Field) → SaysOk (place_document place) true }
    ensures faults { (place : List Field) (at : Option ℕ) (text : List ℕ) → SaysOk (fault_document place at text) false }
    ensures lists { (place : List Field) (family : Family) (bytes : List ℕ) (j : Json) (well : Bool)
        → ShowsListDocument place family bytes j well → SaysOk j well }
    ensures checks { (place : List Field) (family : Family) (bytes : List ℕ) (j : Json) (well : Bool)
        → ShowsCheck place family bytes j well → SaysOk j well }
{}

/// States that the document of each message of a buffer is a line that reads back as that document, and that no object in it
/// has a key twice, if the members that say where it is from are those of a place.
pub fn lines_of_messages()
    ensures { (place : List Field) → IsPlace place → (s : List ℕ) (js : List Json) (whole : Bool)
        → ShowsMessages place s js whole → AllByRecursion IsLine js }
{}

/// States this of the other documents.
pub fn lines_of_others()
    ensures places { (place : List Field) → IsPlace place → IsLine (place_document place) }
    ensures faults { (place : List Field) → IsPlace place → (at : Option ℕ) (text : List ℕ) → IsLine (fault_document place at text) }
    ensures lists { (place : List Field) → IsPlace place → (family : Family) (bytes : List ℕ) (j : Json) (well : Bool)
        → ShowsListDocument place family bytes j well → IsLine j }
    ensures checks { (place : List Field) → IsPlace place → (family : Family) (bytes : List ℕ) (j : Json) (well : Bool)
        → ShowsCheck place family bytes j well → IsLine j }
{}

/// States that two values of `Failure` are equal (`==`) if and only if they are the same value.
pub fn equality()
    ensures { (a b : Failure) → IsTrue (⟦<Failure as PartialEq>⟧.eq a b) ↔ (a ≡ b) }
{}
