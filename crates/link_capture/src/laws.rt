//! Theorems about inputs. The functions have empty bodies; each states its theorem as its contract.

ghost use Rattle.std.specs.Prelude.{◌≡◌, ◌≢◌, ◌↔◌, ℕ, List, ◌++◌, Option, Some, None, Ok, true, false, IsTrue};
ghost use Rattle.link_capture.specs.declared.capture.Next.{Next};
ghost use Rattle.link_capture.specs.declared.error.Head.{Head};
ghost use Rattle.link_capture.specs.declared.error.InputError.{InputError};
ghost use Rattle.link_capture.specs.declared.error.Size.{Size};
ghost use Rattle.link_capture.specs.declared.event.Event.{Event};
ghost use Rattle.link_capture.specs.declared.event.Packet.{Packet};
ghost use Rattle.link_capture.specs.declared.event.Time.{Time};
ghost use Rattle.link_capture.specs.declared.form.Form.{Form};
ghost use Rattle.link_capture.specs.declared.options.Clock.{Clock};
ghost use Rattle.link_capture.specs.declared.order.Order.{Order};
ghost use Rattle.link_capture.specs.declared.other_format.OtherFormat.{OtherFormat};
ghost use Rattle.link_capture.specs.declared.pcapng.Interface.{Interface};
ghost use Rattle.link_capture.specs.Form.{form_of, needs_more};
ghost use Rattle.link_capture.specs.Same.{IsSameNext};
ghost use Rattle.link_capture.specs.Meaning.{UnitMeaning, captured_of, meaning_of};
ghost use Rattle.link_capture.specs.Unit.{IsFinal, Reads};

use crate::capture::Next;
use crate::error::{Head, InputError, Size};
use crate::event::{Event, Packet, Time};
use crate::form::Form;
use crate::options::Clock;
use crate::order::Order;
use crate::other_format::OtherFormat;
use crate::pcapng::Interface;

/// States that all bytes can be read in each form, and in one way only: there is one list of what the units mean, and one
/// end, with its offset.
pub fn one_capture()
    ensures exists { (form : Form) (s : List ℕ) → (units : List UnitMeaning)
        × ((fault : Option (ℕ × InputError)) × Reads form s units fault) }
    ensures unique { (form : Form) (s : List ℕ) (xs ys : List UnitMeaning) (e f : Option (ℕ × InputError))
        → Reads form s xs e → Reads form s ys f → (xs ≡ ys) × (e ≡ f) }
{}

/// States that the error of an input is that of each longer input too, after the same units and at the same offset,
/// unless it is that the bytes end within a unit.
pub fn prefix()
    ensures { (form : Form) (s more : List ℕ) (units : List UnitMeaning) (fault : ℕ × InputError)
        → Reads form s units (Some fault) → IsFinal fault.1 → Reads form (s ++ more) units (Some fault) }
{}

/// States when the first bytes of a file tell its form, or its other format ([`Form::of_file`]): whatever follows, if they
/// are not a proper prefix of a magic number, or of the length and the type of a message. Otherwise they tell nothing, and
/// with what follows they may.
pub fn known_form()
    ensures known { (s more : List ℕ) → needs_more s ≡ false → form_of (s ++ more) ≡ form_of s }
    ensures begun { (s : List ℕ) → needs_more s ≡ true → (form_of s ≡ Ok None)
        × ((more : List ℕ) × (form_of (s ++ more) ≢ Ok None)) }
{}

/// States that two values of a public type are equal (`==`) if and only if all their fields are. Borrowed bytes are
/// compared, and not where they are in memory.
pub fn equality()
    ensures order { (a b : Order) → IsTrue (⟦<Order as PartialEq>⟧.eq a b) ↔ (a ≡ b) }
    ensures form { (a b : Form) → IsTrue (⟦<Form as PartialEq>⟧.eq a b) ↔ (a ≡ b) }
    ensures format { (a b : OtherFormat) → IsTrue (⟦<OtherFormat as PartialEq>⟧.eq a b) ↔ (a ≡ b) }
    ensures clock { (a b : Clock) → IsTrue (⟦<Clock as PartialEq>⟧.eq a b) ↔ (a ≡ b) }
    ensures interface { (a b : Interface) → IsTrue (⟦<Interface as PartialEq>⟧.eq a b) ↔ (a ≡ b) }
    ensures head { (a b : Head) → IsTrue (⟦<Head as PartialEq>⟧.eq a b) ↔ (a ≡ b) }
    ensures size { (a b : Size) → IsTrue (⟦<Size as PartialEq>⟧.eq a b) ↔ (a ≡ b) }
    ensures error { (a b : InputError) → IsTrue (⟦<InputError as PartialEq>⟧.eq a b) ↔ (a ≡ b) }
    ensures time { (a b : Time) → IsTrue (⟦<Time as PartialEq>⟧.eq a b) ↔ (a ≡ b) }
    ensures packet { (a b : Packet) → IsTrue (⟦<Packet<'static> as PartialEq>⟧.eq a b)
        ↔ (captured_of a ≡ captured_of b) }
    ensures event { (a b : Event) → IsTrue (⟦<Event<'static> as PartialEq>⟧.eq a b) ↔ (meaning_of a ≡ meaning_of b) }
    ensures next { (a b : Next) → IsTrue (⟦<Next<'static> as PartialEq>⟧.eq a b) ↔ IsSameNext a b }
{}
