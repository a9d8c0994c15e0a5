//! Theorems about the output. The functions have empty bodies; each states its theorem as its contract.

ghost use Rattle.std.specs.Prelude.{◌≡◌, ◌↔◌, ℕ, Bool, List, IsTrue};
ghost use Rattle.show_captures.specs.declared.packets.Carried.{Carried};
ghost use Rattle.show_captures.specs.ByOptions.{by_options};
ghost use Rattle.show_captures.specs.Packet.{IsSameCarried};
ghost use Rattle.show_captures.specs.Run.{PrintsFile, ShowsInput, input_form};
ghost use Rattle.show_lines.specs.declared.arguments.Format.TheVariants.{Plain};
ghost use Rattle.show_lines.specs.declared.arguments.Options.{Options};

use crate::packets::Carried;

/// In the plain form, every line that is written is printable ASCII; or, for lines, printable ASCII and tabs, and one of them as
/// it is repeated.
pub fn printable()
    ensures { (options : Options) (raw : Bool) (s out : List ℕ) (whole : Bool) → options.format ≡ Plain
        → ShowsInput (by_options options) raw s out whole → PrintsFile (input_form raw s) s out }
{}

/// What two packets carry is equal (`==`) if and only if it is the same. Borrowed bytes are compared, and not where they are
/// in memory.
pub fn equality()
    ensures { (a b : Carried) → IsTrue (⟦<Carried<'static> as PartialEq>⟧.eq a b) ↔ IsSameCarried a b }
{}
