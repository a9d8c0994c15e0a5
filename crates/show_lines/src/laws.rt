//! Theorems about the output. The functions have empty bodies; each states its theorem as its contract.

ghost use Rattle.std.specs.Prelude.{◌≡◌, ◌↔◌, ◌∷◌, [], true, false, ℕ, Bool, List, IsTrue, codes};
ghost use Rattle.std.specs.Io.{StartsWith};
ghost use Rattle.netlink_packet_route.specs.Report.{line};
ghost use Rattle.show_lines.specs.declared.arguments.Format.{Format};
ghost use Rattle.show_lines.specs.declared.arguments.Format.TheVariants.{Plain};
ghost use Rattle.show_lines.specs.declared.arguments.Options.{Options};
ghost use Rattle.show_lines.specs.declared.arguments.Output.{Output};
ghost use Rattle.show_lines.specs.declared.arguments.Output.TheVariants.{Text, Json};
ghost use Rattle.show_lines.specs.declared.arguments.Request.{Request};
ghost use Rattle.show_lines.specs.declared.running.Stop.{Stop};
ghost use Rattle.show_lines.specs.declared.replies.TheConstants.{HELP, USAGE};
ghost use Rattle.show_lines.specs.Arguments.{usage_line};
ghost use Rattle.show_lines.specs.Command.{Asks, IsRun};
ghost use Rattle.show_lines.specs.Show.{ShowsAll, by_options};
ghost use Rattle.show_lines.specs.Printed.{Repeats};

use crate::arguments::{Format, Options, Output};
use crate::running::Stop;

/// In the plain form, every line that is written is printable ASCII; or printable ASCII and tabs, and a line of the input as it
/// is repeated.
pub fn printable()
    ensures { (options : Options) (text out : List ℕ) (whole : Bool) → options.format ≡ Plain
        → ShowsAll (by_options options) text out whole → Repeats text out }
{}

/// Two values of `Stop`, `Format`, `Options` or `Output` are equal (`==`) if and only if they are the same value.
pub fn equality()
    ensures stop { (a b : Stop) → IsTrue (⟦<Stop as PartialEq>⟧.eq a b) ↔ (a ≡ b) }
    ensures format { (a b : Format) → IsTrue (⟦<Format as PartialEq>⟧.eq a b) ↔ (a ≡ b) }
    ensures options { (a b : Options) → IsTrue (⟦<Options as PartialEq>⟧.eq a b) ↔ (a ≡ b) }
    ensures output { (a b : Output) → IsTrue (⟦<Output as PartialEq>⟧.eq a b) ↔ (a ≡ b) }
{}

/// The usage line is as the page of `nlshow` has it, and the help text begins with it.
pub fn usage()
    ensures line { USAGE.now ≡ line usage_line }
    ensures help { StartsWith HELP.now (line usage_line) }
{}

/// What two command lines ask for, by clap's definitions: a run on files, and one that prints JSON.
pub fn command_lines()
    ensures files { (request : Request)
        → Asks (codes "nlshow" ∷ codes "--raw" ∷ codes "--check" ∷ codes "x" ∷ codes "-" ∷ []) request
        → IsRun (Text (record { format = Plain; lines = record { check = true; brief = false } })) true
        (codes "x" ∷ codes "-" ∷ []) request }
    ensures json { (request : Request) → Asks (codes "nlshow" ∷ codes "--format=json" ∷ []) request
        → IsRun Json false [] request }
{}
