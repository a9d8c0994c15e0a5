//! Theorems about what is written. The functions have empty bodies; each states its theorem as its contract.

ghost use Rattle.std.specs.Prelude.{◌≡◌, ℕ, Bool, true, List};
ghost use Rattle.link_base.specs.Number.{IsBytes};
ghost use Rattle.netlink_packet_route.specs.declared.opening.Context.{Context};
ghost use Rattle.netlink_packet_route.specs.declared.family.Family.{Family};
ghost use Rattle.netlink_packet_route.specs.Family.{table_of};
ghost use Rattle.link_show.specs.declared.line_options.LineOptions.{LineOptions};
ghost use Rattle.link_show.specs.Held.{ShowsChecked};
ghost use Rattle.link_show.specs.Message.{ShowsMessages};
ghost use Rattle.link_show.specs.Printable.{IsText, AreTexts, has_texts};

/// States that what is written for a list of a `Family` is complete lines of printable ASCII, if the indent is printable
/// ASCII too.
pub fn printable_lists()
    ensures { (options : LineOptions) (context : Context) (indent : List ℕ) (base : ℕ) (family : Family) (list out : List ℕ) (well : Bool)
        → IsText indent → ShowsChecked options context indent base family list out well → AreTexts out }
{}

/// States that the names of all attribute types, enums and flags are printable ASCII.
#[tactic(auto, using(crate::proofs::HeldPrinting::family_has_texts))]
pub fn printable_names()
    ensures { (family : Family) → has_texts (table_of family) ≡ true }
{}

/// States that what is written for messages is complete lines of printable ASCII.
pub fn printable_messages()
    ensures { (options : LineOptions) (s out : List ℕ) (whole : Bool) → IsBytes s → ShowsMessages options s out whole → AreTexts out }
{}
