//! Theorems about the output. The functions have empty bodies; each states its theorem as its contract.

ghost use Rattle.std.specs.Prelude.{◌≡◌, ℕ, Bool, true, false, List, Option};
ghost use Rattle.json.specs.Json.{Json};
ghost use Rattle.link_capture.specs.declared.error.InputError.{InputError};
ghost use Rattle.link_capture.specs.declared.event.Time.{Time};
ghost use Rattle.link_capture.specs.declared.other_format.OtherFormat.{OtherFormat};
ghost use Rattle.link_capture.specs.Meaning.{Captured};
ghost use Rattle.show_captures.specs.Run.{ShowsInput};
ghost use Rattle.show_lines.specs.declared.asking.Asked.{Asked};
ghost use Rattle.show_json.specs.declared.by_json.Json.{Json as Form};
ghost use Rattle.show_json.specs.Form.{AreDocuments, by_json};
ghost use Rattle.show_json.specs.Line.{refused_json, answered_json};
ghost use Rattle.show_json.specs.Place.{file_of};
ghost use Rattle.show_json.specs.Unit.{units_json};

use crate::by_json::Json;

/// States that what is written for a line is documents: each is one line, reads back, has no key twice, and says in `ok`
/// whether it has no error. The line has no error if all say so.
pub fn documents_of_lines()
    ensures refused { (json : Form) (n : ℕ) (text : Option (List ℕ)) (reason : List ℕ)
        → AreDocuments (refused_json json n text reason) false }
    ensures answered { (json : Form) (n : ℕ) (text : List ℕ) (asked : Asked) (bytes out : List ℕ) (well : Bool)
        → answered_json json (n, text) asked bytes out well → AreDocuments out well }
{}

/// States this of units.
pub fn documents_of_units()
    ensures packets { (json : Form) (n : ℕ) (p : Captured) (out : List ℕ) (well : Bool)
        → (units_json json).packets n p out well → AreDocuments out well }
    ensures messages { (json : Form) (bytes out : List ℕ) (well : Bool)
        → (units_json json).messages bytes out well → AreDocuments out well }
    ensures times { (json : Form) (time : Time) (out : List ℕ) → (units_json json).times time out → AreDocuments out true }
    ensures errors { (json : Form) (at : ℕ) (error : InputError)
        → AreDocuments ((units_json json).errors at error) false }
    ensures formats { (json : Form) (format : OtherFormat) → AreDocuments ((units_json json).formats format) false }
{}

/// States that what is written for a whole input is documents, whatever its form.
pub fn documents()
    ensures { (json : Form) (raw : Bool) (s out : List ℕ) (whole : Bool)
        → ShowsInput (by_json json) raw s out whole → AreDocuments out whole }
{}

/// States that a copy of the form is the form: it names the same file.
pub fn copies()
    ensures { (a b : Form) → ⟦<Json<'static> as Clone>⟧.is_clone a b → file_of b ≡ file_of a }
{}
