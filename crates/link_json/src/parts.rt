//! Parts of documents: numbers with names, and members.

ghost use Rattle.std.specs.Prelude.{◌≡◌, ◌++◌, ◌∷◌, [], OnOk, option_map};
ghost use Rattle.json.specs.Token.{begin_object, key};
ghost use Rattle.json.specs.Tree.{json_tokens};
ghost use Rattle.link_json.specs.Doc.{name_json, named_json, number_json, fields_tokens};

use crate::document::Document;
use std::alloc::AllocError;

/// Writes a name, or null.
pub(crate) fn write_name(doc: &mut Document, name: Option<&str>) -> Result<(), AllocError>
    ensures { OnOk result (doc.new ≡ doc.old ++ json_tokens (name_json (option_map (λ text. text.now) name.entry))) }
{
    match name {
        Some(name) => doc.string(name),
        None => doc.null(),
    }
}

/// Writes a number with its name.
///
/// # Errors
///
/// `AllocError` if an allocation fails.
pub fn write_named(doc: &mut Document, number: u64, name: Option<&str>) -> Result<(), AllocError>
    ensures { OnOk result (doc.new ≡ doc.old ++ json_tokens (named_json number (option_map (λ text. text.now) name.entry))) }
{
    doc.begin_object()?;
    doc.key("number")?;
    doc.number(number)?;
    doc.key("name")?;
    write_name(doc, name)?;
    doc.end_object()
}

/// Writes a member that is a number.
///
/// # Errors
///
/// `AllocError` if an allocation fails.
pub fn write_number_field(doc: &mut Document, name: &str, number: u64) -> Result<(), AllocError>
    ensures { OnOk result (doc.new ≡ doc.old ++ fields_tokens ((name.now, number_json number) ∷ [])) }
{
    doc.key(name)?;
    doc.number(number)
}
