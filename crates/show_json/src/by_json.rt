//! The form.

ghost use Rattle.std.specs.Prelude.{◌≡◌, ◌++◌, ◌∷◌, [], OnOk, codes};
ghost use Rattle.link_json.specs.Doc.{fields_tokens};
ghost use Rattle.show_json.specs.Place.{file_fields, file_of};

use link_json::{Document, Place};
use std::alloc::AllocError;

/// JSON documents, each a line. They name the file that they are from, if there is one.
#[derive(Clone, Copy, Debug)]
pub struct Json<'a> {
    /// The name of the file, if files were named.
    pub file: Option<&'a str>,
}

impl Place for Json<'_> {
    ghost fields = { λ json. file_fields (file_of json) };

    fn write_fields(&self, doc: &mut Document) -> Result<(), AllocError> {
        match self.file {
            Some(name) => {
                doc.key("file")?;
                doc.string(name)
            }
            None => Ok(()),
        }
    }
}
