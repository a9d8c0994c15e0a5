//! Where a document is from.

ghost use Rattle.std.specs.Prelude.{◌≡◌, ◌++◌, List, OnOk};
ghost use Rattle.link_json.specs.Doc.{Field, fields_tokens};

use crate::document::Document;
use std::alloc::AllocError;

/// Where messages are from, such as a line of an input: the first members of their documents.
pub trait Place {
    /// The members.
    ghost fields: { Self → List Field };

    /// Writes the members.
    ///
    /// # Errors
    ///
    /// `AllocError` if an allocation fails.
    fn write_fields(&self, doc: &mut Document) -> Result<(), AllocError>
        ensures { OnOk result (doc.new ≡ doc.old ++ fields_tokens (fields self.now)) };
}
