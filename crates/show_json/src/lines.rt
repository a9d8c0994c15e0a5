//! The documents for the lines of an input.

ghost use Rattle.std.specs.Prelude.{◌≡◌, List, ℕ, IfOk};
ghost use Rattle.std.specs.Io.KnownBytes.{Appends};
ghost use Rattle.show_json.specs.Line.{IsDocument, refused_json, answered_json};

use crate::by_json::Json;
use crate::places::LinePlace;
use crate::stops::stopped;
use link_json::{Document, write_check, write_documents, write_fault, write_list_document};
use show_lines::{Asked, ShowLines, Stop};
use std::alloc::Global;
use std::io::Write;

impl ShowLines for Json<'_> {
    type Paper = Document;

    ghost refused = { refused_json };

    ghost answered = { answered_json };

    ghost piece = { λ _. IsDocument };

    fn refuse<W: Write>(
        &self,
        alloc: Global,
        paper: &mut Document,
        number: u64,
        text: Option<&[u8]>,
        reason: &str,
        writer: &mut W,
    ) -> Result<(), Stop> {
        let place = LinePlace {
            json: *self,
            number,
        };
        stopped(write_fault(alloc, paper, &place, None, reason.as_bytes(), writer))
    }

    fn answer<W: Write>(
        &self,
        alloc: Global,
        paper: &mut Document,
        number: u64,
        text: &[u8],
        asked: Asked,
        bytes: &[u8],
        writer: &mut W,
    ) -> Result<bool, Stop> {
        let place = LinePlace {
            json: *self,
            number,
        };
        match asked {
            Asked::Messages => stopped(write_documents(alloc, paper, &place, bytes, writer)),
            Asked::Attributes(family) => {
                stopped(write_list_document(alloc, paper, &place, family, bytes, writer))
            }
            Asked::Verdict(family) => {
                stopped(write_check(alloc, paper, &place, family, bytes, writer))
            }
        }
    }
}
