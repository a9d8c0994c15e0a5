//! What ends an input without an offset: a document with an error.

ghost use Rattle.std.specs.Prelude.{◌≡◌, ◌<◌, [], Some, codes, false};
ghost use Rattle.std.specs.Io.Buffered.{writer_buffer, writer_inner};
ghost use Rattle.program.specs.Watched.{given, has_failed, passed_on};
ghost use Rattle.show_json.specs.Place.{file_fields, file_of};
ghost use Rattle.show_json.specs.Stop.{EndsWithFault};

use crate::by_json::Json;
use link_json::{Document, Failure, write_fault};
use program::{Watched, end_failed, finish};
use std::alloc::Global;
use std::io::{BufWriter, Write};

/// Writes the document that says that a file cannot be opened, and flushes it. Returns the exit status: 5, also if the writer
/// fails, which it then says; or 4 if an allocation fails, and then nothing is written.
pub fn write_unopened<W: Write + Drop>(
    alloc: Global,
    file: &str,
    writer: &mut BufWriter<Watched<W>>,
) -> u8
    ensures written { EndsWithFault (file_fields (Some file.now)) (codes "cannot open") result (given W.contents writer.old)
        (passed_on W.contents writer.new) (has_failed (writer_inner writer.new)) }
    ensures empty { result < 5 → writer_buffer writer.new ≡ [] }
    ensures unfailed { has_failed (writer_inner writer.new) ≡ false → writer_buffer writer.new ≡ [] }
{
    let json = Json { file: Some(file) };
    finish_with(
        alloc,
        &mut Document::new(alloc),
        &json,
        "cannot open",
        writer,
    )
}

/// Writes the document of an error that ends an input, and flushes it. Returns the exit status, as [`write_unopened`] does.
pub(crate) fn finish_with<W: Write + Drop>(
    alloc: Global,
    paper: &mut Document,
    json: &Json<'_>,
    text: &str,
    writer: &mut BufWriter<Watched<W>>,
) -> u8
    ensures written { EndsWithFault (file_fields (file_of json.now)) text.now result (given W.contents writer.old)
        (passed_on W.contents writer.new) (has_failed (writer_inner writer.new)) }
    ensures empty { result < 5 → writer_buffer writer.new ≡ [] }
    ensures unfailed { has_failed (writer_inner writer.new) ≡ false → writer_buffer writer.new ≡ [] }
{
    match write_fault(alloc, paper, json, None, text.as_bytes(), writer) {
        Ok(()) => finish(writer, 5),
        Err(Failure::Memory) => finish(writer, 4),
        Err(Failure::Writer) => end_failed(writer),
    }
}
