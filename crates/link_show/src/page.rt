//! Texts that are passed on in large parts.

ghost use Rattle.std.specs.Prelude.{◌≡◌, [], IfOk, OnOk};
ghost use Rattle.std.specs.Io.KnownBytes.{Appends};
ghost use Rattle.link_show.specs.Gained.{gains_nothing, gains_all};
ghost use Rattle.link_show.specs.List.{Writes};
ghost use Rattle.link_show.specs.Message.{ShowsMessages};
ghost use Rattle.link_show.specs.Sink.{Whole, Gains};

use crate::line_options::LineOptions;
use crate::messages::write_messages;
use crate::sink::Sink;
use arrayvec::ArrayVec;
use std::io::{ErrorKind, Write};

/// Keeps the pieces of a text, and passes them on to a writer in large parts: a call of a writer costs more than a piece. What
/// is kept at the end is written by [`finish`](Page::finish).
#[derive(Drop)]
struct Page<'a, W: Write> {
    writer: &'a mut W,
    kept: ArrayVec<u8, 1024>,
}

impl<'a, W: Write> Page<'a, W> {
    ghost use Rattle.link_show.specs.Page.{through};

    /// Keeps nothing yet for `writer`.
    fn new(writer: &'a mut W) -> Self
        ensures same_reference { result.writer.ghost_name ≡ writer.entry.ghost_name }
        ensures writer { result.writer.now ≡ writer.old }
        ensures kept { result.kept.items ≡ [] }
    {
        Page {
            writer,
            kept: ArrayVec::new(),
        }
    }

    /// Passes on what is kept.
    fn finish(&mut self) -> Result<(), ErrorKind>
        ensures same_reference { self.new.writer.ghost_name ≡ self.old.writer.ghost_name }
        ensures written { OnOk result (Appends (W.contents self.old.writer.now) (W.contents self.new.writer.now) self.old.kept.items) }
        ensures kept { self.new.kept.items ≡ [] }
    {
        let written = self.writer.put(self.kept.as_slice());
        self.kept.clear();
        written
    }

    /// Writes a text for which there is no room.
    #[cold]
    #[inline(never)]
    fn put_beyond(&mut self, text: &[u8]) -> Result<(), ErrorKind>
        ensures { OnOk result (Gains (through W.contents self.old) (through W.contents self.new) text.now) }
    {
        self.finish()?;
        match self.kept.try_extend_from_slice(text) {
            Ok(()) => Ok(()),
            Err(_) => self.writer.put(text),
        }
    }
}

impl<W: Write> Sink for Page<'_, W> {
    ghost use Rattle.link_show.specs.Page.{through};

    type Error = ErrorKind;

    ghost output = { λ page. through W.contents page };

    #[inline(always)]
    fn put(&mut self, bytes: &[u8]) -> Result<(), ErrorKind> {
        match self.kept.try_extend_from_slice(bytes) {
            Ok(()) => Ok(()),
            Err(_) => self.put_beyond(bytes),
        }
    }

    ghost none = { λ a. gains_nothing (through W.contents a) };

    ghost both = { λ a b c. gains_all (through W.contents a) (through W.contents b) (through W.contents c) };
}

/// Writes the lines of messages as [`write_messages`](crate::write_messages), in parts of up to 1,024 bytes. This is faster,
/// even if `writer` is a `BufWriter`.
///
/// # Errors
///
/// That of the writer. A part of the text may have been written.
pub fn print_messages<W: Write>(
    writer: &mut W,
    buffer: &[u8],
    options: LineOptions,
) -> Result<bool, ErrorKind>
    ensures { IfOk result (Writes (ShowsMessages options buffer.now)
        (Whole (W.contents writer.old)) (Whole (W.contents writer.new))) }
{
    let mut page = Page::new(writer);
    let whole = write_messages(&mut page, buffer, options)?;
    page.finish()?;
    Ok(whole)
}
