//! The front of a text, in a buffer.

ghost use Rattle.std.specs.Prelude.{◌≡◌, ℕ, List, OnOk};
ghost use Rattle.link_show.specs.Sink.{Front, Gains, Counts, overlaid};
ghost use Rattle.link_show.specs.Gained.{gains_nothing, gains_all};

use crate::sink::Sink;
use std::convert::Infallible;

/// A text that can be written.
pub trait Words {
    /// The text.
    ghost words: { Self → List ℕ };

    /// Writes the text.
    ///
    /// # Errors
    ///
    /// That of the writer.
    fn write_words<W: Sink>(&self, writer: &mut W) -> Result<(), W::Error>
        ensures { OnOk result (Gains (W.output writer.old) (W.output writer.new) (words self.now)) };
}

/// Stores a text at the start of `buffer`, as far as there is room; the rest of `buffer` is unchanged. Returns the length
/// of the whole text, at most `usize::MAX`. Does not allocate.
pub fn store_front<T: Words>(words: &T, buffer: &mut [u8]) -> usize
    ensures stored { buffer.new ≡ overlaid 0 (T.words words.now) buffer.old }
    ensures counted { Counts 0 (T.words words.now) result }
{
    let mut front = FrontOf { buffer, count: 0 };
    let Ok(()) = words.write_words(&mut front);
    front.count
}

/// A buffer that takes the front of a text, as far as there is room, and counts its bytes. It never fails.
#[derive(Drop)]
struct FrontOf<'a> {
    buffer: &'a mut [u8],
    count: usize,
}

impl Sink for FrontOf<'_> {
    type Error = Infallible;

    ghost output = { λ front. Front front.buffer front.count };

    fn put(&mut self, bytes: &[u8]) -> Result<(), Infallible> {
        overlay(self.buffer, self.count, bytes);
        self.count = self.count.saturating_add(bytes.len());
        Ok(())
    }

    ghost none = { λ a. gains_nothing (Front a.buffer a.count) };

    ghost both = { λ a b c. gains_all (Front a.buffer a.count) (Front b.buffer b.count) (Front c.buffer c.count) };
}

/// Stores bytes in a buffer from a place on, as far as there is room.
fn overlay(buffer: &mut [u8], place: usize, bytes: &[u8])
    ensures { buffer.new ≡ overlaid place bytes.now buffer.old }
{
    let at = place.min(buffer.len());
    let fitting = bytes.len().min(buffer.len() - at);
    buffer[at..at + fitting].copy_from_slice(&bytes[..fitting]);
}
