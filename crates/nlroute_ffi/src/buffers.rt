//! Texts in a caller's buffer.

ghost use Rattle.std.specs.Prelude.{◌≡◌, ◌<◌, ◌^◌, [], Err};
ghost use Rattle.nlroute_ffi.specs.Buffers.{cut_text, Stores, StoresText};

use crate::refusal::Refusal;
use link_show::{Words, store_front};

/// Stores a text at the start of `buffer`, as far as there is room before a NUL, and the NUL. Returns the length of
/// the whole text; the rest of `buffer` is unchanged.
pub(crate) fn store(text: &[u8], buffer: &mut [u8]) -> usize
    ensures stored { Stores text.now buffer.old buffer.new result }
    ensures bounded { result < 2 ^ 63 }
{
    if buffer.is_empty() {
        return text.len();
    }
    let fitting = text.len().min(buffer.len() - 1);
    buffer[..fitting].copy_from_slice(&text[..fitting]);
    buffer[fitting] = 0;
    text.len()
}

/// Stores the empty text, and returns an error.
pub(crate) fn refuse(refusal: Refusal, buffer: &mut [u8]) -> Result<usize, Refusal>
    ensures refused { result ≡ Err refusal }
    ensures empty { buffer.new ≡ cut_text [] buffer.old }
{
    store(b"", buffer);
    Err(refusal)
}

/// Stores a text as [`store`] does. Returns its length, at most `isize::MAX`.
pub(crate) fn store_words<T: Words>(words: &T, buffer: &mut [u8]) -> usize
    ensures stored { StoresText (T.words words.now) buffer.old buffer.new result }
    ensures bounded { result < 2 ^ 63 }
{
    let room = buffer.len().saturating_sub(1);
    let count = store_front(words, &mut buffer[..room]);
    if !buffer.is_empty() {
        buffer[count.min(room)] = 0;
    }
    count.min(isize::MAX as usize)
}
