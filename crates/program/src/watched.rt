//! A writer that remembers whether it failed.

ghost use Rattle.std.specs.Prelude.{◌≡◌, ◌≢◌, ◌⊎◌, ◌↔◌, false, true, IsTrue, IsErr};
ghost use Rattle.std.specs.Io.{WritesAtMost};
ghost use Rattle.std.specs.Io.KnownBytes.{Keeps, WriteAppends};
ghost use Rattle.std.specs.IoError.{error_kind};
ghost use Rattle.program.specs.Watched.{watched_inner, has_failed, is_unread, IsFailedWrite, FailsBy};

use std::io;
use std::io::{ErrorKind, Write};

/// Passes all bytes on to a writer, and remembers whether it failed, and whether nobody reads what it writes. A write that
/// is to be tried again (`ErrorKind::Interrupted`) does not count.
#[derive(Drop)]
pub struct Watched<W> {
    inner: W,
    has_failed: bool,
    is_unread: bool,
}

impl<W> Watched<W> {
    /// Watches `inner`, which has not failed yet.
    pub fn new(inner: W) -> Self
        ensures inner { watched_inner result ≡ inner }
        ensures unfailed { has_failed result ≡ false }
        ensures read { is_unread result ≡ false }
    {
        Watched {
            inner,
            has_failed: false,
            is_unread: false,
        }
    }

    /// Returns the watched writer.
    pub fn get_ref(&self) -> &W
        ensures { result.now ≡ watched_inner self.now }
    {
        &self.inner
    }

    /// Notes that a write or a flush failed, as a buffer above reports it.
    pub fn note_failure(&mut self)
        ensures inner { watched_inner self.new ≡ watched_inner self.old }
        ensures failed { has_failed self.new ≡ true }
        ensures unread { is_unread self.new ≡ is_unread self.old }
    {
        self.has_failed = true;
    }

    /// Returns whether a write or a flush failed.
    pub fn has_failed(&self) -> bool
        ensures { result ≡ has_failed self.now }
    {
        self.has_failed
    }

    /// Returns whether a write or a flush failed because nobody reads what is written (`ErrorKind::BrokenPipe`, EPIPE).
    pub fn is_unread(&self) -> bool
        ensures { result ≡ is_unread self.now }
    {
        self.is_unread
    }
}

impl<W: Write> Write for Watched<W> {
    ghost contents = { λ watched. W.contents (watched_inner watched) };

    fn write(&mut self, buf: &[u8]) -> io::Result<usize>
        ensures bound { WritesAtMost result buf.now }
        ensures bytes { WriteAppends (W.contents (watched_inner self.old)) (W.contents (watched_inner self.new))
            result buf.now }
        ensures failed { IsTrue (has_failed self.new)
            ↔ (IsTrue (has_failed self.old) ⊎ IsFailedWrite (λ error. error_kind error ≢ ErrorKind.Interrupted) buf.now result) }
        ensures unread { IsTrue (is_unread self.new)
            ↔ (IsTrue (is_unread self.old) ⊎ FailsBy (λ error. error_kind error ≡ ErrorKind.BrokenPipe) result) }
    {
        let written = self.inner.write(buf);
        match &written {
            Ok(count) => self.has_failed |= *count == 0 && !buf.is_empty(),
            Err(error) => {
                self.has_failed |= error.kind() != ErrorKind::Interrupted;
                self.is_unread |= error.kind() == ErrorKind::BrokenPipe;
            }
        }
        written
    }

    fn flush(&mut self) -> io::Result<()>
        ensures bytes { Keeps (W.contents (watched_inner self.old)) (W.contents (watched_inner self.new)) }
        ensures failed { IsTrue (has_failed self.new) ↔ (IsTrue (has_failed self.old) ⊎ IsErr result) }
        ensures unread { IsTrue (is_unread self.new)
            ↔ (IsTrue (is_unread self.old) ⊎ FailsBy (λ error. error_kind error ≡ ErrorKind.BrokenPipe) result) }
    {
        let flushed = self.inner.flush();
        if let Err(error) = &flushed {
            self.has_failed = true;
            self.is_unread |= error.kind() == ErrorKind::BrokenPipe;
        }
        flushed
    }
}
