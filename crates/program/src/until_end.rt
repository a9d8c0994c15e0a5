//! A reader that is not asked again after its end, and that knows why a read failed.

ghost use Rattle.std.specs.Prelude.{◌≡◌, ◌<◌, length, true, false, Ok, None, Some, [], IfErr, IsOk, if◌then◌else◌};
ghost use Rattle.std.specs.Io.{ReadsAtMost};
ghost use Rattle.std.specs.Io.KnownBytes.{ReadConsumes};
ghost use Rattle.std.specs.IoError.{raw_os_error};
ghost use Rattle.program.specs.UntilEnd.{errno_of, has_ended, left_of, reader_below};

use std::io;
use std::io::Read;

/// Passes reads on to a reader until one returns no byte: the end. Later reads return none, and are not passed on, since a
/// terminal may have more after its end. The error number of the last read that failed is kept.
#[derive(Drop)]
pub struct UntilEnd<R> {
    inner: R,
    has_ended: bool,
    errno: Option<i32>,
}

impl<R> UntilEnd<R> {
    /// Reads `inner`, whose end was not seen yet.
    pub fn new(inner: R) -> Self
        ensures inner { reader_below result ≡ inner }
        ensures open { has_ended result ≡ false }
        ensures unfailed { errno_of result ≡ None }
    {
        UntilEnd {
            inner,
            has_ended: false,
            errno: None,
        }
    }

    /// Returns the error number of the last read that failed. `None` if none failed, or if the reader told no number.
    pub fn errno(&self) -> Option<i32>
        ensures { result ≡ errno_of self.now }
    {
        self.errno
    }
}

impl<R: Read> Read for UntilEnd<R> {
    ghost remaining = { left_of R.remaining };

    fn read(&mut self, buf: &mut [u8]) -> io::Result<usize>
        ensures bound { ReadsAtMost result buf.new }
        ensures bytes { ReadConsumes (left_of R.remaining self.old) (left_of R.remaining self.new) result buf.new }
        // The end is kept in mind, and the reader below is not asked again.
        ensures seen { result ≡ Ok 0 → 0 < length buf.new → has_ended self.new ≡ true }
        ensures ended { has_ended self.old ≡ true → (result ≡ Ok 0) × (self.new ≡ self.old) }
        // The reason is kept in mind.
        ensures failed { IfErr result (λ error. errno_of self.new ≡ raw_os_error error) }
        ensures unfailed { IsOk result → errno_of self.new ≡ errno_of self.old }
    {
        if self.has_ended {
            return Ok(0);
        }
        match self.inner.read(buf) {
            Ok(count) => {
                self.has_ended = count == 0 && !buf.is_empty();
                Ok(count)
            }
            Err(error) => {
                self.errno = error.raw_os_error();
                Err(error)
            }
        }
    }
}
