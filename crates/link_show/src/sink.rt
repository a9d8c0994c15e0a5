//! Where texts are written.

ghost use Rattle.std.specs.Prelude.{◌≡◌, ◌++◌, [], ℕ, List, OnOk};
ghost use Rattle.std.specs.IoError.{error_kind};
ghost use Rattle.link_show.specs.Sink.{Output, Whole, Gains};
ghost use Rattle.link_show.specs.Gained.{gains_nothing, gains_all};

use std::io;
use std::io::{ErrorKind, Write};

/// What a text is written to, such as any `io::Write`. Code that is generic over sinks cannot make an `Error`: if it fails,
/// the error is one that the sink returned.
pub trait Sink {
    /// Why bytes cannot be written.
    type Error;

    /// What was written.
    ghost output: { Self → Output };

    /// Writes all of `bytes`.
    ///
    /// # Errors
    ///
    /// That of the sink. A part of the bytes may have been written.
    fn put(&mut self, bytes: &[u8]) -> Result<(), Self::Error>
        ensures { OnOk result (Gains (output self.old) (output self.new) bytes.now) };

    /// A theorem for the prover: no text, if nothing was written.
    ghost none: { (a : Self) → Gains (output a) (output a) [] };

    /// A theorem for the prover: a text, if it was written in two parts.
    ghost both: { (a b c : Self) (s t text : List ℕ)
        → Gains (output a) (output b) s → Gains (output b) (output c) t → text ≡ s ++ t → Gains (output a) (output c) text };
}

impl<W: Write> Sink for W {
    /// The kind of the writer's error, one byte. An `io::Error` has 88, and texts are written in many pieces.
    type Error = ErrorKind;

    ghost output = { λ writer. Whole (W.contents writer) };

    fn put(&mut self, bytes: &[u8]) -> Result<(), ErrorKind> {
        match self.write_all(bytes) {
            Ok(()) => Ok(()),
            Err(error) => Err(kind_of(&error)),
        }
    }

    ghost none = { λ a. gains_nothing (Whole (W.contents a)) };

    ghost both = { λ a b c. gains_all (Whole (W.contents a)) (Whole (W.contents b)) (Whole (W.contents c)) };
}

/// Returns the kind of an error. It is not inlined, so that `put` is.
#[cold]
#[inline(never)]
fn kind_of(error: &io::Error) -> ErrorKind
    ensures { result ≡ error_kind error.now }
{
    error.kind()
}
