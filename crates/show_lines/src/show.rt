//! What is written for the lines of an input.

ghost use Rattle.std.specs.Prelude.{ℕ, List, IfOk};
ghost use Rattle.std.specs.Option.{option_copied};
ghost use Rattle.std.specs.Io.KnownBytes.{Appends};
ghost use Rattle.show_lines.specs.Show.{Refused, Answered};
ghost use Rattle.show_lines.specs.Pieces.{AddsPieces, IfWritten};

use crate::asking::Asked;
use crate::running::Stop;
use std::alloc::Global;
use std::io::Write;

/// A way to write the output for the lines of an input. [`show_lines`](crate::show_lines) parses each line, and calls one of
/// the two methods for it, unless the line is a comment or blank.
pub trait ShowLines {
    /// Memory that is used again from line to line.
    type Paper;

    /// What is written for a line that is refused.
    ghost refused: { Self → Refused };

    /// What is written for what a line asks for, and whether it has no error.
    ghost answered: { Self → Answered };

    /// What is written at once. Unless the writer fails, zero or more of these are written, also by a call that stops.
    ghost piece: { Self → List ℕ → Type 0 };

    /// Writes that the line with this number, from 1, is refused, for a reason such as `bad hex`, which has no LF. `text` is
    /// the line, or `None` if it is too long.
    ///
    /// # Errors
    ///
    /// A [`Stop`].
    fn refuse<W: Write>(
        &self,
        alloc: Global,
        paper: &mut Self::Paper,
        number: u64,
        text: Option<&[u8]>,
        reason: &str,
        writer: &mut W,
    ) -> Result<(), Stop>
        ensures shown { IfOk result (λ _. Appends (W.contents writer.old) (W.contents writer.new)
            (refused self.now number (option_copied text.entry) reason.now)) }
        ensures pieces { IfWritten result (AddsPieces (piece self.now)
            (W.contents writer.old) (W.contents writer.new)) };

    /// Writes what the line with this number, from 1, asks for: `asked`, of `bytes`. Returns false if that has an error.
    ///
    /// # Errors
    ///
    /// A [`Stop`].
    fn answer<W: Write>(
        &self,
        alloc: Global,
        paper: &mut Self::Paper,
        number: u64,
        text: &[u8],
        asked: Asked,
        bytes: &[u8],
        writer: &mut W,
    ) -> Result<bool, Stop>
        ensures shown { IfOk result (λ well. (out : List ℕ)
            × answered self.now (number, text.now) asked bytes.now out well
            × Appends (W.contents writer.old) (W.contents writer.new) out) }
        ensures pieces { IfWritten result (AddsPieces (piece self.now)
            (W.contents writer.old) (W.contents writer.new)) };
}
