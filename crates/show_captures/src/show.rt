//! What is written for the units of an input.

ghost use Rattle.std.specs.Prelude.{◌≡◌, ◌<◌, [], List, ℕ, false, IfOk, OnOk};
ghost use Rattle.std.specs.Io.Buffered.{writer_buffer, writer_inner};
ghost use Rattle.std.specs.Io.KnownBytes.{Appends};
ghost use Rattle.link_capture.specs.Meaning.{captured_of};
ghost use Rattle.program.specs.Printing.{no_memory_line, read_fault_line};
ghost use Rattle.program.specs.Watched.{given, has_failed, passed_on};
ghost use Rattle.show_captures.specs.ByOptions.{units_by_options};
ghost use Rattle.show_captures.specs.End.{EndsBy};
ghost use Rattle.show_captures.specs.Shower.{UnitShower};
ghost use Rattle.show_lines.specs.Pieces.{AddsPieces, IfWritten};

use crate::packets::write_packet;
use crate::times::write_time;
use link_capture::{InputError, OtherFormat, Packet, Time};
use program::{Watched, end_failed, print_no_memory, print_read_fault};
use show_lines::{Options, ShowLines, Stop, write_bare};
use std::alloc::Global;
use std::io::{BufWriter, Write};

/// A way to write the output for the units of an input.
pub trait ShowUnits: ShowLines {
    /// What is written for units.
    ghost units: { Self → UnitShower };

    /// What is written last if an allocation fails.
    ghost ends: { Self → List ℕ };

    /// What is written last if a read fails, with the exit status.
    ghost breaks: { Self → List ℕ → ℕ → Type 0 };

    /// Writes the output for the packet with this number, from 1. Returns false if it has an error.
    ///
    /// # Errors
    ///
    /// A [`Stop`].
    fn show_packet<W: Write>(
        &self,
        alloc: Global,
        paper: &mut Self::Paper,
        number: u64,
        packet: &Packet<'_>,
        writer: &mut W,
    ) -> Result<bool, Stop>
        ensures shown { IfOk result (λ well. (out : List ℕ)
            × (units self.now).packets number (captured_of packet.now) out well
            × Appends (W.contents writer.old) (W.contents writer.new) out) }
        ensures pieces { IfWritten result (AddsPieces (Self.piece self.now)
            (W.contents writer.old) (W.contents writer.new)) };

    /// Writes the output for a message of a raw stream. Returns false if it has an error.
    ///
    /// # Errors
    ///
    /// A [`Stop`].
    fn show_messages<W: Write>(
        &self,
        alloc: Global,
        paper: &mut Self::Paper,
        bytes: &[u8],
        writer: &mut W,
    ) -> Result<bool, Stop>
        ensures shown { IfOk result (λ well. (out : List ℕ)
            × (units self.now).messages bytes.now out well
            × Appends (W.contents writer.old) (W.contents writer.new) out) }
        ensures pieces { IfWritten result (AddsPieces (Self.piece self.now)
            (W.contents writer.old) (W.contents writer.new)) };

    /// Writes the output for the record of a time.
    ///
    /// # Errors
    ///
    /// A [`Stop`].
    fn show_time<W: Write>(
        &self,
        alloc: Global,
        paper: &mut Self::Paper,
        time: Time,
        writer: &mut W,
    ) -> Result<(), Stop>
        ensures shown { OnOk result ((out : List ℕ) × (units self.now).times time out
            × Appends (W.contents writer.old) (W.contents writer.new) out) }
        ensures pieces { IfWritten result (AddsPieces (Self.piece self.now)
            (W.contents writer.old) (W.contents writer.new)) };

    /// Writes the error that ends an input, at this offset.
    ///
    /// # Errors
    ///
    /// A [`Stop`].
    fn show_error<W: Write>(
        &self,
        alloc: Global,
        paper: &mut Self::Paper,
        at: u64,
        error: InputError,
        writer: &mut W,
    ) -> Result<(), Stop>
        ensures shown { OnOk result (Appends (W.contents writer.old) (W.contents writer.new)
            ((units self.now).errors at error)) }
        ensures pieces { IfWritten result (AddsPieces (Self.piece self.now)
            (W.contents writer.old) (W.contents writer.new)) };

    /// Writes that an input is a file in this format, which is not read.
    ///
    /// # Errors
    ///
    /// A [`Stop`].
    fn show_format<W: Write>(
        &self,
        alloc: Global,
        paper: &mut Self::Paper,
        format: OtherFormat,
        writer: &mut W,
    ) -> Result<(), Stop>
        ensures shown { OnOk result (Appends (W.contents writer.old) (W.contents writer.new)
            ((units self.now).formats format)) }
        ensures pieces { IfWritten result (AddsPieces (Self.piece self.now)
            (W.contents writer.old) (W.contents writer.new)) };

    /// Writes what a run says at its end if it stopped early, and flushes. Returns the exit status: 4 for `Memory`, 5 for
    /// `Reader` and `Writer`, and 5 if the writer fails, which it then says. For `Reader` it may be 4, too, if a form allocates.
    fn end<W: Write + Drop>(
        &self,
        alloc: Global,
        paper: &mut Self::Paper,
        stop: Stop,
        writer: &mut BufWriter<Watched<W>>,
    ) -> u8
        ensures said { EndsBy (ends self.now) (breaks self.now) stop result (given W.contents writer.old)
            (passed_on W.contents writer.new) (has_failed (writer_inner writer.new)) }
        ensures empty { result < 5 → writer_buffer writer.new ≡ [] }
        ensures unfailed { has_failed (writer_inner writer.new) ≡ false → writer_buffer writer.new ≡ [] };
}

impl ShowUnits for Options {
    ghost units = { units_by_options };

    ghost ends = { λ _. no_memory_line };

    ghost breaks = { λ _ text status. (text ≡ read_fault_line) × (status ≡ 5) };

    fn show_packet<W: Write>(
        &self,
        alloc: Global,
        paper: &mut (),
        number: u64,
        packet: &Packet<'_>,
        writer: &mut W,
    ) -> Result<bool, Stop> {
        write_packet(alloc, *self, number, packet, writer)
    }

    fn show_messages<W: Write>(
        &self,
        alloc: Global,
        paper: &mut (),
        bytes: &[u8],
        writer: &mut W,
    ) -> Result<bool, Stop> {
        write_bare(alloc, *self, bytes, writer)
    }

    fn show_time<W: Write>(
        &self,
        alloc: Global,
        paper: &mut (),
        time: Time,
        writer: &mut W,
    ) -> Result<(), Stop> {
        write_time(time, writer)
    }

    fn show_error<W: Write>(
        &self,
        alloc: Global,
        paper: &mut (),
        at: u64,
        error: InputError,
        writer: &mut W,
    ) -> Result<(), Stop> {
        match writeln!(writer, "input error at {at}: {error}") {
            Ok(()) => Ok(()),
            Err(_) => Err(Stop::Writer),
        }
    }

    fn show_format<W: Write>(
        &self,
        alloc: Global,
        paper: &mut (),
        format: OtherFormat,
        writer: &mut W,
    ) -> Result<(), Stop> {
        match writeln!(writer, "{format}") {
            Ok(()) => Ok(()),
            Err(_) => Err(Stop::Writer),
        }
    }

    fn end<W: Write + Drop>(
        &self,
        alloc: Global,
        paper: &mut (),
        stop: Stop,
        writer: &mut BufWriter<Watched<W>>,
    ) -> u8 {
        match stop {
            Stop::Memory => print_no_memory(writer),
            Stop::Reader => print_read_fault(writer),
            Stop::Writer => end_failed(writer),
        }
    }
}
