//! The first bytes of an input, which tell its form.

ghost use Rattle.std.specs.Prelude.{◌<◌, ◌≡◌, length, true, false, IfOk};
ghost use Rattle.std.specs.Io.Buffered.{writer_contents};
ghost use Rattle.std.specs.Io.KnownBytes.{Consumes, IsAtEnd, Keeps};
ghost use Rattle.link_capture.specs.Form.{needs_more};
ghost use Rattle.show_captures.specs.Progress.{AreFirst};
ghost use Rattle.show_lines.specs.Pieces.{IfWritten};

use crate::captures::read_on;
use link_capture::Form;
use show_lines::Stop;
use std::alloc::Global;
use std::io::{BufWriter, Read, Write};

/// The first bytes of an input, and whether they are all of it.
#[derive(Drop)]
pub(crate) struct First {
    pub(crate) bytes: Vec<u8>,
    pub(crate) is_last: bool,
}

/// Reads the first bytes of an input, until they tell its form, or up to its end.
pub(crate) fn read_first<R: Read, W: Write + Drop>(
    alloc: Global,
    chunk: &mut [u8],
    reader: &mut R,
    writer: &mut BufWriter<W>,
) -> Result<First, Stop>
    requires { 0 < length chunk.old }
    ensures read { IfOk result (λ first. Consumes (R.remaining reader.old) (R.remaining reader.new) first.bytes.items) }
    ensures last { IfOk result (λ first. first.is_last ≡ true → IsAtEnd (R.remaining reader.new)) }
    ensures known { IfOk result (λ first. first.is_last ≡ false → needs_more first.bytes.items ≡ false) }
    ensures kept { IfWritten result (Keeps (writer_contents W.contents writer.old) (writer_contents W.contents writer.new)) }
    // No more was read than tells the form, but for the rest of one read.
    ensures needed { IfOk result (λ first. AreFirst (length chunk.old) first.bytes.items) }
    ensures room { length chunk.new ≡ length chunk.old }
{
    let mut bytes = Vec::new(alloc);
    for _ in 0..u64::MAX {
        match read_on(&mut bytes, chunk, reader, writer) {
            Ok(0) => {
                return Ok(First {
                    bytes,
                    is_last: true,
                });
            }
            Ok(_) => {}
            Err(stop) => return Err(stop),
        }
        if !Form::needs_more(&bytes) {
            return Ok(First {
                bytes,
                is_last: false,
            });
        }
    }
    Err(Stop::Reader)
}
