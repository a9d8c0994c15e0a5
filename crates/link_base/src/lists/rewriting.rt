//! Re-encoding of attribute lists in one pass.

ghost use Rattle.std.specs.Prelude.{◌≡◌, ◌≤◌, length, drop};
ghost use Rattle.link_base.specs.Frame.{pad};
ghost use Rattle.link_base.specs.Table.{TakesMemory};
ghost use Rattle.link_base.specs.Buffer.{kind_field_of, payload_of};
ghost use Rattle.link_base.specs.Answers.{OnMemory, OnRewriteMemory};
ghost use Rattle.link_base.specs.Rewritten.{AnswersBy, RewrittenInto, NeedsMemory, HasRoom, PutsFrame};

use crate::rows::attribute::{Attribute, MAX_PAYLOAD};
use crate::wire::buffer::NlaBuffer;
use crate::wire::fault::{DecodeError, DecodeFault, RewriteError};
use crate::wire::padding::total_size;
use std::alloc::Global;

/// Re-encodes an attribute list into `buffer`, one attribute at a time and without a list of values. Returns
/// the number of bytes written; the rest of the buffer is unchanged. `buffer` must be at least as long as `bytes`,
/// rounded up to a multiple of four.
///
/// # Errors
///
/// `Fault` as for `read_list`. `TooLong` if the list decodes and a value does not fit. `Memory` if an allocation fails,
/// which is possible only for an attribute whose value may be heap-allocated and which is not after the first error. On
/// error, the start of the buffer may have changed, up to the length of `bytes` rounded up to a multiple of four.
pub fn rewrite_list<F: Attribute>(
    alloc: Global,
    bytes: &[u8],
    buffer: &mut [u8],
) -> Result<usize, RewriteError>
    requires { pad (length bytes.now) ≤ length buffer.old }
    ensures answer { AnswersBy F.table bytes.now (RewrittenInto F.table bytes.now buffer.old buffer.new) result }
    ensures behind { drop (pad (length bytes.now)) buffer.new ≡ drop (pad (length bytes.now)) buffer.old }
    ensures memory { OnRewriteMemory result (NeedsMemory F.table bytes.now) }
{
    let mut rest = bytes;
    let mut place = 0usize;
    let mut len = 0usize;
    let mut unfit = None;
    while !rest.is_empty() {
        let (frame, after) = match NlaBuffer::split_first(rest) {
            Ok(first) => first,
            Err(cause) => {
                let at = bytes.len() - rest.len();
                let fault = DecodeFault::Frame(cause);
                return Err(RewriteError::Fault { at, fault });
            }
        };
        let written = match rewrite_frame::<F>(alloc, &frame, unfit.is_none(), &mut buffer[len..]) {
            Ok(written) => written,
            Err(error) => return Err(error.at(bytes.len() - rest.len()).into()),
        };
        match written {
            Some(size) => len += size,
            None => unfit = unfit.or(Some(place)),
        }
        place += 1;
        rest = after;
    }
    match unfit {
        Some(index) => Err(RewriteError::TooLong { index }),
        None => Ok(len),
    }
}

/// Parses one attribute. If the value is wanted and fits, writes it to the start of `buffer` straight from the place
/// where the parser stored it. Returns the number of bytes written, or `None` if nothing was written. `buffer` must
/// have space for a value that is wanted and fits.
///
/// # Errors
///
/// As for `Parseable::parse`. If nothing was written, the buffer is unchanged.
#[inline(always)]
fn rewrite_frame<F: Attribute>(
    alloc: Global,
    frame: &NlaBuffer<'_>,
    is_wanted: bool,
    buffer: &mut [u8],
) -> Result<Option<usize>, DecodeError>
    requires { HasRoom F.table (kind_field_of frame.now) (payload_of frame.now) is_wanted buffer.old }
    ensures answer { PutsFrame F.table (kind_field_of frame.now) (payload_of frame.now) is_wanted
        buffer.old buffer.new result }
    ensures memory { OnMemory result (TakesMemory F.table (kind_field_of frame.now)) }
{
    let mut place: Option<F> = None;
    match F::parse_into(alloc, frame, &mut place) {
        Ok(()) => {
            let value = place.as_ref().unwrap();
            let size = value.value_len();
            if !is_wanted || size > MAX_PAYLOAD {
                return Ok(None);
            }
            value.emit_sized(size, buffer);
            Ok(Some(total_size(size)))
        }
        Err(error) => Err(error),
    }
}
