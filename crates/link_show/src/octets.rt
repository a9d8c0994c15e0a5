//! Bytes: hardware addresses, and bytes in hexadecimal.

ghost use Rattle.std.specs.Prelude.{◌++◌, ◌≤◌, drop, codes, OnOk};
ghost use Rattle.link_show.specs.Sink.{Gains};
ghost use Rattle.link_show.specs.Octets.{byte_text, hex_text, address_text};

use crate::pieces::{hex_digit, put_separator};
use crate::sink::Sink;

/// Writes a hardware address of any length, such as `02:00:00:00:00:01`; `(empty)` if it has no bytes.
///
/// # Errors
///
/// That of the writer.
#[tactic(auto, using(crate::proofs::Written::next_steps))]
pub fn write_address<W: Sink>(writer: &mut W, address: &[u8]) -> Result<(), W::Error>
    ensures { OnOk result (Gains (W.output writer.old) (W.output writer.new) (address_text address.now)) }
{
    if address.is_empty() {
        return writer.put(b"(empty)");
    }
    let mut skipped = 1;
    for byte in address {
        write_byte_after(writer, skipped, *byte)?;
        skipped = 0;
    }
    Ok(())
}

/// Writes a byte after a colon, which is left out if `skipped` is 1.
#[inline(always)]
#[tactic(auto, using(crate::proofs::Digits::one_digit))]
fn write_byte_after<W: Sink>(writer: &mut W, skipped: usize, byte: u8) -> Result<(), W::Error>
    requires { skipped ≤ 1 }
    ensures { OnOk result (Gains (W.output writer.old) (W.output writer.new) (drop skipped (codes ":") ++ byte_text byte)) }
{
    if skipped == 1 {
        return write_byte(writer, byte);
    }
    writer.put(&[b':', hex_digit(byte / 16), hex_digit(byte % 16)])
}

/// Writes bytes in hexadecimal, two digits each.
///
/// # Errors
///
/// That of the writer.
pub fn write_hex<W: Sink>(writer: &mut W, bytes: &[u8]) -> Result<(), W::Error>
    ensures { OnOk result (Gains (W.output writer.old) (W.output writer.new) (hex_text bytes.now)) }
{
    for byte in bytes {
        write_byte(writer, *byte)?;
    }
    Ok(())
}

#[tactic(auto, using(crate::proofs::Digits::one_digit))]
pub(crate) fn write_byte<W: Sink>(writer: &mut W, byte: u8) -> Result<(), W::Error>
    ensures { OnOk result (Gains (W.output writer.old) (W.output writer.new) (byte_text byte)) }
{
    writer.put(&[hex_digit(byte / 16), hex_digit(byte % 16)])
}

/// Writes a text after a separator.
pub(crate) fn write_after<W: Sink>(
    writer: &mut W,
    separator: &[u8],
    text: &[u8],
) -> Result<(), W::Error>
    ensures { OnOk result (Gains (W.output writer.old) (W.output writer.new) (separator.now ++ text.now)) }
{
    put_separator(writer, separator)?;
    writer.put(text)
}
