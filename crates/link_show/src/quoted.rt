//! Bytes between quotes.

ghost use Rattle.std.specs.Prelude.{OnOk};
ghost use Rattle.link_show.specs.Sink.{Gains};
ghost use Rattle.std.specs.List.{flat_map};
ghost use Rattle.link_show.specs.Quoted.{quoted_byte, quoted};

use crate::octets::write_byte;
use crate::sink::Sink;

/// Writes bytes between quotes: printable ASCII characters as they are, but `"` and `\` after a backslash, and every other
/// byte as `\xNN`.
///
/// # Errors
///
/// That of the writer.
pub fn write_quoted<W: Sink>(writer: &mut W, bytes: &[u8]) -> Result<(), W::Error>
    ensures { OnOk result (Gains (W.output writer.old) (W.output writer.new) (quoted bytes.now)) }
{
    writer.put(b"\"")?;
    write_quoted_bytes(writer, bytes)?;
    writer.put(b"\"")
}

fn write_quoted_bytes<W: Sink>(writer: &mut W, bytes: &[u8]) -> Result<(), W::Error>
    ensures { OnOk result (Gains (W.output writer.old) (W.output writer.new) (flat_map quoted_byte bytes.now)) }
{
    for byte in bytes {
        write_quoted_byte(writer, *byte)?;
    }
    Ok(())
}

fn write_quoted_byte<W: Sink>(writer: &mut W, byte: u8) -> Result<(), W::Error>
    ensures { OnOk result (Gains (W.output writer.old) (W.output writer.new) (quoted_byte byte)) }
{
    match byte {
        b'"' => writer.put(b"\\\""),
        b'\\' => writer.put(b"\\\\"),
        b' '..=b'~' => writer.put(&[byte]),
        _ => {
            writer.put(b"\\x")?;
            write_byte(writer, byte)
        }
    }
}
