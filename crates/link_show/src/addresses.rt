//! Lists of IP addresses.

ghost use Rattle.std.specs.Prelude.{◌≡◌, IfOk, OnOk};
ghost use Rattle.link_show.specs.Sink.{Gains};
ghost use Rattle.link_show.specs.List.{ip_text, address_after, separator_after, ShowsAddresses, WritesOut};

use crate::ip::{write_ipv4, write_ipv6};
use crate::octets::write_hex;
use crate::sink::Sink;
use link_base::NlaBuffer;

/// Writes the addresses of `size` bytes in a list, separated by spaces; `(empty)` if there are none.
///
/// # Errors
///
/// That of the writer.
pub fn write_addresses<W: Sink>(writer: &mut W, list: &[u8], size: usize) -> Result<(), W::Error>
    ensures { OnOk result (WritesOut (ShowsAddresses size list.now) (W.output writer.old) (W.output writer.new)) }
{
    let mut separator = b"".as_slice();
    let mut rest = list;
    while let Ok((attribute, after)) = NlaBuffer::split_first(rest) {
        separator = write_address_of(writer, separator, attribute.value(), size)?;
        rest = after;
    }
    if separator.is_empty() {
        return writer.put(b"(empty)");
    }
    Ok(())
}

/// Writes an IP address after a separator, if it has `size` bytes. Returns the separator that precedes the next one.
fn write_address_of<'a, W: Sink>(
    writer: &mut W,
    separator: &'a [u8],
    address: &[u8],
    size: usize,
) -> Result<&'a [u8], W::Error>
    ensures { IfOk result (λ next. Gains (W.output writer.old) (W.output writer.new)
        (address_after size address.now separator.now) × (next.now ≡ separator_after size address.now separator.now)) }
{
    if address.len() != size {
        return Ok(separator);
    }
    writer.put(separator)?;
    write_ip(writer, address)?;
    Ok(b" ".as_slice())
}

/// Writes an IP address.
///
/// # Errors
///
/// That of the writer.
#[tactic(auto, unfolding(crate::specs::List::ip_text))]
pub fn write_ip<W: Sink>(writer: &mut W, address: &[u8]) -> Result<(), W::Error>
    ensures { OnOk result (Gains (W.output writer.old) (W.output writer.new) (ip_text address.now)) }
{
    match address.len() {
        4 => write_ipv4(writer, address),
        16 => write_ipv6(writer, address),
        _ => write_hex(writer, address),
    }
}
