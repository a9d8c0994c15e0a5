//! IP addresses: IPv4 in dotted decimal, IPv6 as RFC 5952 has it.

ghost use Rattle.std.specs.Prelude.{◌≡◌, ◌<◌, ◌+◌, ◌≤◌, length, map, codes, OnOk};
ghost use Rattle.std.specs.Net.Addr.{ipv6_segments};
ghost use Rattle.std.specs.Net.Text as Text;
ghost use Rattle.link_show.specs.Sink.{Gains};
ghost use Rattle.link_show.specs.Octets.{ip6_text};
ghost use Rattle.link_show.specs.Text.{joined};

use crate::pieces::{Piece, hex_digit, put_pieces};
use crate::sink::Sink;
use std::net::Ipv6Addr;

/// Writes the four bytes of an IPv4 address, such as `10.0.0.1`.
///
/// # Errors
///
/// That of the writer.
pub fn write_ipv4<W: Sink>(writer: &mut W, address: &[u8]) -> Result<(), W::Error>
    requires { length address.now ≡ 4 }
    ensures { OnOk result (Gains (W.output writer.old) (W.output writer.new) (Text.ipv4_text address.now)) }
{
    put_pieces(
        writer,
        &[
            Piece::Number(address[0] as u64),
            Piece::Text("."),
            Piece::Number(address[1] as u64),
            Piece::Text("."),
            Piece::Number(address[2] as u64),
            Piece::Text("."),
            Piece::Number(address[3] as u64),
        ],
    )
}

/// Writes the sixteen bytes of an IPv6 address, such as `2001:db8::1` or `::ffff:10.0.0.1`.
///
/// # Errors
///
/// That of the writer.
#[tactic(auto, using(crate::proofs::Segments::low_bytes))]
pub fn write_ipv6<W: Sink>(writer: &mut W, address: &[u8]) -> Result<(), W::Error>
    requires { length address.now ≡ 16 }
    ensures { OnOk result (Gains (W.output writer.old) (W.output writer.new) (ip6_text address.now)) }
{
    let octets: Result<[u8; 16], _> = address.try_into();
    write_mapped(writer, Ipv6Addr::from_octets(octets.unwrap()))
}

/// Writes an IPv6 address; one that stands for an IPv4 address ends in it.
#[tactic(auto, using(crate::proofs::Segments::mapped_steps), unfolding(std::specs::Net::Text::ipv6_text))]
fn write_mapped<W: Sink>(writer: &mut W, address: Ipv6Addr) -> Result<(), W::Error>
    ensures { OnOk result (Gains (W.output writer.old) (W.output writer.new)
        (Text.ipv6_text (ipv6_segments address))) }
{
    match address.to_ipv4_mapped() {
        Some(mapped) => {
            writer.put(b"::ffff:")?;
            write_ipv4(writer, &mapped.octets())
        }
        None => write_groups(writer, &address.segments()),
    }
}

/// Writes segments, with `::` in place of the longest run of zeros, if it has two or more.
#[tactic(auto, using(crate::proofs::Segments::group_steps), unfolding(std::specs::Net::Text::hex_groups_text))]
fn write_groups<W: Sink>(writer: &mut W, segments: &[u16]) -> Result<(), W::Error>
    ensures { OnOk result (Gains (W.output writer.old) (W.output writer.new)
        (Text.hex_groups_text segments.now)) }
{
    let (start, count) = longest_zero_run(segments);
    if count > 1 {
        write_segments(writer, &segments[..start])?;
        writer.put(b"::")?;
        write_segments(writer, &segments[start + count..])
    } else {
        write_segments(writer, segments)
    }
}

/// Returns the start and the length of the longest run of zeros, of the first of that length.
#[tactic(auto, using(std::proofs::lemmas::Grind::common_steps))]
fn longest_zero_run(segments: &[u16]) -> (usize, usize)
    ensures value { result ≡ Text.longest_zero_run segments.now }
    ensures within { result.0 + result.1 ≤ length segments.now }
{
    let mut start = segments.len();
    let mut count = 0;
    let mut run = 0;
    for i in (0..segments.len()).rev() {
        run = if segments[i] == 0 { run + 1 } else { 0 };
        if run >= count {
            start = i;
            count = run;
        }
    }
    (start, count)
}

/// Writes segments, with colons between them.
#[tactic(auto, using(crate::proofs::Written::next_steps))]
fn write_segments<W: Sink>(writer: &mut W, segments: &[u16]) -> Result<(), W::Error>
    ensures { OnOk result (Gains (W.output writer.old) (W.output writer.new)
        (joined (codes ":") (map Text.hex segments.now))) }
{
    let mut separator = b"".as_slice();
    for segment in segments {
        writer.put(separator)?;
        write_segment(writer, *segment)?;
        separator = b":".as_slice();
    }
    Ok(())
}

/// Writes a segment in hexadecimal.
#[tactic(auto, unfolding(std::specs::Net::Text::hex))]
fn write_segment<W: Sink>(writer: &mut W, segment: u16) -> Result<(), W::Error>
    ensures { OnOk result (Gains (W.output writer.old) (W.output writer.new) (Text.hex segment)) }
{
    let digits = [
        hex_digit((segment / 0x1000) as u8),
        hex_digit((segment / 0x100 % 16) as u8),
        hex_digit((segment / 0x10 % 16) as u8),
        hex_digit((segment % 16) as u8),
    ];
    writer.put(&digits[leading_zero_digits(segment)..])
}

fn leading_zero_digits(segment: u16) -> usize
    ensures value { result ≡ Text.leading_zero_digits segment }
    ensures within { result < 4 }
{
    match segment {
        0x1000.. => 0,
        0x100.. => 1,
        0x10.. => 2,
        _ => 3,
    }
}
