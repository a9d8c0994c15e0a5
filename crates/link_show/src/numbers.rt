//! Numbers, with what they count.

ghost use Rattle.std.specs.Prelude.{◌≡◌, ◌≤◌, ◌+◌, ◌*◌, length, map, codes, OnOk};
ghost use Rattle.std.specs.Int.{w32, cast_signed};
ghost use Rattle.link_show.specs.Sink.{Gains};
ghost use Rattle.link_base.specs.declared.rows.label.Quantity.TheVariants.{ClockTicks};
ghost use Rattle.link_show.specs.Number.{number_text, unit_of, item_text, array_text};
ghost use Rattle.link_show.specs.Text.{joined};
ghost use Rattle.link_base.specs.Forms.{bytes_in, size_in};
ghost use Rattle.link_base.specs.Layout.{number_at, numbers_at, numbers_of};

use crate::pieces::{put_hex, put_number, put_separator, put_signed};
use crate::sink::Sink;
use link_base::FixedSize;
use link_base::rows::form::{ArrayOf, Order, Width};
use link_base::rows::label::Quantity;
use link_base::views::content_by::number_in;

/// Writes a number with what it counts, such as `100 ms`, `1500 (15.00 s)` or `ifindex 3`.
///
/// # Errors
///
/// That of the writer.
pub fn write_number<W: Sink>(
    writer: &mut W,
    quantity: Quantity,
    number: u64,
) -> Result<(), W::Error>
    ensures { OnOk result (Gains (W.output writer.old) (W.output writer.new) (number_text quantity number)) }
{
    match quantity {
        Quantity::Number => put_number(writer, number),
        Quantity::ClockTicks => write_ticks(writer, number),
        Quantity::InterfaceIndex => {
            writer.put(b"ifindex ")?;
            put_number(writer, number)
        }
        Quantity::Mask => {
            put_number(writer, number)?;
            writer.put(b" (0x")?;
            put_hex(writer, number)?;
            writer.put(b")")
        }
        _ => {
            put_number(writer, number)?;
            writer.put(unit_of(quantity).as_bytes())
        }
    }
}

/// Returns what is written after a number that counts this, or after several.
fn unit_of(quantity: Quantity) -> &'static str
    ensures { result.now ≡ unit_of quantity }
{
    match quantity {
        Quantity::Milliseconds => " ms",
        Quantity::Seconds => " s",
        Quantity::BitsPerSecond => " bit/s",
        Quantity::Ohms => " ohm",
        Quantity::Nanoseconds => " ns",
        Quantity::Hertz => " Hz",
        _ => "",
    }
}

/// Writes an array of little-endian numbers, with spaces between them, and what they count after the last; `(empty)` if
/// there is none.
#[tactic(auto, unfolding(crate::specs::Number::array_text))]
pub(crate) fn write_array<W: Sink>(
    writer: &mut W,
    quantity: Quantity,
    of: ArrayOf,
    bytes: &[u8],
) -> Result<(), W::Error>
    ensures { OnOk result (Gains (W.output writer.old) (W.output writer.new)
        (array_text quantity of (numbers_of (size_in of) bytes.now))) }
{
    let count = bytes.len() / of.size();
    if count == 0 {
        return writer.put(b"(empty)");
    }
    write_numbers(writer, of, count, bytes)?;
    writer.put(unit_of(quantity).as_bytes())
}

/// Writes the first `count` numbers of an array, with spaces between them.
#[tactic(auto, using(crate::proofs::Arrays::numbers_more, crate::proofs::Written::next_steps))]
fn write_numbers<W: Sink>(
    writer: &mut W,
    of: ArrayOf,
    count: usize,
    bytes: &[u8],
) -> Result<(), W::Error>
    requires { count * size_in of ≤ length bytes.now }
    ensures { OnOk result (Gains (W.output writer.old) (W.output writer.new)
        (joined (codes " ") (map (item_text of) (numbers_at (size_in of) count 0 bytes.now)))) }
{
    let mut separator = b"".as_slice();
    for i in 0..count {
        put_separator(writer, separator)?;
        write_item(writer, of, i, bytes)?;
        separator = b" ".as_slice();
    }
    Ok(())
}

/// Writes the number at an index of an array.
pub(crate) fn write_item<W: Sink>(
    writer: &mut W,
    of: ArrayOf,
    index: usize,
    bytes: &[u8],
) -> Result<(), W::Error>
    requires { (index + 1) * size_in of ≤ length bytes.now }
    ensures { OnOk result (Gains (W.output writer.old) (W.output writer.new)
        (item_text of (number_at (size_in of) (index * size_in of) bytes.now))) }
{
    match of {
        ArrayOf::I32 => put_signed(writer, signed_at(index, bytes)),
        _ => put_number(writer, number_at(of.width(), index, bytes)),
    }
}

/// Reads the number at an index of an array of little-endian signed numbers of four bytes.
pub fn signed_at(index: usize, bytes: &[u8]) -> i32
    requires { (index + 1) * 4 ≤ length bytes.now }
    ensures { result ≡ cast_signed w32 (number_at 4 (index * 4) bytes.now) }
{
    let at = index * 4;
    i32::load(&bytes[at..at + 4])
}

/// Reads the number at an index of an array of little-endian unsigned numbers.
pub fn number_at(width: Width, index: usize, bytes: &[u8]) -> u64
    requires { (index + 1) * bytes_in width ≤ length bytes.now }
    ensures { result ≡ number_at (bytes_in width) (index * bytes_in width) bytes.now }
{
    let at = index * width.size();
    number_in(width, Order::Little, &bytes[at..at + width.size()])
}

/// Writes clock ticks, which are hundredths of a second, and how many seconds they are.
#[tactic(auto, using(std::proofs::lemmas::Grind::common_steps, std::proofs::lemmas::Fmt::decimal_digit, crate::specs::Gained::chains))]
fn write_ticks<W: Sink>(writer: &mut W, ticks: u64) -> Result<(), W::Error>
    ensures { OnOk result (Gains (W.output writer.old) (W.output writer.new) (number_text ClockTicks ticks)) }
{
    let tenths = b'0' + (ticks / 10 % 10) as u8;
    let hundredths = b'0' + (ticks % 10) as u8;
    put_number(writer, ticks)?;
    writer.put(b" (")?;
    put_number(writer, ticks / 100)?;
    writer.put(&[b'.', tenths, hundredths, b' ', b's', b')'])
}
