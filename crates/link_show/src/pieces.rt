//! Texts in pieces: words and numbers.

ghost use Rattle.std.specs.Prelude.{◌≡◌, ◌<◌, ◌≤◌, false, length, drop, OnOk};
ghost use Rattle.std.specs.Fmt.{decimal, digit_glyph, signed_decimal};
ghost use Rattle.link_show.specs.Sink.{Gains};
ghost use Rattle.link_show.specs.Text.{hex};
ghost use Rattle.link_show.specs.Pieces.{piece_text, pieces_text};

use crate::sink::Sink;
use itoa::Buffer;

/// A piece of a text.
#[derive(Clone, Copy)]
pub(crate) enum Piece<'a> {
    /// Words.
    Text(&'a str),
    /// A number, in decimal.
    Number(u64),
    /// A number that may be negative, in decimal.
    Signed(i32),
    /// A number, in hexadecimal.
    Hex(u64),
}

/// Writes the pieces of a text.
#[inline(always)]
#[tactic(auto, using(crate::proofs::Pieced::piece_steps))]
pub(crate) fn put_pieces<W: Sink>(writer: &mut W, pieces: &[Piece<'_>]) -> Result<(), W::Error>
    ensures { OnOk result (Gains (W.output writer.old) (W.output writer.new) (pieces_text pieces.now)) }
{
    for piece in pieces {
        put_piece(writer, *piece)?;
    }
    Ok(())
}

#[inline(always)]
fn put_piece<W: Sink>(writer: &mut W, piece: Piece<'_>) -> Result<(), W::Error>
    ensures { OnOk result (Gains (W.output writer.old) (W.output writer.new) (piece_text piece.entry)) }
{
    match piece {
        Piece::Text(text) => writer.put(text.as_bytes()),
        Piece::Number(number) => put_number(writer, number),
        Piece::Signed(number) => put_signed(writer, number),
        Piece::Hex(number) => put_hex(writer, number),
    }
}

/// Writes a number in decimal. Most have one digit.
#[inline(always)]
#[tactic(auto, using(std::proofs::lemmas::Fmt::decimal_digit))]
pub(crate) fn put_number<W: Sink>(writer: &mut W, number: u64) -> Result<(), W::Error>
    ensures { OnOk result (Gains (W.output writer.old) (W.output writer.new) (decimal number)) }
{
    if number < 10 {
        return writer.put(&[b'0' + number as u8]);
    }
    put_digits(writer, number)
}

#[inline(never)]
fn put_digits<W: Sink>(writer: &mut W, number: u64) -> Result<(), W::Error>
    ensures { OnOk result (Gains (W.output writer.old) (W.output writer.new) (decimal number)) }
{
    writer.put(Buffer::new().format(number).as_bytes())
}

/// Writes a number that may be negative, in decimal.
#[inline]
pub(crate) fn put_signed<W: Sink>(writer: &mut W, number: i32) -> Result<(), W::Error>
    ensures { OnOk result (Gains (W.output writer.old) (W.output writer.new) (signed_decimal number)) }
{
    if number >= 0 {
        return put_number(writer, number as u64);
    }
    writer.put(Buffer::new().format(number).as_bytes())
}

/// Writes a separator, which is mostly empty or one byte.
#[inline(always)]
pub(crate) fn put_separator<W: Sink>(writer: &mut W, separator: &[u8]) -> Result<(), W::Error>
    ensures { OnOk result (Gains (W.output writer.old) (W.output writer.new) separator.now) }
{
    match separator {
        [] => Ok(()),
        [byte] => writer.put(&[*byte]),
        _ => writer.put(separator),
    }
}

/// Writes a number in hexadecimal.
pub(crate) fn put_hex<W: Sink>(writer: &mut W, number: u64) -> Result<(), W::Error>
    ensures { OnOk result (Gains (W.output writer.old) (W.output writer.new) (hex number)) }
{
    let mut digits = [0; 64];
    let start = store_hex(number, &mut digits);
    writer.put(&digits[start..])
}

/// Stores the hexadecimal digits of a number at the end of a buffer. Returns the place of the first.
#[tactic(auto, using(crate::proofs::Digits::digit_steps))]
fn store_hex(number: u64, digits: &mut [u8]) -> usize
    requires { length digits.old ≡ 64 }
    ensures within { result ≤ 64 }
    ensures stored { drop result digits.new ≡ hex number }
{
    let mut left = number;
    for at in (0..64).rev() {
        digits[at] = hex_digit((left % 16) as u8);
        left /= 16;
        if left == 0 {
            return at;
        }
    }
    0
}

/// Returns a hexadecimal digit.
pub(crate) fn hex_digit(digit: u8) -> u8
    requires { digit < 16 }
    ensures { result ≡ digit_glyph false digit }
{
    if digit < 10 {
        b'0' + digit
    } else {
        b'a' + (digit - 10)
    }
}
