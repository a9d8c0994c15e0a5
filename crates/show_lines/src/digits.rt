//! Decodes the hex digits of a line, and the marks that may be among them.

ghost use Rattle.std.specs.Prelude.{◌≡◌, ◌≤◌, ◌++◌, ◌∷◌, [], length, IfOk, OnOk};
ghost use Rattle.hex.specs.Hex.{is_hex_digit};
ghost use Rattle.netlink_packet_route.specs.HexText.{digits_of};
ghost use Rattle.show_lines.specs.Digits.{DecodesDigits, after, bad_at, begun, is_bad, is_mark, is_prefix, last_digit, plain, starts_prefixed, without_marks};

use hex::FromHexError;
use netlink_packet_route::hex_text::is_space;
use std::alloc::{AllocError, Global};

/// Why digits could not be decoded.
#[derive(Clone, Copy, Debug)]
pub(crate) enum DigitsError {
    /// An allocation failed.
    Memory,
    /// They are not valid hex: at this index is the first byte that is no digit, or the last digit, if their number is odd.
    BadHex { at: usize },
}

/// What precedes a byte of a text.
#[derive(Clone, Copy, Debug)]
pub(crate) enum Before {
    /// Neither of the others.
    Apart,
    /// The second digit of a byte, directly.
    Byte,
    /// The first digit of a byte.
    Digit,
    /// The `0` of a `0x`, directly.
    Zero,
}

impl Before {
    /// Returns whether a byte is skipped, if `rest` follows it: the `0` and the `x` of a `0x` in front of a byte, and a `:`
    /// behind a byte.
    fn is_mark(self, byte: u8, rest: &[u8]) -> bool
        ensures { result ≡ is_mark self byte rest.now }
    {
        match self {
            Before::Apart => is_prefix(byte, rest),
            Before::Byte => byte == b':' || is_prefix(byte, rest),
            Before::Digit => false,
            Before::Zero => true,
        }
    }

    /// Returns what precedes the byte after this one.
    fn after(self, byte: u8, rest: &[u8]) -> Before
        ensures { result ≡ after self byte rest.now }
    {
        match self {
            Before::Apart | Before::Byte => begun(byte, rest),
            Before::Digit => {
                if is_digit(byte) {
                    Before::Byte
                } else {
                    Before::Digit
                }
            }
            Before::Zero => Before::Apart,
        }
    }

    /// Returns the byte, or a space, if the byte is skipped.
    fn plain(self, byte: u8, rest: &[u8]) -> u8
        ensures { result ≡ plain self byte rest.now }
    {
        if self.is_mark(byte, rest) { b' ' } else { byte }
    }
}

/// Returns what precedes the byte after one that no byte has begun before.
fn begun(byte: u8, rest: &[u8]) -> Before
    ensures { result ≡ begun byte rest.now }
{
    if is_prefix(byte, rest) {
        Before::Zero
    } else if is_digit(byte) {
        Before::Digit
    } else {
        Before::Apart
    }
}

/// Returns whether a byte is the `0` of a `0x` in front of a digit, if `rest` follows it.
fn is_prefix(byte: u8, rest: &[u8]) -> bool
    ensures { result ≡ is_prefix byte rest.now }
{
    byte == b'0' && starts_prefixed(rest)
}

fn starts_prefixed(rest: &[u8]) -> bool
    ensures { result ≡ starts_prefixed rest.now }
{
    match rest {
        [x, digit, ..] => (*x == b'x' || *x == b'X') && is_digit(*digit),
        _ => false,
    }
}

/// Returns whether a byte is a hex digit.
fn is_digit(byte: u8) -> bool
    ensures { result ≡ is_hex_digit byte }
{
    matches!(byte, b'0'..=b'9' | b'A'..=b'F' | b'a'..=b'f')
}

/// Decodes a text that consists of hex digits (case-insensitive). Space, tab, CR and LF are ignored anywhere, `0x` in front of
/// a byte, and `:` behind one.
///
/// # Errors
///
/// `BadHex` if another byte is not a hex digit, or the number of digits is odd. `Memory` if an allocation fails.
pub(crate) fn decode(alloc: Global, text: &[u8]) -> Result<Vec<u8>, DigitsError>
    ensures { DecodesDigits text.now result }
{
    let digits = match digits(alloc, text) {
        Ok(digits) => digits,
        Err(_) => return Err(DigitsError::Memory),
    };
    match hex::decode(alloc, digits.as_slice()) {
        Ok(bytes) => Ok(bytes),
        Err(FromHexError::OutOfMemory) => Err(DigitsError::Memory),
        Err(_) => Err(DigitsError::BadHex { at: bad_at(text) }),
    }
}

/// Returns `text` without its white space and its marks.
fn digits(alloc: Global, text: &[u8]) -> Result<Vec<u8>, AllocError>
    ensures { IfOk result (λ digits. digits.items ≡ digits_of (without_marks text.now)) }
{
    let mut digits = Vec::with_capacity(alloc, text.len())?;
    let mut before = Before::Apart;
    let mut rest = text;
    while let Some((byte, behind)) = rest.split_first() {
        keep(&mut digits, before.plain(*byte, behind))?;
        before = before.after(*byte, behind);
        rest = behind;
    }
    Ok(digits)
}

/// Appends a byte, if it is not white space.
fn keep(digits: &mut Vec<u8>, byte: u8) -> Result<(), AllocError>
    ensures { OnOk result (digits.new.items ≡ digits.old.items ++ digits_of (byte ∷ [])) }
{
    if is_space(byte) {
        return Ok(());
    }
    digits.push(byte)?;
    Ok(())
}

/// Returns the index of the first byte that is no digit, no white space and no mark; if there is none, of the last digit.
pub(crate) fn bad_at(text: &[u8]) -> usize
    ensures value { result ≡ bad_at (without_marks text.now) }
    ensures most { result ≤ length text.now }
{
    let mut before = Before::Apart;
    let mut last = 0;
    let mut rest = text;
    while let Some((byte, behind)) = rest.split_first() {
        let at = text.len() - rest.len();
        let plain = before.plain(*byte, behind);
        if is_bad(plain) {
            return at;
        }
        last = last_digit(plain, at, last);
        before = before.after(*byte, behind);
        rest = behind;
    }
    last
}

/// Returns whether a byte is neither a digit nor white space.
fn is_bad(byte: u8) -> bool
    ensures { result ≡ is_bad byte }
{
    !is_digit(byte) && !is_space(byte)
}

/// Returns the index of the last digit, if a byte at an index follows one whose index is `last`.
fn last_digit(byte: u8, at: usize, last: usize) -> usize
    ensures { result ≡ last_digit byte at last }
{
    if is_digit(byte) { at } else { last }
}
