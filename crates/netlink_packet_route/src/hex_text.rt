//! Texts of hex digits, as the programs read them.

ghost use Rattle.std.specs.Prelude.{◌≡◌, IfOk};
ghost use Rattle.netlink_packet_route.specs.HexText.{HexAnswers, digits_of, is_space};

use hex::FromHexError;
use std::alloc::{AllocError, Global};
use thiserror::Error;

/// Why a text could not be decoded.
#[derive(Debug, Drop, PartialEq, Eq, Error)]
pub enum HexError {
    /// An allocation failed.
    #[error("no memory")]
    Memory(#[from(alloc)] AllocError),
    /// The digits are not valid hex.
    #[error("bad hex")]
    BadHex,
}

/// Decodes a text that consists of hex digits (case-insensitive). Space, tab, CR and LF are ignored anywhere.
///
/// # Errors
///
/// `BadHex` if another character is not a hex digit, or the number of digits is odd. `Memory` if an allocation fails.
pub fn decode(alloc: Global, text: &[u8]) -> Result<Vec<u8>, HexError>
    ensures { HexAnswers text.now result }
{
    let digits = match digits(alloc, text) {
        Ok(digits) => digits,
        Err(error) => return Err(HexError::Memory(error)),
    };
    match hex::decode(alloc, digits.as_slice()) {
        Ok(bytes) => Ok(bytes),
        Err(FromHexError::OutOfMemory) => Err(HexError::Memory(AllocError)),
        Err(_) => Err(HexError::BadHex),
    }
}

/// Returns `text` without its space, tab, CR and LF bytes.
fn digits(alloc: Global, text: &[u8]) -> Result<Vec<u8>, AllocError>
    ensures { IfOk result (λ digits. digits.items ≡ digits_of text.now) }
{
    let mut digits = Vec::with_capacity(alloc, text.len())?;
    digits.extend(text.iter().copied().filter(|b| !is_space(*b)))?;
    Ok(digits)
}

/// Checks whether a byte is ignored in texts of hex digits: space, tab, CR or LF.
pub fn is_space(b: u8) -> bool
    ensures { result ≡ is_space b }
{
    matches!(b, b' ' | b'\t' | b'\r' | b'\n')
}
