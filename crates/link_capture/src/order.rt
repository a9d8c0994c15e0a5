//! Numbers in the byte order of a file.

ghost use Rattle.std.specs.Prelude.{◌≡◌, ◌+◌, ◌≤◌, length};
ghost use Rattle.link_capture.specs.Order.{number_at, signed_at};

use byteorder::{BigEndian, ByteOrder, LittleEndian};

/// A byte order.
#[derive(Clone, Copy, Debug, PartialEq, Eq)]
pub enum Order {
    /// The lowest byte first.
    Little,
    /// The highest byte first.
    Big,
}

impl Order {
    /// Returns the `u16` at `bytes[at..at + 2]`.
    pub(crate) fn u16_at(self, bytes: &[u8], at: usize) -> u16
        requires { at + 2 ≤ length bytes.now }
        ensures { result ≡ number_at self 2 at bytes.now }
    {
        match self {
            Order::Little => LittleEndian::read_u16(&bytes[at..]),
            Order::Big => BigEndian::read_u16(&bytes[at..]),
        }
    }

    /// Returns the `u32` at `bytes[at..at + 4]`.
    pub(crate) fn u32_at(self, bytes: &[u8], at: usize) -> u32
        requires { at + 4 ≤ length bytes.now }
        ensures { result ≡ number_at self 4 at bytes.now }
    {
        match self {
            Order::Little => LittleEndian::read_u32(&bytes[at..]),
            Order::Big => BigEndian::read_u32(&bytes[at..]),
        }
    }

    /// Returns the `i64` at `bytes[at..at + 8]`.
    pub(crate) fn i64_at(self, bytes: &[u8], at: usize) -> i64
        requires { at + 8 ≤ length bytes.now }
        ensures { result ≡ signed_at self at bytes.now }
    {
        match self {
            Order::Little => LittleEndian::read_i64(&bytes[at..]),
            Order::Big => BigEndian::read_i64(&bytes[at..]),
        }
    }
}
