//! Forms of inputs: how the next unit is read.

ghost use Rattle.std.specs.Prelude.{◌≡◌, ◌&&◌, length, map, nat_eq, nat_lt, option_map};
ghost use Rattle.std.specs.List.{find, list_any, starts_with};
ghost use Rattle.link_capture.specs.Form.{form_by_magic, form_of, form_of_others, is_open, needs_more};

use crate::messages::{begins_stream, is_stream};
use crate::order::Order;
use crate::other_format::OtherFormat;

/// The type of a section header, with which a pcapng file begins. It reads the same in either order.
pub(crate) const SECTION: u32 = 0x0a0d_0d0a;

/// How the next unit of an input is read.
#[derive(Clone, Copy, Debug, PartialEq, Eq)]
pub enum Form {
    /// The next unit is the header of a pcap file, in which times have so many `digits`: 6 or 9.
    Pcap { order: Order, digits: u8 },
    /// The units are records of a pcap file.
    Records { order: Order, digits: u8 },
    /// The units are blocks of a pcapng file. `order` is that of the section.
    Blocks { order: Order },
    /// The units are messages.
    Messages,
}

/// A magic number, and what it tells: the form of a capture, or another format.
type Magic = (&'static [u8], Result<Form, OtherFormat>);

/// The magic numbers, which are the first bytes of files.
const MAGICS: [Magic; 21] = [
    (
        &[0xd4, 0xc3, 0xb2, 0xa1],
        Ok(Form::Pcap {
            order: Order::Little,
            digits: 6,
        }),
    ),
    (
        &[0xa1, 0xb2, 0xc3, 0xd4],
        Ok(Form::Pcap {
            order: Order::Big,
            digits: 6,
        }),
    ),
    (
        &[0x4d, 0x3c, 0xb2, 0xa1],
        Ok(Form::Pcap {
            order: Order::Little,
            digits: 9,
        }),
    ),
    (
        &[0xa1, 0xb2, 0x3c, 0x4d],
        Ok(Form::Pcap {
            order: Order::Big,
            digits: 9,
        }),
    ),
    (
        &[0x0a, 0x0d, 0x0d, 0x0a],
        Ok(Form::Blocks {
            order: Order::Little,
        }),
    ),
    (&[0x1f, 0x8b], Err(OtherFormat::Gzip)),
    (&[0xfd, 0x37, 0x7a, 0x58, 0x5a, 0x00], Err(OtherFormat::Xz)),
    (&[0x28, 0xb5, 0x2f, 0xfd], Err(OtherFormat::Zstd)),
    (b"BZh1", Err(OtherFormat::Bzip2)),
    (b"BZh2", Err(OtherFormat::Bzip2)),
    (b"BZh3", Err(OtherFormat::Bzip2)),
    (b"BZh4", Err(OtherFormat::Bzip2)),
    (b"BZh5", Err(OtherFormat::Bzip2)),
    (b"BZh6", Err(OtherFormat::Bzip2)),
    (b"BZh7", Err(OtherFormat::Bzip2)),
    (b"BZh8", Err(OtherFormat::Bzip2)),
    (b"BZh9", Err(OtherFormat::Bzip2)),
    (&[0x04, 0x22, 0x4d, 0x18], Err(OtherFormat::Lz4)),
    (&[0x34, 0xcd, 0xb2, 0xa1], Err(OtherFormat::ModifiedPcap)),
    (&[0xa1, 0xb2, 0xcd, 0x34], Err(OtherFormat::ModifiedPcap)),
    (b"snoop\0\0\0", Err(OtherFormat::Snoop)),
];

impl Form {
    /// Returns the form of a pcap or pcapng file by its first bytes, or `None` for lines: if `bytes` begins with no known magic
    /// number, and no message.
    ///
    /// # Errors
    ///
    /// The format of a file that is neither, but known.
    pub fn of_file(bytes: &[u8]) -> Result<Option<Form>, OtherFormat>
        ensures { result ≡ form_of bytes.now }
    {
        match form_by_magic(&MAGICS, bytes) {
            Ok(None) => of_others(bytes),
            known => known,
        }
    }

    /// Returns whether `bytes` are too few to tell the form of a file: fewer than those of a magic number, or of the length
    /// and the type of a message, that begins with them.
    pub fn needs_more(bytes: &[u8]) -> bool
        ensures { result ≡ needs_more bytes.now }
    {
        begin_one(&MAGICS, bytes) || is_open(form_by_magic(&MAGICS, bytes)) && begins_stream(bytes)
    }
}

/// Returns what a file is that begins with no magic number.
fn of_others(bytes: &[u8]) -> Result<Option<Form>, OtherFormat>
    ensures { result ≡ form_of_others bytes.now }
{
    if is_stream(bytes) {
        return Err(OtherFormat::Messages);
    }
    Ok(None)
}

/// Returns whether no magic number tells what a file is.
fn is_open(known: Result<Option<Form>, OtherFormat>) -> bool
    ensures { result ≡ is_open known }
{
    matches!(known, Ok(None))
}

/// Returns what `bytes` tell by these magic numbers, as `Form::of_file` does.
fn form_by_magic(magics: &[Magic], bytes: &[u8]) -> Result<Option<Form>, OtherFormat>
    ensures { result ≡ form_by_magic (map (λ m. (m.0.now, m.1)) magics.now) bytes.now }
{
    found_in(magics, bytes).transpose()
}

/// Returns what the first of these magic numbers tells with which `bytes` begin.
fn found_in(magics: &[Magic], bytes: &[u8]) -> Option<Result<Form, OtherFormat>>
    ensures { result ≡ option_map (λ m. m.1) (find (λ m. starts_with nat_eq bytes.now m.0.now) magics.now) }
{
    let (_, known) = magics.iter().find(|(magic, _)| bytes.starts_with(magic))?;
    Some(*known)
}

/// Returns whether `bytes` are a proper prefix of one of these magic numbers.
fn begin_one(magics: &[Magic], bytes: &[u8]) -> bool
    ensures { result ≡ list_any (λ m. nat_lt (length bytes.now) (length m.0.now) && starts_with nat_eq m.0.now bytes.now) magics.now }
{
    magics.iter().any(|(magic, _)| begins(magic, bytes))
}

/// Returns whether `bytes` are a proper prefix of a magic number.
fn begins(magic: &[u8], bytes: &[u8]) -> bool
    ensures { result ≡ (nat_lt (length bytes.now) (length magic.now) && starts_with nat_eq magic.now bytes.now) }
{
    bytes.len() < magic.len() && magic.starts_with(bytes)
}
