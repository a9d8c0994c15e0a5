//! Errors that end an input.

ghost use Rattle.std.specs.Prelude.{◌≡◌, Some};
ghost use Rattle.link_capture.specs.ErrorText.{error_text, head_text, size_text, bytes_text};

use std::error::Error;
use std::fmt;

/// Why an input has no next unit. Lengths are in bytes.
#[derive(Clone, Copy, Debug, PartialEq, Eq)]
pub enum InputError {
    /// Only `left` bytes are left: fewer than `head` has.
    Short {
        head: Head,
        left: usize,
    },
    /// A length is less than `least`.
    Small {
        size: Size,
        length: usize,
        least: usize,
    },
    /// A length is greater than 1,048,576.
    Large {
        size: Size,
        length: usize,
    },
    /// A length is greater than `left`, the number of bytes left.
    Overrun {
        size: Size,
        length: usize,
        left: usize,
    },
    /// The length of a block is no multiple of 4.
    Odd {
        length: usize,
    },
    /// The two lengths of a block differ.
    Unequal {
        first: usize,
        last: u32,
    },
    /// A section header has no byte-order magic.
    NoMagic,
    /// The version of a pcap file is not 2.4.
    PcapVersion {
        major: u16,
        minor: u16,
    },
    /// The version of a pcapng section is neither 1.0 nor 1.2.
    PcapngVersion {
        major: u16,
        minor: u16,
    },
    /// The link type of a pcap file is not 253. Bits of its field that are about the frame check sequence are left out.
    LinkType {
        link_type: u32,
    },
    /// A block of type 2 or 3, which may have a packet, but is obsolete or has no time.
    Unread {
        kind: u32,
    },
    /// A section describes more than 256 interfaces.
    Interfaces,
    /// An option of an interface has `length` bytes, but only `left` are left.
    OptionOverrun {
        code: u16,
        length: u16,
        left: usize,
    },
    /// The option `if_tsresol` has not one byte.
    ResolutionLength {
        length: usize,
    },
    /// The option `if_tsresol` is not a power of ten from 0 to 9.
    Resolution {
        value: u8,
    },
    /// The option `if_tsoffset` has not eight bytes.
    OffsetLength {
        length: usize,
    },
    /// A packet is from an interface that its section does not describe.
    Interface {
        index: u32,
    },
}

/// What a unit begins with.
#[derive(Clone, Copy, Debug, PartialEq, Eq)]
pub enum Head {
    /// The header of a pcap file, 24 bytes.
    Pcap,
    /// The header of a record of a pcap file, 16 bytes.
    Record,
    /// The type and the two lengths of a block of a pcapng file, 12 bytes.
    Block,
    /// The header of a message, 16 bytes.
    Message,
}

/// A length that an input has.
#[derive(Clone, Copy, Debug, PartialEq, Eq)]
pub enum Size {
    /// That of a record of a pcap file, with its header.
    Record,
    /// That of a block of a pcapng file.
    Block,
    /// That of a section header of a pcapng file.
    Section,
    /// That of an interface description of a pcapng file.
    Interface,
    /// That of an enhanced packet of a pcapng file.
    Packet,
    /// That of the bytes of an enhanced packet.
    Captured,
    /// `nlmsg_len`.
    Message,
}

impl fmt::Display for Head {
    ghost output = { λ head. Some (head_text head) };

    fn fmt<W: fmt::Write>(&self, f: &mut fmt::Formatter<W>) -> fmt::Result {
        f.write_str(match self {
            Head::Pcap => ", too few for a pcap header",
            Head::Record => " left, too few for a record header",
            Head::Block => " left, too few for a block",
            Head::Message => " left, too few for a message header",
        })
    }
}

impl fmt::Display for Size {
    ghost output = { λ size. Some (size_text size) };

    fn fmt<W: fmt::Write>(&self, f: &mut fmt::Formatter<W>) -> fmt::Result {
        f.write_str(match self {
            Size::Record => "record length",
            Size::Block => "block length",
            Size::Section => "section block length",
            Size::Interface => "interface block length",
            Size::Packet => "packet block length",
            Size::Captured => "captured length",
            Size::Message => "nlmsg_len",
        })
    }
}

/// A number of bytes, as a text: `1 byte` or `15 bytes`.
#[derive(Clone, Copy)]
pub struct Bytes(pub usize);

impl fmt::Display for Bytes {
    ghost output = { λ bytes. Some (bytes_text bytes.0) };

    fn fmt<W: fmt::Write>(&self, f: &mut fmt::Formatter<W>) -> fmt::Result {
        match self.0 {
            1 => f.write_str("1 byte"),
            count => write!(f, "{count} bytes"),
        }
    }
}

impl fmt::Display for InputError {
    ghost output = { λ error. Some (error_text error) };

    fn fmt<W: fmt::Write>(&self, f: &mut fmt::Formatter<W>) -> fmt::Result {
        match *self {
            InputError::Short { head, left } => write!(f, "{}{head}", Bytes(left)),
            InputError::Small {
                size,
                length,
                least,
            } => write!(f, "{size} {length} is below {least}"),
            InputError::Large { size, length } => write!(f, "{size} {length} is above 1048576"),
            InputError::Overrun { size, length, left } => {
                write!(f, "{size} {length} exceeds the {} left", Bytes(left))
            }
            InputError::Odd { length } => write!(f, "block length {length} is not a multiple of 4"),
            InputError::Unequal { first, last } => write!(
                f,
                "block lengths {first} and {last} differ"
            ),
            InputError::NoMagic => f.write_str("no byte-order magic"),
            InputError::PcapVersion { major, minor } => {
                write!(f, "pcap version {major}.{minor}, expected 2.4")
            }
            InputError::PcapngVersion { major, minor } => {
                write!(f, "pcapng version {major}.{minor}, expected 1.0")
            }
            InputError::LinkType { link_type } => write!(f, "link type {link_type}, expected 253"),
            InputError::Unread { kind } => write!(f, "block type {kind} is not read"),
            InputError::Interfaces => f.write_str("more than 256 interfaces"),
            InputError::OptionOverrun { code, length, left } => {
                write!(
                    f,
                    "option {code} has {}, but {left} are left",
                    Bytes(length as usize)
                )
            }
            InputError::ResolutionLength { length } => {
                write!(f, "if_tsresol has {}, expected 1", Bytes(length))
            }
            InputError::Resolution { value } => write!(f, "if_tsresol {value} is above 9"),
            InputError::OffsetLength { length } => {
                write!(f, "if_tsoffset has {}, expected 8", Bytes(length))
            }
            InputError::Interface { index } => write!(f, "interface {index} is not described"),
        }
    }
}

impl Error for InputError {}
