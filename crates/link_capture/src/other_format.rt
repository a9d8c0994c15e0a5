//! Formats of files that are not read, but known.

ghost use Rattle.std.specs.Prelude.{◌≡◌, Some};
ghost use Rattle.link_capture.specs.OtherFormat.{format_text};

use std::error::Error;
use std::fmt;

/// What a file is, by its first bytes, if it is neither pcap nor pcapng, and not lines. Its text also says what to do.
#[derive(Clone, Copy, Debug, PartialEq, Eq)]
pub enum OtherFormat {
    /// `gzip` (RFC 1952): 1f 8b.
    Gzip,
    /// `xz`: fd 37 7a 58 5a 00.
    Xz,
    /// Zstandard (RFC 8878): 28 b5 2f fd.
    Zstd,
    /// `bzip2`: `BZh` and a digit from 1 to 9.
    Bzip2,
    /// The frame format of `lz4`: 04 22 4d 18.
    Lz4,
    /// pcap with longer headers of records (a1b2cd34), in either order.
    ModifiedPcap,
    /// Captures of `snoop` (RFC 1761).
    Snoop,
    /// Netlink messages, one after another, as `rtmon` writes them: the first has a length from 16 to 65,536, and a type from
    /// NLMSG_NOOP to NLMSG_OVERRUN, 15 or from RTM_BASE to RTM_MAX.
    Messages,
}

impl fmt::Display for OtherFormat {
    ghost output = { λ format. Some (format_text format) };

    fn fmt<W: fmt::Write>(&self, f: &mut fmt::Formatter<W>) -> fmt::Result {
        f.write_str(match self {
            OtherFormat::Gzip => "gzip data: decompress it first, as in zcat FILE | nlshow",
            OtherFormat::Xz => "xz data: decompress it first, as in xzcat FILE | nlshow",
            OtherFormat::Zstd => "zstd data: decompress it first, as in zstdcat FILE | nlshow",
            OtherFormat::Bzip2 => "bzip2 data: decompress it first, as in bzcat FILE | nlshow",
            OtherFormat::Lz4 => "lz4 data: decompress it first, as in lz4cat FILE | nlshow",
            OtherFormat::ModifiedPcap => {
                "modified pcap file: convert it first, as in editcap -F pcapng FILE - | nlshow"
            }
            OtherFormat::Snoop => {
                "snoop file: convert it first, as in editcap -F pcapng FILE - | nlshow"
            }
            OtherFormat::Messages => {
                "raw netlink messages: read them with --raw, as in nlshow --raw FILE"
            }
        })
    }
}

impl Error for OtherFormat {}
