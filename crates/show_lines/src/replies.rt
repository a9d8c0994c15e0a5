//! What is printed in place of a run.

ghost use Rattle.std.specs.Prelude.{◌≡◌};
ghost use Rattle.show_lines.specs.Arguments.{reply_status, reply_text};

use netlink_packet_route::with_names;

/// The usage line.
pub const USAGE: &str =
    "usage: nlshow [--format plain|debug|json] [--check] [--brief] [--raw] [FILE].. | --help | --version\n";

/// The help text.
const HELP: &str = with_names!(
    "\
usage: nlshow [--format plain|debug|json] [--check] [--brief] [--raw] [FILE].. | --help | --version

Prints netlink messages about links, and lists of their attributes.

  --format plain  print text for people (default)
  --format debug  print values as Rust's `Debug` does
  --format json   print a JSON document for each message
  --check         report whether each list is canonical
  --brief         print only the main attributes of links
  --raw           read messages, one after another, in place of lines and captures
  -h, --help      print this text
  -V, --version   print the version

Each FILE, or standard input, is a capture (pcap or pcapng), or has lines. Each line is one of
  FAMILY HEX        the bytes of a list
  check FAMILY HEX  the same; reports whether the list is canonical
  message HEX       the bytes of messages
FAMILY is ",
    ".
White space separates the words. Blank lines, and lines that begin with #, are ignored. The FILE - is standard input.

Status: 0 if all input is right, 1 if not, 2 for a wrong argument or a file in another format, 4 if an allocation fails, 5 if
reading or writing fails.
"
);

/// The name and the version of the program.
pub const VERSION: &str = "nlshow 0.3.0\n";

/// What is printed in place of a run.
#[derive(Debug, Drop)]
pub enum Reply {
    /// The help text.
    Help,
    /// The version.
    Version,
    /// What is wrong with the arguments. Contains a line about the error, and the usage line.
    Wrong(String),
}

impl Reply {
    /// Returns the text to print.
    pub fn text(&self) -> &str
        ensures { result.now ≡ reply_text self.now }
    {
        match self {
            Reply::Help => HELP,
            Reply::Version => VERSION,
            Reply::Wrong(text) => text.as_str(),
        }
    }

    /// Returns the exit status: 2 for a wrong argument, otherwise 0.
    pub fn status(&self) -> u8
        ensures { result ≡ reply_status self.now }
    {
        match self {
            Reply::Help | Reply::Version => 0,
            Reply::Wrong(_) => 2,
        }
    }
}
