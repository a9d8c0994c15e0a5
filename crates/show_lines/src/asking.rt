//! Parses the command at the start of an input line.

ghost use Rattle.std.specs.Prelude.{◌≡◌, ◌≢◌, IfSome, IfNone, MatchOption};
ghost use Rattle.netlink_packet_route.specs.Family.{family_name};
ghost use Rattle.show_lines.specs.declared.asking.Asked.{Asked};
ghost use Rattle.show_lines.specs.Show.{IsCut, Asks, AsksNothing, IsSolidFirst};

use netlink_packet_route::Family;
use netlink_packet_route::hex_text::is_space;
use std::str;

/// The command of an input line.
#[derive(Clone, Copy)]
pub enum Asked {
    /// `message`: print the links of messages.
    Messages,
    /// A `Family` name: print the attributes of a list.
    Attributes(Family),
    /// `check` and a `Family` name: check whether a list is canonical.
    Verdict(Family),
}

impl Asked {
    /// Parses the command at the start of a line, which is its first word or its first two words. Returns the command
    /// and the rest of the line, or `None` if there is no valid command.
    pub(crate) fn from_line(text: &[u8]) -> Option<(Asked, &[u8])>
        ensures { MatchOption result (AsksNothing text.now) (λ found. Asks text.now found.0 found.1.now) }
    {
        let (word, rest) = cut_word(text);
        if word == b"message".as_slice() {
            return Some((Asked::Messages, rest));
        }
        if word == b"check".as_slice() {
            let (name, digits) = cut_word(without_space(rest));
            return match family_of(name) {
                Some(family) => Some((Asked::Verdict(family), digits)),
                None => None,
            };
        }
        match family_of(word) {
            Some(family) => Some((Asked::Attributes(family), rest)),
            None => None,
        }
    }
}

/// Returns the `Family` with this name, or `None` if there is no such name. Names that are not UTF-8 match none.
fn family_of(name: &[u8]) -> Option<Family>
    ensures found { IfSome result (λ family. name.now ≡ family_name family) }
    ensures none { IfNone result ((family : Family) → name.now ≢ family_name family) }
{
    match str::from_utf8(name) {
        Ok(name) => Family::from_name(name),
        Err(_) => None,
    }
}

/// Splits `text` at the first white space. Returns what precedes it, and the rest, which includes it.
fn cut_word(text: &[u8]) -> (&[u8], &[u8])
    ensures { IsCut text.now result.0.now result.1.now }
{
    let end = text.iter().position(|b| is_space(*b)).unwrap_or(text.len());
    text.split_at(end)
}

/// Returns `text` without leading white space.
fn without_space(text: &[u8]) -> &[u8]
    ensures { IsSolidFirst text.now result.now }
{
    let start = text
        .iter()
        .position(|b| !is_space(*b))
        .unwrap_or(text.len());
    &text[start..]
}
