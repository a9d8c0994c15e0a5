//! Numbers of enums, and sets of flags, by their names.

ghost use Rattle.std.specs.Prelude.{◌≡◌, OnOk, codes};
ghost use Rattle.std.specs.Fmt.{decimal};
ghost use Rattle.link_show.specs.Sink.{Gains};
ghost use Rattle.link_show.specs.Number.{beside};
ghost use Rattle.link_base.specs.Forms.{bytes_in};
ghost use Rattle.link_base.specs.Labels.{names_in};
ghost use Rattle.link_show.specs.Text.{after, joined};
ghost use Rattle.link_show.specs.Flags.{enum_text, flags_text, flag_words, last_word, unnamed};

use crate::octets::write_after;
use crate::pieces::{put_hex, put_number, put_separator};
use crate::sink::Sink;
use link_base::rows::form::Width;
use link_base::rows::label::{Name, name_of};

/// Writes the number of an enum: its name and the number, such as `802.3ad (4)`, or the number alone if it has no name.
///
/// # Errors
///
/// That of the writer.
#[tactic(auto, unfolding(crate::specs::Flags::enum_text))]
pub fn write_enum<W: Sink>(writer: &mut W, names: &[Name], number: u64) -> Result<(), W::Error>
    ensures { OnOk result (Gains (W.output writer.old) (W.output writer.new)
        (enum_text (names_in names.now) number)) }
{
    match name_of(names, number) {
        Some(name) => write_named(writer, name, number),
        None => put_number(writer, number),
    }
}

/// Writes a name, and its number in parentheses.
fn write_named<W: Sink>(writer: &mut W, name: &str, number: u64) -> Result<(), W::Error>
    ensures { OnOk result (Gains (W.output writer.old) (W.output writer.new) (beside name.now (decimal number))) }
{
    writer.put(name.as_bytes())?;
    writer.put(b" (")?;
    put_number(writer, number)?;
    writer.put(b")")
}

/// Writes a set of flags of this width: the names of the bits that are set, lowest bit first, joined by vertical bars,
/// then the bits without a name, together in hexadecimal. No bit is `0`, and every bit, if some have no name, is `all`.
///
/// # Errors
///
/// That of the writer.
#[tactic(auto, unfolding(crate::specs::Flags::flags_text))]
pub fn write_flags<W: Sink>(
    writer: &mut W,
    names: &[Name],
    width: Width,
    bits: u64,
) -> Result<(), W::Error>
    ensures { OnOk result (Gains (W.output writer.old) (W.output writer.new)
        (flags_text (names_in names.now) (bytes_in width) bits)) }
{
    let left = without_names(names, bits);
    if bits == 0 {
        return writer.put(b"0");
    }
    if left != 0 && bits == width.most() {
        return writer.put(b"all");
    }
    write_words(writer, names, bits, left)
}

/// Returns the bits that have no name.
#[tactic(auto, using(std::proofs::lemmas::List::drop_more, std::proofs::lemmas::List::drop_all))]
fn without_names(names: &[Name], bits: u64) -> u64
    ensures { result ≡ unnamed (names_in names.now) bits }
{
    let mut left = bits;
    for name in names {
        left -= left & name.number;
    }
    left
}

/// Writes the names of the bits that are set, and `left`, the bits that have no name.
#[tactic(auto, using(std::proofs::lemmas::Bool::Decides::nat_tests, crate::proofs::Written::next_steps))]
fn write_words<W: Sink>(
    writer: &mut W,
    names: &[Name],
    bits: u64,
    left: u64,
) -> Result<(), W::Error>
    requires { left ≡ unnamed (names_in names.now) bits }
    ensures { OnOk result (Gains (W.output writer.old) (W.output writer.new)
        (joined (codes "|") (flag_words (names_in names.now) bits))) }
{
    let mut separator = b"".as_slice();
    for name in names {
        if bits & name.number != 0 {
            write_after(writer, separator, name.text.as_bytes())?;
            separator = b"|".as_slice();
        }
    }
    write_last(writer, separator, left)
}

/// Writes the bits that have no name after a separator, if there are any.
#[tactic(auto, using(std::proofs::lemmas::Grind::common_steps, crate::specs::Gained::chains))]
fn write_last<W: Sink>(writer: &mut W, separator: &[u8], left: u64) -> Result<(), W::Error>
    ensures { OnOk result (Gains (W.output writer.old) (W.output writer.new)
        (after separator.now (codes "|") (last_word left))) }
{
    if left == 0 {
        return Ok(());
    }
    put_separator(writer, separator)?;
    writer.put(b"0x")?;
    put_hex(writer, left)
}
