//! Arrays of numbers whose places have names, such as counters of packets and of errors.

ghost use Rattle.std.specs.Prelude.{◌≡◌, ℕ, ◌≤◌, ◌+◌, ◌*◌, ◌++◌, length, codes, OnOk};
ghost use Rattle.std.specs.Option.{option_map};
ghost use Rattle.link_base.specs.Forms.{size_in};
ghost use Rattle.link_base.specs.Labels.{names_in, name_in};
ghost use Rattle.link_base.specs.Layout.{number_at, numbers_at, numbers_of};
ghost use Rattle.link_show.specs.Sink.{Gains};
ghost use Rattle.link_show.specs.Number.{item_text};
ghost use Rattle.link_show.specs.Text.{after, joined};
ghost use Rattle.link_show.specs.Counters.{place_text, zeros_word, counter_words, counters_text, numbers_text};

use crate::numbers::{number_at, write_array, write_item};
use crate::pieces::{Piece, put_number, put_pieces, put_separator};
use crate::sink::Sink;
use link_base::rows::form::ArrayOf;
use link_base::rows::label::{Name, Quantity, name_of};

/// Writes an array of little-endian numbers, by the names of its places if there are names.
pub(crate) fn write_places<W: Sink>(
    writer: &mut W,
    names: &[Name],
    quantity: Quantity,
    of: ArrayOf,
    bytes: &[u8],
) -> Result<(), W::Error>
    ensures { OnOk result (Gains (W.output writer.old) (W.output writer.new)
        (numbers_text (names_in names.now) quantity of (numbers_of (size_in of) bytes.now))) }
{
    if names.is_empty() {
        write_array(writer, quantity, of, bytes)
    } else {
        write_counters(writer, names, of, bytes)
    }
}

/// Writes the numbers that are not zero, each after the name of its place, or after its place in brackets if it has none;
/// then how many are zero, unless none is. Writes `(empty)` if there are no numbers.
#[tactic(auto, unfolding(crate::specs::Counters::counters_text))]
fn write_counters<W: Sink>(
    writer: &mut W,
    names: &[Name],
    of: ArrayOf,
    bytes: &[u8],
) -> Result<(), W::Error>
    ensures { OnOk result (Gains (W.output writer.old) (W.output writer.new)
        (counters_text (names_in names.now) of (numbers_of (size_in of) bytes.now))) }
{
    let count = bytes.len() / of.size();
    if count == 0 {
        return writer.put(b"(empty)");
    }
    write_words(writer, names, of, count, bytes)
}

/// Writes the first `count` numbers of an array by the names of their places.
#[tactic(auto, using(std::proofs::lemmas::Bool::Decides::nat_tests, crate::proofs::Arrays::numbers_more, crate::proofs::Written::next_steps, crate::specs::Gained::chains))]
fn write_words<W: Sink>(
    writer: &mut W,
    names: &[Name],
    of: ArrayOf,
    count: usize,
    bytes: &[u8],
) -> Result<(), W::Error>
    requires { count * size_in of ≤ length bytes.now }
    ensures { OnOk result (Gains (W.output writer.old) (W.output writer.new)
        (joined (codes " ") (counter_words (names_in names.now) of 0 0 (numbers_at (size_in of) count 0 bytes.now)))) }
{
    let mut separator = b"".as_slice();
    let mut zeros = 0;
    let mut left = names;
    for i in 0..count {
        let number = number_at(of.width(), i, bytes);
        if number == 0 {
            zeros += 1;
        } else {
            left = names_from(left, i as u64);
            write_counter(writer, separator, left, of, i, bytes)?;
            separator = b" ".as_slice();
        }
    }
    write_zeros(writer, separator, zeros)
}

/// Returns the names without those at the front of places before this one. Names are mostly in order, so the next that is
/// looked up is then the first.
#[tactic(auto, using(std::proofs::lemmas::Grind::common_steps, std::proofs::lemmas::List::drop_more))]
pub fn names_from(names: &[Name], place: u64) -> &[Name]
    ensures { (k : ℕ) → place ≤ k → name_in (names_in result.now) k ≡ name_in (names_in names.now) k }
{
    for i in 0..names.len() {
        if names[i].number >= place {
            return &names[i..];
        }
    }
    &[]
}

/// Writes a separator, and the number of a place after the name of that.
fn write_counter<W: Sink>(
    writer: &mut W,
    separator: &[u8],
    names: &[Name],
    of: ArrayOf,
    place: usize,
    bytes: &[u8],
) -> Result<(), W::Error>
    requires { (place + 1) * size_in of ≤ length bytes.now }
    ensures { OnOk result (Gains (W.output writer.old) (W.output writer.new)
        (separator.now ++ (place_text (name_in (names_in names.now) place) place
        ++ item_text of (number_at (size_in of) (place * size_in of) bytes.now)))) }
{
    put_separator(writer, separator)?;
    write_place(writer, name_of(names, place as u64), place as u64)?;
    write_item(writer, of, place, bytes)
}

/// Writes what is before the number of a place.
fn write_place<W: Sink>(writer: &mut W, name: Option<&str>, place: u64) -> Result<(), W::Error>
    ensures { OnOk result (Gains (W.output writer.old) (W.output writer.new)
        (place_text (option_map (λ text. text.now) name.entry) place)) }
{
    match name {
        Some(name) => {
            writer.put(name.as_bytes())?;
            writer.put(b" ")
        }
        None => put_pieces(
            writer,
            &[Piece::Text("["), Piece::Number(place), Piece::Text("] ")],
        ),
    }
}

/// Writes how many numbers are zero after a separator, unless none is.
#[tactic(auto, using(std::proofs::lemmas::Grind::common_steps, crate::specs::Gained::chains))]
fn write_zeros<W: Sink>(writer: &mut W, separator: &[u8], zeros: u64) -> Result<(), W::Error>
    ensures { OnOk result (Gains (W.output writer.old) (W.output writer.new)
        (after separator.now (codes " ") (zeros_word zeros))) }
{
    if zeros == 0 {
        return Ok(());
    }
    put_separator(writer, separator)?;
    writer.put(b"(")?;
    put_number(writer, zeros)?;
    writer.put(b" zero)")
}
