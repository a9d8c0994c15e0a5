//! Attributes and elements that entries encode to.

ghost use Rattle.std.specs.Prelude.{◌≡◌, ◌<◌, ◌+◌, ◌%◌, [], Ok, length, IfErr};
ghost use Rattle.link_base.specs.Borrowed.{elements_at, table_within};
ghost use Rattle.netlink_packet_route.specs.Family.{table_of};
ghost use Rattle.link_base.specs.declared.rows.form.Order.TheVariants.{Little};
ghost use Rattle.link_entries.specs.Forms.{form_unsigned};
ghost use Rattle.link_entries.specs.Fields.{any_number, array_number, fields_at, IsNarrow};
ghost use Rattle.link_entries.specs.Payload.{payload_of, field_of};
ghost use Rattle.link_entries.specs.Encoded.{attribute_of, before, begins_well, element_of, elements_of, entries_of, fitted, framed};
ghost use Rattle.link_entries.specs.Stored.{sized, StoresBytes, Encodes};

use crate::entry::Entry;
use crate::fields::{Fields, fields_in, ip_address};
use crate::forms;
use crate::misfit::{Misfit, MisfitAt};
use crate::payload::{is_i32, put_payload};
use crate::storing::{store, store_header, store_padding};
use link_base::rows::form::{ArrayOf, Width};
use link_base::{Attribute, MAX_PAYLOAD};
use netlink_packet_route::{Family, by_family};

/// Stores the list of these entries at the start of `out`, if there is room. Returns its length; saturates at
/// `usize::MAX`.
///
/// # Errors
///
/// The first entry that cannot be written.
pub(crate) fn encode(
    family: Family,
    entries: &[Entry],
    octets: &[u8],
    out: &mut [u8],
) -> Result<usize, MisfitAt>
    ensures { Encodes (entries_of (table_of family) octets.now entries.now) out.old out.new result }
{
    by_family!(family, encode_list(entries, octets, out))
}

/// Stores a list of attributes of the type `F`, as [`encode`] does for a `Family`.
#[inline(never)]
fn encode_list<F: Attribute>(
    entries: &[Entry],
    octets: &[u8],
    out: &mut [u8],
) -> Result<usize, MisfitAt>
    ensures { Encodes (entries_of F.table octets.now entries.now) out.old out.new result }
{
    let mut rest = entries;
    let mut len = 0usize;
    while let Some((entry, others)) = rest.split_first() {
        if entry.depth == 0 {
            let from = len.min(out.len());
            match encode_attribute::<F>(entry, others, octets, &mut out[from..]) {
                Ok(size) => len = len.saturating_add(size),
                Err(first) => {
                    return Err(MisfitAt {
                        index: entries.len() - rest.len() + first.index,
                        misfit: first.misfit,
                    });
                }
            }
        }
        rest = others;
    }
    Ok(len)
}

/// Stores the attribute that an entry encodes to, with the elements in the entries after it. Returns its length.
///
/// # Errors
///
/// The first entry that cannot be written; the index of `entry` is 0.
#[inline(always)]
fn encode_attribute<F: Attribute>(
    entry: &Entry,
    others: &[Entry],
    octets: &[u8],
    room: &mut [u8],
) -> Result<usize, MisfitAt>
    ensures encodes { Encodes (attribute_of F.table octets.now entry.now others.now) room.old room.new result }
    ensures index { IfErr result (λ e. e.index < 1 + length others.now) }
{
    let kind = entry.kind;
    let own = fields_of::<F>(None, kind);
    let size = match put_payload(own, kind, entry, octets, room) {
        Ok(size) => size,
        Err(misfit) => return Err(MisfitAt { index: 0, misfit }),
    };
    let kind_field = field_of(own, kind, entry);
    if begins_well(others) {
        return Ok(store_header(room, kind_field, size));
    }
    encode_list_attribute::<F>(kind, kind_field, others, octets, room)
}

/// Stores an attribute with the elements in the entries after it. Returns its length.
///
/// # Errors
///
/// The first entry that cannot be written; the index of that of the attribute is 0.
#[inline(never)]
fn encode_list_attribute<F: Attribute>(
    kind: u16,
    kind_field: u16,
    others: &[Entry],
    octets: &[u8],
    room: &mut [u8],
) -> Result<usize, MisfitAt>
    ensures encodes { Encodes (fitted kind_field (before (Ok [])
        (elements_of (elements_at F.table kind) (fields_at F.table kind) kind octets.now 0 others.now)))
        room.old room.new result }
    ensures index { IfErr result (λ e. e.index < 1 + length others.now) }
{
    let from = room.len().min(4);
    let size = match encode_elements::<F>(kind, others, octets, &mut room[from..]) {
        Ok(size) => size,
        Err(first) => {
            return Err(MisfitAt {
                index: first.index + 1,
                misfit: first.misfit,
            });
        }
    };
    if size > MAX_PAYLOAD {
        return Err(MisfitAt {
            index: 0,
            misfit: Misfit::TooLong,
        });
    }
    store_padding(room, 4, size);
    Ok(store_header(room, kind_field, size))
}

/// Stores the elements in the entries after an attribute of type `kind`, up to the next attribute. Returns their length;
/// saturates at `usize::MAX`.
///
/// # Errors
///
/// The first entry that cannot be written.
#[inline(always)]
fn encode_elements<F: Attribute>(
    kind: u16,
    entries: &[Entry],
    octets: &[u8],
    room: &mut [u8],
) -> Result<usize, MisfitAt>
    ensures encodes { Encodes (elements_of (elements_at F.table kind) (fields_at F.table kind) kind octets.now 0 entries.now)
        room.old room.new result }
    ensures index { IfErr result (λ e. e.index < length entries.now) }
{
    let own = fields_of::<F>(None, kind);
    let mut rest = entries;
    let mut len = 0usize;
    while let Some((entry, others)) = rest.split_first() {
        if entry.depth == 0 {
            return Ok(len);
        }
        let index = entries.len() - rest.len();
        let from = len.min(room.len());
        match encode_element::<F>(own, kind, index, entry, octets, &mut room[from..]) {
            Ok(size) => len = len.saturating_add(size),
            Err(misfit) => return Err(MisfitAt { index, misfit }),
        }
        rest = others;
    }
    Ok(len)
}

/// Stores the element of entry `i` in an attribute of type `kind` with these fields. Returns its length.
///
/// # Errors
///
/// Why it cannot be written.
#[inline(always)]
fn encode_element<F: Attribute>(
    own: Fields,
    kind: u16,
    i: usize,
    entry: &Entry,
    octets: &[u8],
    room: &mut [u8],
) -> Result<usize, Misfit>
    ensures size { result ≡ sized (element_of (elements_at F.table kind) own kind i entry.now octets.now) }
    ensures stored { StoresBytes (element_of (elements_at F.table kind) own kind i entry.now octets.now) room.old room.new }
{
    if entry.depth != 1 || entry.kind != kind {
        return Err(Misfit::BadElement);
    }
    match own {
        Fields::Numbers { of } => encode_number(of, entry, room),
        Fields::Addresses { size } => encode_framed(
            ip_address(size),
            kind,
            (i % 65536) as u16,
            entry,
            octets,
            room,
        ),
        Fields::List { .. } => {
            let inner = entry.inner;
            let fields = fields_of::<F>(Some(kind), inner);
            encode_framed(
                fields,
                inner,
                field_of(fields, inner, entry),
                entry,
                octets,
                room,
            )
        }
        _ => Err(Misfit::BadElement),
    }
}

/// Stores the number of an entry in an array. Returns its length.
///
/// # Errors
///
/// `BadForm` if the entry has not the form of the array's numbers, `BadNumber` if they are too narrow.
#[inline(always)]
pub fn encode_number(of: ArrayOf, entry: &Entry, room: &mut [u8]) -> Result<usize, Misfit>
    ensures size { result ≡ sized (payload_of (array_number of) entry.now []) }
    ensures stored { StoresBytes (payload_of (array_number of) entry.now []) room.old room.new }
{
    match of {
        ArrayOf::U16 => encode_unsigned(Width::Two, entry, room),
        ArrayOf::U32 => encode_unsigned(Width::Four, entry, room),
        ArrayOf::U64 => encode_unsigned(Width::Eight, entry, room),
        ArrayOf::I32 => encode_signed(entry, room),
    }
}

/// Stores the unsigned number of this width that an entry encodes to, as [`encode_number`] does.
#[inline(always)]
fn encode_unsigned(width: Width, entry: &Entry, room: &mut [u8]) -> Result<usize, Misfit>
    ensures size { result ≡ sized (payload_of (any_number form_unsigned width Little) entry.now []) }
    ensures stored { StoresBytes (payload_of (any_number form_unsigned width Little) entry.now []) room.old room.new }
{
    if entry.form != forms::UNSIGNED && entry.form != 0 {
        return Err(Misfit::BadForm);
    }
    if entry.number > width.most() {
        return Err(Misfit::BadNumber);
    }
    let [a, b, c, d, e, f, g, h] = entry.number.to_le_bytes();
    match width {
        Width::One => store(room, 0, &[a]),
        Width::Two => store(room, 0, &[a, b]),
        Width::Four => store(room, 0, &[a, b, c, d]),
        Width::Eight => store(room, 0, &[a, b, c, d, e, f, g, h]),
    }
    Ok(width.size())
}

/// Stores the signed number that an entry encodes to, as [`encode_number`] does.
#[inline(always)]
fn encode_signed(entry: &Entry, room: &mut [u8]) -> Result<usize, Misfit>
    ensures size { result ≡ sized (payload_of Fields.Signed entry.now []) }
    ensures stored { StoresBytes (payload_of Fields.Signed entry.now []) room.old room.new }
{
    if entry.form != forms::SIGNED && entry.form != 0 {
        return Err(Misfit::BadForm);
    }
    if !is_i32(entry.number) {
        return Err(Misfit::BadNumber);
    }
    let [a, b, c, d, _, _, _, _] = entry.number.to_le_bytes();
    store(room, 0, &[a, b, c, d]);
    Ok(4)
}

/// Stores the attribute of type `of_kind` that an entry encodes to, without elements. Returns its length.
///
/// # Errors
///
/// Why the entry cannot be written.
#[inline(always)]
fn encode_framed(
    own: Fields,
    of_kind: u16,
    kind_field: u16,
    entry: &Entry,
    octets: &[u8],
    room: &mut [u8],
) -> Result<usize, Misfit>
    requires { IsNarrow own }
    ensures size { result ≡ sized (framed kind_field (payload_of own (record entry.now { kind = of_kind }) octets.now)) }
    ensures stored { StoresBytes (framed kind_field (payload_of own (record entry.now { kind = of_kind }) octets.now))
        room.old room.new }
{
    match put_payload(own, of_kind, entry, octets, room) {
        Ok(size) => Ok(store_header(room, kind_field, size)),
        Err(misfit) => Err(misfit),
    }
}

/// Returns the fields for an attribute type. If `list` is given, the type is one in lists of that type.
#[inline(always)]
fn fields_of<F: Attribute>(list: Option<u16>, kind: u16) -> Fields
    ensures value { result ≡ fields_at (table_within F.table list) kind }
    ensures narrow { IsNarrow result }
{
    fields_in(F::label(list, kind))
}

/// Returns the `nla_type` of an attribute or an element of type `kind`, as two bytes of a number.
#[inline(always)]
pub fn field_of(own: Fields, kind: u16, entry: &Entry) -> u16
    ensures { result ≡ field_of own kind entry.now % 65536 }
{
    match own {
        Fields::List { flag } => kind.wrapping_add(flag),
        Fields::Unknown => kind.wrapping_add(entry.flags),
        _ => kind,
    }
}

/// Checks whether the first entry is an attribute, if there is one.
#[inline(always)]
pub(crate) fn begins_well(entries: &[Entry]) -> bool
    ensures { result ≡ begins_well entries.now }
{
    entries.is_empty() || entries[0].depth == 0
}
