//! The attributes of a request, from its values.

ghost use Rattle.std.specs.Prelude.{◌≡◌, ◌<◌, ◌+◌, [], Ok, true, length, IfErr};
ghost use Rattle.link_entries.specs.Fields.{IsNarrow};
ghost use Rattle.link_requests.specs.Opening.{kinds_of};
ghost use Rattle.link_entries.specs.Encoded.{before, fitted, at_fault};
ghost use Rattle.link_entries.specs.Stored.{Encodes};
ghost use Rattle.link_requests.specs.Value.{is_above, inside_of, number_with, attribute_with, value_of};
ghost use Rattle.link_requests.specs.Values.{values_of, inner_of};

use crate::level::{
    Level, Scope, context_in, is_above, is_placed, reader_for, row_for, scope_below, type_for,
};
use crate::value::put_value_payload;
use link_base::MAX_PAYLOAD;
use link_base::rows::form::ArrayOf;
use link_entries::encoding::encode_number;
use link_entries::fields::Fields;
use link_entries::storing::{store_header, store_padding};
use link_entries::{Entry, Misfit, MisfitAt};

/// Stores the bytes of the values of a list at the start of `room`, up to one that is less deep, if there is room.
/// Returns its length; saturates at `usize::MAX`.
///
/// # Errors
///
/// The first value that cannot be written.
#[cycle(values)]
pub(crate) fn put_values<'a>(
    level: &Level<'a>,
    entries: &'a [Entry],
    octets: &'a [u8],
    room: &mut [u8],
) -> Result<usize, MisfitAt>
    ensures encodes { Encodes (values_of octets.now level.now.scope level.now.depth (kinds_of level.now.context) 0 entries.now)
        room.old room.new result }
    ensures index { IfErr result (λ e. e.index < length entries.now) }
{
    let mut rest = entries;
    let mut len = 0usize;
    while let Some((entry, others)) = rest.split_first() {
        if entry.depth < level.depth {
            return Ok(len);
        }
        if entry.depth == level.depth {
            let index = entries.len() - rest.len();
            let from = len.min(room.len());
            match put_value(level, index, entry, others, octets, &mut room[from..]) {
                Ok(size) => len = len.saturating_add(size),
                Err(first) => {
                    return Err(MisfitAt {
                        index: index + first.index,
                        misfit: first.misfit,
                    });
                }
            }
        }
        rest = others;
    }
    Ok(len)
}

/// Stores the attribute of the value at this index of a list, with the values in it, which are among `others`. Returns
/// its length.
///
/// # Errors
///
/// The first value that cannot be written; the index of `entry` is 0.
#[cycle(values)]
fn put_value<'a>(
    level: &Level<'a>,
    index: usize,
    entry: &'a Entry,
    others: &'a [Entry],
    octets: &'a [u8],
    room: &mut [u8],
) -> Result<usize, MisfitAt>
    ensures encodes { Encodes (value_of octets.now level.now.scope level.now.depth (kinds_of level.now.context) index entry.now
        others.now (inner_of octets.now level.now.depth (kinds_of level.now.context) others.now)) room.old room.new result }
    ensures index { IfErr result (λ e. e.index < 1 + length others.now) }
{
    let Some(own) = row_for(level, entry) else {
        return Err(own_misfit(Misfit::BadElement));
    };
    if !is_placed(level.scope, own, entry) {
        return Err(own_misfit(Misfit::BadDepth));
    }
    match level.scope {
        Scope::Numbers(of, _) => put_number(level.depth, of, entry, others, room),
        _ => put_attribute(level, index, own, entry, others, octets, room),
    }
}

/// Stores a number of an array. Returns its length.
///
/// # Errors
///
/// As for `put_value`; `BadDepth` if deeper values follow.
fn put_number(
    depth: u8,
    of: ArrayOf,
    entry: &Entry,
    others: &[Entry],
    room: &mut [u8],
) -> Result<usize, MisfitAt>
    ensures encodes { Encodes (number_with of depth entry.now others.now) room.old room.new result }
    ensures index { IfErr result (λ e. e.index < 1 + length others.now) }
{
    match encode_number(of, entry, room) {
        Ok(_) if is_above(depth, others) => Err(MisfitAt {
            index: 1,
            misfit: Misfit::BadDepth,
        }),
        Ok(size) => Ok(size),
        Err(misfit) => Err(own_misfit(misfit)),
    }
}

/// Stores an attribute with these fields. Returns its length.
///
/// # Errors
///
/// As for `put_value`.
#[cycle(values)]
fn put_attribute<'a>(
    level: &Level<'a>,
    index: usize,
    own: Fields,
    entry: &'a Entry,
    others: &'a [Entry],
    octets: &'a [u8],
    room: &mut [u8],
) -> Result<usize, MisfitAt>
    requires { IsNarrow own }
    ensures encodes { Encodes (attribute_with octets.now level.now.scope level.now.depth (kinds_of level.now.context) index own
        entry.now others.now (inner_of octets.now level.now.depth (kinds_of level.now.context) others.now))
        room.old room.new result }
    ensures index { IfErr result (λ e. e.index < 1 + length others.now) }
{
    let nla_type = type_for(level, index, own, entry);
    let reader = reader_for(level, own, nla_type);
    let follow = is_above(level.depth, others);
    let size = match put_value_payload(level.scope, reader, own, follow, entry, octets, room) {
        Ok(size) => size,
        Err(misfit) => return Err(MisfitAt { index: 0, misfit }),
    };
    if !follow {
        return Ok(store_header(room, nla_type, size));
    }
    let scope = scope_below(level.scope, reader, own, entry);
    put_below(level, scope, nla_type, others, octets, room)
}

/// Stores an attribute whose payload has the deeper values in `others`. Returns its length.
///
/// # Errors
///
/// The first value that cannot be written; the index of that of the attribute is 0.
#[cycle(values)]
fn put_below<'a>(
    level: &Level<'a>,
    scope: Option<Scope>,
    nla_type: u16,
    others: &'a [Entry],
    octets: &'a [u8],
    room: &mut [u8],
) -> Result<usize, MisfitAt>
    requires { is_above level.now.depth others.now ≡ true }
    ensures encodes { Encodes (fitted nla_type (before (Ok []) (inside_of (level.now.depth + 1) scope
        (inner_of octets.now level.now.depth (kinds_of level.now.context) others.now) others.now))) room.old room.new result }
    ensures index { IfErr result (λ e. e.index < 1 + length others.now) }
{
    let from = room.len().min(4);
    let size = match put_inside(level, scope, others, octets, &mut room[from..]) {
        Ok(size) => size,
        Err(first) => {
            return Err(MisfitAt {
                index: first.index + 1,
                misfit: first.misfit,
            });
        }
    };
    if size > MAX_PAYLOAD {
        return Err(own_misfit(Misfit::TooLong));
    }
    store_padding(room, 4, size);
    Ok(store_header(room, nla_type, size))
}

/// Stores the bytes of the values of a list one deeper, if there is such a list. Returns its length.
///
/// # Errors
///
/// The first value that cannot be written.
#[cycle(values)]
fn put_inside<'a>(
    level: &Level<'a>,
    scope: Option<Scope>,
    entries: &'a [Entry],
    octets: &'a [u8],
    room: &mut [u8],
) -> Result<usize, MisfitAt>
    requires { is_above level.now.depth entries.now ≡ true }
    ensures encodes { Encodes (inside_of (level.now.depth + 1) scope
        (inner_of octets.now level.now.depth (kinds_of level.now.context) entries.now) entries.now) room.old room.new result }
    ensures index { IfErr result (λ e. e.index < length entries.now) }
{
    let depth = entries[0].depth;
    match scope {
        Some(scope) if depth - level.depth == 1 => {
            let context = context_in(scope, depth, level.context, entries, octets);
            let inner = Level {
                scope,
                depth,
                context,
            };
            put_values(&inner, entries, octets, room)
        }
        _ => Err(own_misfit(Misfit::BadDepth)),
    }
}

/// Returns the error of the first value.
fn own_misfit(misfit: Misfit) -> MisfitAt
    ensures { result ≡ at_fault (0, misfit) }
{
    MisfitAt { index: 0, misfit }
}
