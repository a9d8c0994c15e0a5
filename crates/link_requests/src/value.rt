//! The payload of one value.

ghost use Rattle.std.specs.Prelude.{◌≡◌, ◌≤◌, None, IfOk};
ghost use Rattle.link_base.specs.Frame.{max_payload};
ghost use Rattle.link_entries.specs.Fields.{IsNarrow};
ghost use Rattle.link_entries.specs.Stored.{sized, StoresPayload};
ghost use Rattle.link_requests.specs.Value.{kind_for, allowed, value_bytes, held_payload, bytes_payload, value_payload};

use crate::level::{Scope, is_allowed};
use crate::text::{INLINE, value_bytes};
use link_entries::fields::Fields;
use link_entries::payload::{has_form, passed, put_bytes, put_payload};
use link_entries::{Entry, Misfit, forms};
use netlink_packet_route::Family;

/// Stores the payload of a value, without the values that follow, after the place of its header, and its padding. Returns its
/// length. `reader` is the set that reads a list in the value; `follow` is true if deeper values follow.
///
/// # Errors
///
/// The first that applies of `BadForm`, `BadNumber` or, for a list of another set, `BadDepth`; then of `BadName`, `BadOctets`
/// and `NoSet`; then `TooLong`.
pub(crate) fn put_value_payload(
    scope: Scope,
    reader: Option<Family>,
    own: Fields,
    follow: bool,
    entry: &Entry,
    octets: &[u8],
    room: &mut [u8],
) -> Result<usize, Misfit>
    requires { IsNarrow own }
    ensures size { result ≡ sized (value_payload scope reader own follow entry.now octets.now) }
    ensures stored { StoresPayload (value_payload scope reader own follow entry.now octets.now) room.old room.new }
    ensures short { IfOk result (λ n. n ≤ max_payload) }
{
    match own {
        Fields::Passed { form, size: None } => {
            put_plain(scope, form, reader, follow, entry, octets, room)
        }
        Fields::Passed { size, .. } if has_form(own, entry) => put_own(size, entry, octets, room),
        _ => put_payload(own, kind_for(scope, entry), entry, octets, room),
    }
}

/// Stores the bytes of a value.
///
/// # Errors
///
/// As for `value_bytes`.
fn put_own(
    size: Option<usize>,
    entry: &Entry,
    octets: &[u8],
    room: &mut [u8],
) -> Result<usize, Misfit>
    ensures size { result ≡ sized (value_bytes size entry.now octets.now) }
    ensures stored { StoresPayload (value_bytes size entry.now octets.now) room.old room.new }
    ensures short { IfOk result (λ n. n ≤ max_payload) }
{
    match value_bytes(size, entry, octets) {
        Ok(bytes) => Ok(put_bytes(bytes, room)),
        Err(misfit) => Err(misfit),
    }
}

/// Stores bytes of any length, which a value of this form has.
///
/// # Errors
///
/// `BadForm` if the value has another form; otherwise as for `put_held` or `put_allowed`.
fn put_plain(
    scope: Scope,
    form: u8,
    reader: Option<Family>,
    follow: bool,
    entry: &Entry,
    octets: &[u8],
    room: &mut [u8],
) -> Result<usize, Misfit>
    ensures size { result ≡ sized (bytes_payload scope form reader follow entry.now octets.now) }
    ensures stored { StoresPayload (bytes_payload scope form reader follow entry.now octets.now) room.old room.new }
    ensures short { IfOk result (λ n. n ≤ max_payload) }
{
    if entry.form != form {
        return Err(Misfit::BadForm);
    }
    if form == forms::HELD {
        return put_held(reader, follow, entry, octets, room);
    }
    put_allowed(scope, entry, octets, room)
}

/// Returns the attribute type of a value.
fn kind_for(scope: Scope, entry: &Entry) -> u16
    ensures { result ≡ kind_for scope entry.now }
{
    match scope {
        Scope::Attributes(_) => entry.kind,
        _ => entry.inner,
    }
}

/// Stores the bytes of a value.
///
/// # Errors
///
/// `BadName` if Linux rejects them; otherwise as for `value_bytes`.
fn put_allowed(scope: Scope, entry: &Entry, octets: &[u8], room: &mut [u8]) -> Result<usize, Misfit>
    ensures size { result ≡ sized (allowed scope (kind_for scope entry.now) (value_bytes None entry.now octets.now)) }
    ensures stored { StoresPayload (allowed scope (kind_for scope entry.now) (value_bytes None entry.now octets.now)) room.old room.new }
    ensures short { IfOk result (λ n. n ≤ max_payload) }
{
    match value_bytes(None, entry, octets) {
        Ok(bytes) if is_allowed(scope, entry, bytes) => Ok(put_bytes(bytes, room)),
        Ok(_) => Err(Misfit::BadName),
        Err(misfit) => Err(misfit),
    }
}

/// Stores the list of another set that a value refers to, or nothing if values follow.
///
/// # Errors
///
/// `BadDepth` if it refers to a list, and values follow, or to none, and none follow; `NoSet` if values follow that no set
/// reads; otherwise as for `value_bytes`.
fn put_held(
    reader: Option<Family>,
    follow: bool,
    entry: &Entry,
    octets: &[u8],
    room: &mut [u8],
) -> Result<usize, Misfit>
    ensures size { result ≡ sized (held_payload reader follow entry.now octets.now) }
    ensures stored { StoresPayload (held_payload reader follow entry.now octets.now) room.old room.new }
    ensures short { IfOk result (λ n. n ≤ max_payload) }
{
    if (entry.offset == INLINE) != follow {
        return Err(Misfit::BadDepth);
    }
    if follow {
        return match reader {
            Some(_) => Ok(0),
            None => Err(Misfit::NoSet),
        };
    }
    match passed(None, entry, octets) {
        Ok(bytes) => Ok(put_bytes(bytes, room)),
        Err(misfit) => Err(misfit),
    }
}
