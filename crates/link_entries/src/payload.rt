//! The payloads that entries encode to.

ghost use Rattle.std.specs.Prelude.{◌≡◌, ◌≤◌, ◌<◌, [], Some, nat_le, length, take, IfOk, IfSome};
ghost use Rattle.link_base.specs.Number.{bytes_of, bytes_be, bound};
ghost use Rattle.link_base.specs.Orders.{bytes_by};
ghost use Rattle.link_base.specs.Class.{Limits, meant, written};
ghost use Rattle.link_base.specs.Frame.{max_payload};
ghost use Rattle.link_base.specs.Forms.{bytes_in as width_of};
ghost use Rattle.link_entries.specs.Fields.{IsNarrow};
ghost use Rattle.link_entries.specs.Payload.{has_form, form_in, only_if, has_size, passed, headed, rewritten, is_i32, holds_flag, content_of, payload_of, slice_value};
ghost use Rattle.link_entries.specs.Stored.{padded, sized, StoresAt, StoresPayload};

use crate::entry::Entry;
use crate::fields::Fields;
use crate::forms;
use crate::misfit::Misfit;
use crate::name::written_name;
use crate::storing::{store, store_padding};
use link_base::classes::peer::PEER_HEADER;
use link_base::rows::form::{Order, Width};
use link_base::{MAX_PAYLOAD, NLA_TYPE_MASK, VlanProtocol};

/// Stores the payload that an entry of type `of_kind` encodes to, without elements, after the place of its header, and its
/// padding. Returns its length. `octets` has the bytes that the entry refers to.
///
/// # Errors
///
/// The first that applies of `BadForm`, `BadNumber`, `BadOctets` and `TooLong`.
#[inline(always)]
pub fn put_payload(
    fields: Fields,
    of_kind: u16,
    entry: &Entry,
    octets: &[u8],
    room: &mut [u8],
) -> Result<usize, Misfit>
    requires { IsNarrow fields }
    ensures size { result ≡ sized (payload_of fields (record entry.now { kind = of_kind }) octets.now) }
    ensures stored { StoresPayload (payload_of fields (record entry.now { kind = of_kind }) octets.now) room.old room.new }
    ensures short { IfOk result (λ n. n ≤ max_payload) }
{
    if !has_form(fields, entry) {
        return Err(Misfit::BadForm);
    }
    put_content(fields, of_kind, entry, octets, room)
}

/// Checks whether an entry has the form of its attribute type.
#[inline(always)]
pub fn has_form(fields: Fields, entry: &Entry) -> bool
    ensures { result ≡ has_form fields entry.now }
{
    match fields {
        // Apart from the rows, so that these need not say whether 0 stands for their form.
        Fields::Unknown => entry.form == forms::UNKNOWN,
        _ => entry.form == form_in(fields) || entry.form == 0,
    }
}

/// Returns the form of entries with these fields.
#[inline(always)]
pub(crate) fn form_in(fields: Fields) -> u8
    ensures { result ≡ form_in fields }
{
    match fields {
        Fields::Empty => forms::EMPTY,
        Fields::Number { form, .. }
        | Fields::Shorts { form, .. }
        | Fields::Words { form, .. }
        | Fields::Address { form, .. }
        | Fields::Passed { form, .. } => form,
        Fields::FlagOrBool => forms::BOOL,
        Fields::Signed => forms::SIGNED,
        Fields::Protocol => forms::NAMED,
        Fields::BridgeId => forms::BRIDGE_ID,
        Fields::Peer => forms::PEER,
        Fields::Limits => forms::BITTIMING_CONST,
        Fields::Numbers { .. } | Fields::Addresses { .. } | Fields::List { .. } => forms::LIST,
        Fields::Unknown => forms::UNKNOWN,
    }
}

/// Stores the payload that an entry of the right form encodes to, as [`put_payload`] does.
///
/// # Errors
///
/// `BadNumber`, `BadOctets` or `TooLong`.
#[inline(always)]
fn put_content(
    fields: Fields,
    of_kind: u16,
    entry: &Entry,
    octets: &[u8],
    room: &mut [u8],
) -> Result<usize, Misfit>
    requires { IsNarrow fields }
    ensures size { result ≡ sized (content_of fields (record entry.now { kind = of_kind }) octets.now) }
    ensures stored { StoresPayload (content_of fields (record entry.now { kind = of_kind }) octets.now) room.old room.new }
    ensures short { IfOk result (λ n. n ≤ max_payload) }
{
    match fields {
        Fields::Empty | Fields::Numbers { .. } | Fields::Addresses { .. } | Fields::List { .. } =>
            Ok(0),
        Fields::Number {
            width,
            order,
            most,
            ..
        } => put_number(entry.number, width, order, most, room),
        Fields::FlagOrBool => put_flag(entry, room),
        Fields::Signed => put_signed(entry.number, room),
        Fields::Shorts { second_first, .. } => put_shorts(entry, second_first, room),
        Fields::Words { second_first, .. } => put_words(entry, second_first, room),
        Fields::Protocol => put_protocol(entry, room),
        Fields::Address { size, .. } => put_address(entry, size, room),
        Fields::BridgeId => put_bridge_id(entry, room),
        Fields::Passed { size, .. } => put_passed(size, entry, octets, room),
        Fields::Peer => put_peer(entry, octets, room),
        Fields::Limits => put_limits(entry, octets, room),
        Fields::Unknown => put_unknown(of_kind, entry, octets, room),
    }
}

/// Stores the bytes of a number.
///
/// # Errors
///
/// `BadNumber` if it is greater than `most`.
#[inline(always)]
fn put_number(
    number: u64,
    width: Width,
    order: Order,
    most: u64,
    room: &mut [u8],
) -> Result<usize, Misfit>
    requires { most < bound (width_of width) }
    ensures size { result ≡ sized (only_if (nat_le number most) Misfit.BadNumber (bytes_by order (width_of width) number)) }
    ensures stored { StoresPayload (only_if (nat_le number most) Misfit.BadNumber (bytes_by order (width_of width) number))
        room.old room.new }
{
    if number > most {
        return Err(Misfit::BadNumber);
    }
    let held = match order {
        Order::Little => number,
        Order::Big => swapped(number, width),
    };
    store_little(held, width, room);
    Ok(width.size())
}

/// Returns the number whose little-endian bytes are those of a number in network byte order. So the bytes are stored in one
/// place, whatever their order, and the compiler joins the rows of an attribute set.
#[inline(always)]
fn swapped(number: u64, width: Width) -> u64
    ensures octets { bytes_of (width_of width) result ≡ bytes_be (width_of width) number }
    ensures low { result < bound (width_of width) }
{
    let [a, b, c, d, e, f, g, h] = number.to_be_bytes();
    match width {
        Width::One => u8::from_le_bytes([h]).into(),
        Width::Two => u16::from_le_bytes([g, h]).into(),
        Width::Four => u32::from_le_bytes([e, f, g, h]).into(),
        Width::Eight => u64::from_le_bytes([a, b, c, d, e, f, g, h]),
    }
}

/// Stores the little-endian bytes of a number, and its padding.
#[inline(always)]
fn store_little(number: u64, width: Width, room: &mut [u8])
    requires { number < bound (width_of width) }
    ensures { StoresAt 4 (padded (bytes_of (width_of width) number)) room.old room.new }
{
    let [a, b, c, d, e, f, g, h] = number.to_le_bytes();
    match width {
        Width::Eight => store(room, 4, &[a, b, c, d, e, f, g, h]),
        // The bytes that the width does not have are 0, as is the padding.
        _ => store(room, 4, &[a, b, c, d]),
    }
}

/// Stores the byte of a flag, if it has one.
///
/// # Errors
///
/// `BadNumber` if the number is neither 0 nor 1, or 0 without a byte; `BadOctets` if there are several bytes.
#[inline(always)]
#[tactic(auto, using(crate::proofs::FlagBytes::without_byte, crate::proofs::FlagBytes::with_byte, crate::proofs::FlagBytes::many_bytes, crate::proofs::FlagBytes::no_flag, crate::proofs::FlagBytes::unstored_flag, crate::proofs::FlagBytes::stored_flag))]
fn put_flag(entry: &Entry, room: &mut [u8]) -> Result<usize, Misfit>
    ensures size { result ≡ sized (content_of Fields.FlagOrBool entry.now []) }
    ensures stored { StoresPayload (content_of Fields.FlagOrBool entry.now []) room.old room.new }
{
    if !holds_flag(entry) {
        return Err(Misfit::BadNumber);
    }
    match entry.length {
        0 => Ok(0),
        1 => {
            store_little(entry.number, Width::One, room);
            Ok(1)
        }
        _ => Err(Misfit::BadOctets),
    }
}

/// Checks whether the number of an entry is one of a flag: 0 or 1, but 1 without a byte.
#[inline(always)]
fn holds_flag(entry: &Entry) -> bool
    ensures { result ≡ holds_flag entry.now.length entry.now.number }
{
    if entry.length == 0 {
        entry.number == 1
    } else {
        entry.number <= 1
    }
}

/// Stores the little-endian bytes of a signed number.
///
/// # Errors
///
/// `BadNumber` if it does not fit in 32 bits.
#[inline(always)]
fn put_signed(number: u64, room: &mut [u8]) -> Result<usize, Misfit>
    ensures size { result ≡ sized (only_if (is_i32 number) Misfit.BadNumber (bytes_of 4 number)) }
    ensures stored { StoresPayload (only_if (is_i32 number) Misfit.BadNumber (bytes_of 4 number)) room.old room.new }
{
    if !is_i32(number) {
        return Err(Misfit::BadNumber);
    }
    let [a, b, c, d, _, _, _, _] = number.to_le_bytes();
    store(room, 4, &[a, b, c, d]);
    Ok(4)
}

/// Checks whether a signed number fits in 32 bits.
#[inline(always)]
pub(crate) fn is_i32(number: u64) -> bool
    ensures { result ≡ is_i32 number }
{
    number < 0x8000_0000 || number >= 0xFFFF_FFFF_8000_0000
}

/// Stores the little-endian bytes of two `u16`s.
///
/// # Errors
///
/// `BadNumber` if one of them does not fit.
#[inline(always)]
fn put_shorts(entry: &Entry, second_first: bool, room: &mut [u8]) -> Result<usize, Misfit>
    ensures size { result ≡ sized (content_of (Fields.Shorts 0 second_first) entry.now []) }
    ensures stored { StoresPayload (content_of (Fields.Shorts 0 second_first) entry.now []) room.old room.new }
{
    if entry.number > 0xFFFF || entry.second > 0xFFFF {
        return Err(Misfit::BadNumber);
    }
    let [a, b] = (entry.number as u16).to_le_bytes();
    let [c, d] = (entry.second as u16).to_le_bytes();
    let octets = if second_first {
        [c, d, a, b]
    } else {
        [a, b, c, d]
    };
    store(room, 4, &octets);
    Ok(4)
}

/// Stores the little-endian bytes of two `u32`s.
///
/// # Errors
///
/// `BadNumber` if the first does not fit.
#[inline(always)]
fn put_words(entry: &Entry, second_first: bool, room: &mut [u8]) -> Result<usize, Misfit>
    ensures size { result ≡ sized (content_of (Fields.Words 0 second_first) entry.now []) }
    ensures stored { StoresPayload (content_of (Fields.Words 0 second_first) entry.now []) room.old room.new }
{
    if entry.number > 0xFFFF_FFFF {
        return Err(Misfit::BadNumber);
    }
    let [a, b, c, d] = (entry.number as u32).to_le_bytes();
    let [e, f, g, h] = entry.second.to_le_bytes();
    let octets = if second_first {
        [e, f, g, h, a, b, c, d]
    } else {
        [a, b, c, d, e, f, g, h]
    };
    store(room, 4, &octets);
    Ok(8)
}

/// Stores the bytes of an EtherType, in network byte order.
///
/// # Errors
///
/// `BadNumber` if it is not that of a VLAN protocol.
#[inline(always)]
fn put_protocol(entry: &Entry, room: &mut [u8]) -> Result<usize, Misfit>
    ensures size { result ≡ sized (content_of Fields.Protocol entry.now []) }
    ensures stored { StoresPayload (content_of Fields.Protocol entry.now []) room.old room.new }
{
    let customer = u16::from(VlanProtocol::Ieee8021Q);
    let provider = u16::from(VlanProtocol::Ieee8021Ad);
    let ether_type = if entry.number == u64::from(customer) {
        customer
    } else if entry.number == u64::from(provider) {
        provider
    } else {
        return Err(Misfit::BadNumber);
    };
    let [a, b] = ether_type.to_be_bytes();
    store(room, 4, &[a, b, 0, 0]);
    Ok(2)
}

/// Stores the octets of an address.
///
/// # Errors
///
/// `BadOctets` if it has another size.
#[inline(always)]
fn put_address(entry: &Entry, size: usize, room: &mut [u8]) -> Result<usize, Misfit>
    ensures size { result ≡ sized (content_of (Fields.Address 0 size) entry.now []) }
    ensures stored { StoresPayload (content_of (Fields.Address 0 size) entry.now []) room.old room.new }
    ensures short { IfOk result (λ n. n ≤ max_payload) }
{
    if entry.length as usize != size {
        return Err(Misfit::BadOctets);
    }
    // Copies of known length: those of the addresses that there are.
    Ok(match size {
        4 => put_bytes(&entry.octets[..4], room),
        6 => put_bytes(&entry.octets[..6], room),
        16 => put_bytes(entry.octets.as_slice(), room),
        _ => put_bytes(front(&entry.octets, size), room),
    })
}

/// Returns the first `length` octets, as far as there are so many.
#[inline]
fn front(octets: &[u8; 16], length: usize) -> &[u8]
    ensures { result.now ≡ take length octets.now }
{
    &octets[..length.min(16)]
}

/// Stores bytes as a payload, with its padding. Returns their number.
#[tactic(auto, using(crate::proofs::StoredBytes::stored_padded))]
#[inline(always)]
pub fn put_bytes(bytes: &[u8], room: &mut [u8]) -> usize
    requires { length bytes.now ≤ max_payload }
    ensures size { result ≡ length bytes.now }
    ensures stored { StoresAt 4 (padded bytes.now) room.old room.new }
{
    store(room, 4, bytes);
    store_padding(room, 4, bytes.len());
    bytes.len()
}

/// Stores the bytes of a bridge ID.
///
/// # Errors
///
/// `BadNumber` if the priority does not fit, `BadOctets` if the length is not 8.
#[inline(always)]
fn put_bridge_id(entry: &Entry, room: &mut [u8]) -> Result<usize, Misfit>
    ensures size { result ≡ sized (content_of Fields.BridgeId entry.now []) }
    ensures stored { StoresPayload (content_of Fields.BridgeId entry.now []) room.old room.new }
{
    if entry.number > 0xFFFF {
        return Err(Misfit::BadNumber);
    }
    if entry.length != 8 {
        return Err(Misfit::BadOctets);
    }
    let [a, b] = (entry.number as u16).to_be_bytes();
    store(room, 4, &[a, b]);
    store(room, 6, &entry.octets[..6]);
    Ok(8)
}

/// Checks whether an entry refers to `size` bytes, if it is given.
#[inline]
pub fn has_size(size: Option<usize>, entry: &Entry) -> bool
    ensures { result ≡ has_size size entry.now }
{
    match size {
        Some(size) => entry.length as usize == size,
        None => true,
    }
}

/// Returns the bytes that an entry refers to, which must be `size` if it is given.
///
/// # Errors
///
/// `BadOctets` if they are not `size`, or not within `octets`; `TooLong` if they do not fit in an attribute.
pub fn passed<'a>(size: Option<usize>, entry: &Entry, octets: &'a [u8]) -> Result<&'a [u8], Misfit>
    ensures value { slice_value result ≡ passed size entry.now octets.now }
    ensures short { IfOk result (λ p. length p.now ≤ max_payload) }
    ensures size { IfOk result (λ p. IfSome size (λ n. length p.now ≡ n)) }
{
    if !has_size(size, entry) {
        return Err(Misfit::BadOctets);
    }
    let all = octets.len() as u64;
    if entry.offset > all || all - entry.offset < u64::from(entry.length) {
        return Err(Misfit::BadOctets);
    }
    if entry.length as usize > MAX_PAYLOAD {
        return Err(Misfit::TooLong);
    }
    let start = entry.offset as usize;
    let end = start + entry.length as usize;
    Ok(&octets[start..end])
}

/// Stores the bytes that an entry refers to, which must be `size` if it is given.
///
/// # Errors
///
/// As for `passed`.
#[inline(always)]
fn put_passed(
    size: Option<usize>,
    entry: &Entry,
    octets: &[u8],
    room: &mut [u8],
) -> Result<usize, Misfit>
    ensures size { result ≡ sized (passed size entry.now octets.now) }
    ensures stored { StoresPayload (passed size entry.now octets.now) room.old room.new }
    ensures short { IfOk result (λ n. n ≤ max_payload) }
{
    Ok(put_bytes(passed(size, entry, octets)?, room))
}

/// Stores the header and the list that an entry refers to.
///
/// # Errors
///
/// `BadOctets` if they are fewer than 16 bytes; otherwise as for `passed`.
#[inline(always)]
fn put_peer(entry: &Entry, octets: &[u8], room: &mut [u8]) -> Result<usize, Misfit>
    ensures size { result ≡ sized (headed entry.now octets.now) }
    ensures stored { StoresPayload (headed entry.now octets.now) room.old room.new }
    ensures short { IfOk result (λ n. n ≤ max_payload) }
{
    if (entry.length as usize) < PEER_HEADER {
        return Err(Misfit::BadOctets);
    }
    put_passed(None, entry, octets, room)
}

/// Stores the limits of a CAN controller that an entry refers to, as a rewriting writes them.
///
/// # Errors
///
/// As for `passed`.
#[inline(always)]
fn put_limits(entry: &Entry, octets: &[u8], room: &mut [u8]) -> Result<usize, Misfit>
    ensures size { result ≡ sized (rewritten (passed (Some 48) entry.now octets.now)) }
    ensures stored { StoresPayload (rewritten (passed (Some 48) entry.now octets.now)) room.old room.new }
    ensures short { IfOk result (λ n. n ≤ max_payload) }
{
    let bytes = passed(Some(48), entry, octets)?;
    store(room, 4, &rewritten(bytes));
    Ok(48)
}

/// Returns the limits of a CAN controller as a rewriting writes them.
fn rewritten(limits: &[u8]) -> [u8; 48]
    requires { length limits.now ≡ 48 }
    ensures value { result ≡ written (meant Limits limits.now) }
    ensures size { length result ≡ 48 }
{
    let mut octets = [0; 48];
    octets[..16].copy_from_slice(&written_name(&limits[..16]));
    octets[16..].copy_from_slice(&limits[16..]);
    octets
}

/// Stores the payload of an attribute of type `of_kind`, which has no row.
///
/// # Errors
///
/// `BadNumber` if its type or its flags do not fit; otherwise as for `passed`.
#[inline(always)]
fn put_unknown(of_kind: u16, entry: &Entry, octets: &[u8], room: &mut [u8]) -> Result<usize, Misfit>
    ensures size { result ≡ sized (content_of Fields.Unknown (record entry.now { kind = of_kind }) octets.now) }
    ensures stored { StoresPayload (content_of Fields.Unknown (record entry.now { kind = of_kind }) octets.now)
        room.old room.new }
    ensures short { IfOk result (λ n. n ≤ max_payload) }
{
    if of_kind > NLA_TYPE_MASK || entry.flags & NLA_TYPE_MASK != 0 {
        return Err(Misfit::BadNumber);
    }
    put_passed(None, entry, octets, room)
}
