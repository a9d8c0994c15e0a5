//! Requests from a head and values.

ghost use Rattle.std.specs.Prelude.{◌≡◌, ◌≤◌, ◌++◌, Ok, bit_or, length, take, IfOk};
ghost use Rattle.std.specs.Int.{w32, cast_unsigned};
ghost use Rattle.link_base.specs.Number.{bytes_of};
ghost use Rattle.link_entries.specs.Stored.{StoresBytes, Encodes};
ghost use Rattle.link_requests.specs.Request.{link_head, attributes_of, request_of, sized, Stores};

use crate::head::{Head, head_error};
use crate::level::{Level, Scope, begins_at};
use crate::lists::unrepeated;
use crate::misfit::RequestError;
use crate::values::put_values;
use link_entries::storing::store;
use link_entries::{Entry, Misfit, MisfitAt};
use netlink_packet_route::{Context, Family};

const NLM_F_REQUEST: u16 = 1;

/// The maximum length of the attributes: `nlmsg_len` is a u32, and counts the 32 bytes of the headers.
const MOST_ATTRIBUTES: usize = 0xFFFF_FFFF - 32;

/// The maximum length of attributes that `write_request` makes once. It makes longer ones twice: to measure, and to store them.
const SHORT: usize = 256;

/// Returns the length of the message that `write_request` writes, in bytes. Nothing is allocated.
///
/// # Errors
///
/// As for `write_request`.
pub fn measure(head: &Head, values: &[Entry], octets: &[u8]) -> Result<usize, RequestError>
    ensures { result ≡ sized (request_of head.now octets.now values.now) }
{
    measure_into(head, values, octets, &mut [])
}

/// Returns the length of the message, as `measure` does, and stores its attributes at the start of `room`, if there is room.
///
/// # Errors
///
/// As for `write_request`.
fn measure_into(
    head: &Head,
    values: &[Entry],
    octets: &[u8],
    room: &mut [u8],
) -> Result<usize, RequestError>
    ensures size { result ≡ sized (request_of head.now octets.now values.now) }
    ensures stored { IfOk result (λ n. StoresBytes (attributes_of head.now octets.now values.now) room.old room.new) }
{
    match head_error(head) {
        Some(error) => Err(error),
        None => match put_attributes(head, values, octets, room) {
            Ok(size) if size > MOST_ATTRIBUTES => Err(RequestError::TooLarge),
            Ok(size) => Ok(32 + size),
            Err(first) => Err(RequestError::Value(first)),
        },
    }
}

/// Writes a request to the start of `out`: the head, with NLM_F_REQUEST, then the attributes that the values of the set `link`
/// encode to, in order. Values may refer to `octets`. Returns the number of bytes written, a multiple of four, or `None`
/// if `out` is too small. Nothing is allocated.
///
/// Values are those of [`link_entries::write`], with these differences:
///
/// - The `inner` of an attribute of the message is [`OF_MESSAGE`](crate::OF_MESSAGE), unless it has to name its form. So a value
///   of a deeper list whose depth was forgotten is an error. In lists of other sets no attribute has this mark.
/// - There is at most one `IFLA_LINKINFO`, one `IFLA_AF_SPEC` and one `IFLA_PROTINFO`, of which Linux takes one.
/// - Bytes, texts and lists of other sets name their form: 0 does not stand for it. If the `offset` of bytes, of a text or of a
///   struct is [`INLINE`](crate::INLINE), they are the first `length` of its `octets`, at most 16.
/// - If the `offset` of a list of another set is `INLINE`, the values of this list follow, one deeper. The set that reads them
///   is the one that [`opened`](netlink_packet_route::opened) returns. The kind of an `IFLA_LINKINFO` is the last in it, before
///   or after the data.
/// - In AF_BRIDGE requests an `IFLA_PROTINFO` of the form of such a list is one. It is written with NLA_F_NESTED.
/// - Names and kinds are checked.
///
/// # Errors
///
/// The first that applies of `BadType`, `NoIndex`, `Value` with the first value that cannot be written, and `TooLarge`. A value
/// has the first that applies of `Repeated`, `BadElement` and `BadDepth`; of `BadForm` and `BadNumber`; of `BadDepth` for the
/// values that follow it, `BadName`, `BadOctets` and `NoSet`; and, after the values that follow it in deeper lists, of
/// `TooLong`. `out` is unchanged unless the result is `Ok(Some(n))`; then `out[n..]`
/// is.
pub fn write_request(
    head: &Head,
    values: &[Entry],
    octets: &[u8],
    out: &mut [u8],
) -> Result<Option<usize>, RequestError>
    ensures { Stores (request_of head.now octets.now values.now) out.old out.new result }
{
    // First in a buffer of our own, since `out` is unchanged if the request cannot be written.
    let mut short = [0; SHORT];
    match measure_into(head, values, octets, &mut short) {
        Ok(length) if length > out.len() => Ok(None),
        Ok(length) => {
            store(out, 0, &message_head(head, length as u32));
            store(out, 16, &link_head(head));
            match place_attributes(head, values, octets, &short, length - 32, &mut out[32..]) {
                Ok(_) => Ok(Some(length)),
                Err(first) => Err(RequestError::Value(first)),
            }
        }
        Err(error) => Err(error),
    }
}

/// Stores the attributes of a request, as `put_attributes` does. Their length is `size`; if they fit in `short`, they are at its
/// start.
///
/// # Errors
///
/// As for `put_attributes`.
fn place_attributes(
    head: &Head,
    values: &[Entry],
    octets: &[u8],
    short: &[u8],
    size: usize,
    room: &mut [u8],
) -> Result<usize, MisfitAt>
    requires { size ≤ length short.now → attributes_of head.now octets.now values.now ≡ Ok (take size short.now) }
    ensures { Encodes (attributes_of head.now octets.now values.now) room.old room.new result }
{
    if size > short.len() {
        return put_attributes(head, values, octets, room);
    }
    store(room, 0, &short[..size]);
    Ok(size)
}

/// Stores the attributes of a request, if there is room. Returns their length; saturates at `usize::MAX`.
///
/// # Errors
///
/// The first value that cannot be written.
fn put_attributes(
    head: &Head,
    values: &[Entry],
    octets: &[u8],
    out: &mut [u8],
) -> Result<usize, MisfitAt>
    ensures { Encodes (attributes_of head.now octets.now values.now) out.old out.new result }
{
    if !begins_at(0, values) {
        return Err(MisfitAt {
            index: 0,
            misfit: Misfit::BadDepth,
        });
    }
    let level = Level {
        scope: Scope::Attributes(Family::Link),
        depth: 0,
        context: Context::of_message(head.address_family),
    };
    let index = unrepeated(values);
    match put_values(&level, &values[..index], octets, out) {
        Ok(_) if index < values.len() => Err(MisfitAt {
            index,
            misfit: Misfit::Repeated,
        }),
        Ok(size) => Ok(size),
        Err(first) => Err(first),
    }
}

/// Returns the bytes of a `struct nlmsghdr` of a message of this length.
fn message_head(head: &Head, length: u32) -> [u8; 16]
    ensures { result ≡ bytes_of 4 length ++ (bytes_of 2 head.now.kind ++ (bytes_of 2 (bit_or head.now.flags 1)
        ++ (bytes_of 4 head.now.sequence ++ bytes_of 4 head.now.port))) }
{
    let [a, b, c, d] = length.to_le_bytes();
    let [e, f] = head.kind.to_le_bytes();
    let [g, h] = (head.flags | NLM_F_REQUEST).to_le_bytes();
    let [i, j, k, l] = head.sequence.to_le_bytes();
    let [m, n, o, p] = head.port.to_le_bytes();
    [a, b, c, d, e, f, g, h, i, j, k, l, m, n, o, p]
}

/// Returns the bytes of a `struct ifinfomsg`.
fn link_head(head: &Head) -> [u8; 16]
    ensures { result ≡ link_head head.now }
{
    let family = head.address_family;
    let [a, b] = head.link_type.to_le_bytes();
    let [c, d, e, f] = index_bytes(head);
    let [g, h, i, j] = head.link_flags.to_le_bytes();
    let [k, l, m, n] = head.change.to_le_bytes();
    [family, 0, a, b, c, d, e, f, g, h, i, j, k, l, m, n]
}

/// Returns the bytes of `ifi_index`.
fn index_bytes(head: &Head) -> [u8; 4]
    ensures { result ≡ bytes_of 4 (cast_unsigned w32 head.now.index) }
{
    head.index.to_le_bytes()
}
