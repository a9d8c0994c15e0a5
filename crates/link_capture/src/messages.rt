//! How a stream of netlink messages begins: with the `nlmsg_len` and the `nlmsg_type` of a message.

ghost use Rattle.std.specs.Prelude.{◌≡◌, ◌+◌, ◌^◌, ◌≤◌, length, slice_index};
ghost use Rattle.link_capture.specs.Messages.{is_length, is_type, is_stream, begins_length, begins_type, begins_stream};
ghost use Rattle.link_capture.specs.Order.{number_at};
ghost use Rattle.link_capture.specs.declared.order.Order.TheVariants.{Little};

/// The number of bytes of a length and a type.
const FRONT: usize = 6;

/// The greatest length of the first message of a stream.
const MOST: u64 = 65_536;

/// Returns whether `bytes` start with the length and the type of a message.
pub(crate) fn is_stream(bytes: &[u8]) -> bool
    ensures { result ≡ is_stream bytes.now }
{
    bytes.len() >= FRONT && is_length(length_in(bytes)) && is_type(type_in(bytes))
}

/// Returns whether `bytes` are too few for a length and a type, and may start with those if more follow.
pub(crate) fn begins_stream(bytes: &[u8]) -> bool
    ensures { result ≡ begins_stream bytes.now }
{
    bytes.len() < FRONT && begins_length(bytes) && begins_type(bytes)
}

/// Returns whether `bytes`, fewer than a length and a type have, may start with those of a length.
fn begins_length(bytes: &[u8]) -> bool
    requires { length bytes.now ≤ 5 }
    ensures { result ≡ begins_length bytes.now }
{
    let low = length_in(bytes);
    is_length(low) || low + 256u64.pow(bytes.len() as u32) <= MOST
}

/// Returns whether the bytes after four, if there are any, may start with those of a type.
fn begins_type(bytes: &[u8]) -> bool
    ensures { result ≡ begins_type bytes.now }
{
    bytes.len() <= 4 || is_type(type_in(bytes))
}

/// Returns the number in the first four bytes. Zeros are in the place of those that are missing.
fn length_in(bytes: &[u8]) -> u64
    ensures value { result ≡ number_at Little 4 0 bytes.now }
    ensures most { result ≤ 4_294_967_295 }
{
    let high = byte_at(bytes, 2) + 256 * byte_at(bytes, 3);
    byte_at(bytes, 0) + 256 * (byte_at(bytes, 1) + 256 * high)
}

/// Returns the number in the two bytes after four. Zeros are in the place of those that are missing.
fn type_in(bytes: &[u8]) -> u64
    ensures { result ≡ number_at Little 2 4 bytes.now }
{
    byte_at(bytes, 4) + 256 * byte_at(bytes, 5)
}

/// Returns the byte at an index, or 0 if there is none.
fn byte_at(bytes: &[u8], index: usize) -> u64
    ensures value { result ≡ slice_index bytes.now index }
    ensures most { result ≤ 255 }
{
    match bytes.get(index) {
        Some(byte) => (*byte).into(),
        None => 0,
    }
}

/// Returns whether the first message of a stream may have this length.
fn is_length(length: u64) -> bool
    ensures { result ≡ is_length length }
{
    16 <= length && length <= MOST
}

/// Returns whether the first message of a stream may have this type: NLMSG_NOOP to NLMSG_OVERRUN, that of the times which
/// `rtmon` records, or RTM_BASE to RTM_MAX.
fn is_type(kind: u64) -> bool
    ensures { result ≡ is_type kind }
{
    1 <= kind && kind <= 4 || 15 <= kind && kind <= 123
}
