//! Bytes that are stored in a buffer, as far as there is room.

ghost use Rattle.std.specs.Prelude.{◌≡◌, ◌≤◌, ◌<◌, ◌+◌, ◌-◌, ◌^◌, length, replicate};
ghost use Rattle.link_base.specs.Frame.{max_payload, pad};
ghost use Rattle.link_entries.specs.Stored.{StoresAt, header};

/// Stores bytes at an offset, if there is room for all of them.
#[inline(always)]
pub fn store(room: &mut [u8], at: usize, bytes: &[u8])
    requires { at + length bytes.now < 2 ^ 64 }
    ensures { StoresAt at bytes.now room.old room.new }
{
    let end = at + bytes.len();
    if end <= room.len() {
        room[at..end].copy_from_slice(bytes);
    }
}

/// Stores the zeros after a payload of `size` bytes that starts at an offset.
#[inline(always)]
pub fn store_padding(room: &mut [u8], at: usize, size: usize)
    requires { at + size + 3 < 2 ^ 64 }
    ensures { StoresAt (at + size) (replicate (pad (4 + size) - (4 + size)) 0) room.old room.new }
{
    match size % 4 {
        0 => {}
        1 => store(room, at + size, &[0, 0, 0]),
        2 => store(room, at + size, &[0, 0]),
        _ => store(room, at + size, &[0]),
    }
}

/// Stores the header of an attribute whose payload has `size` bytes. Returns the length of the attribute.
#[inline(always)]
pub fn store_header(room: &mut [u8], kind_field: u16, size: usize) -> usize
    requires { size ≤ max_payload }
    ensures length { result ≡ pad (4 + size) }
    ensures stored { StoresAt 0 (header kind_field size) room.old room.new }
{
    let [a, b] = ((size + 4) as u16).to_le_bytes();
    let [c, d] = kind_field.to_le_bytes();
    store(room, 0, &[a, b, c, d]);
    (size + 7) / 4 * 4
}
