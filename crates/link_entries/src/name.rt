//! The name of a CAN controller, as a rewriting writes it.

ghost use Rattle.std.specs.Prelude.{◌≡◌, ◌≤◌, ◌+◌, ◌-◌, ◌++◌, length, take, drop, min};
ghost use Rattle.link_base.specs.Name.{name_of, name_field};

use bstr::ByteSlice;
use link_base::before_nul;

/// Length of a name in bytes, without the NUL at the end of its field.
const NAME: usize = 15;

/// Returns the name field that is written for the name in `field`.
pub(crate) fn written_name(field: &[u8]) -> [u8; 16]
    ensures { result ≡ name_field (name_of field.now) }
{
    let mut rest = before_nul(field).chars();
    let mut name = [0; 16];
    let mut end = 0;
    while let Some(character) = rest.next() {
        let mut octets = [0; 4];
        let text = character.encode_utf8(&mut octets).as_bytes();
        end = put_text(&mut name, end, text);
    }
    name
}

/// Stores as much of `text` as fits in a name after its first `end` bytes. Returns the length of the name.
fn put_text(name: &mut [u8; 16], end: usize, text: &[u8]) -> usize
    requires { end ≤ 15 }
    ensures end { result ≡ min (end + length text.now) 15 }
    ensures name { name.new ≡ take end name.old ++ (take (15 - end) text.now ++ drop result name.old) }
{
    let count = text.len().min(NAME - end);
    name[end..end + count].copy_from_slice(&text[..count]);
    end + count
}
