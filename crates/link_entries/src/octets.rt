//! Sixteen octets.

ghost use Rattle.std.specs.Prelude.{◌≡◌, length};
ghost use Rattle.link_entries.specs.Entry.{padded};

/// Returns the first sixteen of these octets, and zeros after them if there are fewer.
#[inline(always)]
pub fn padded(octets: &[u8]) -> [u8; 16]
    ensures { result ≡ padded octets.now }
{
    let mut all = [0; 16];
    let count = octets.len().min(16);
    all[..count].copy_from_slice(&octets[..count]);
    all
}

/// Returns four octets, and zeros after them.
#[inline(always)]
pub(crate) fn four(s: &[u8]) -> [u8; 16]
    requires { length s.now ≡ 4 }
    ensures { result ≡ padded s.now }
{
    [s[0], s[1], s[2], s[3], 0, 0, 0, 0, 0, 0, 0, 0, 0, 0, 0, 0]
}

/// Returns sixteen octets.
#[inline(always)]
pub(crate) fn sixteen(s: &[u8]) -> [u8; 16]
    requires { length s.now ≡ 16 }
    ensures { result ≡ padded s.now }
{
    [
        s[0], s[1], s[2], s[3], s[4], s[5], s[6], s[7], s[8], s[9], s[10], s[11], s[12], s[13],
        s[14], s[15],
    ]
}
