//! Alignment of attributes.

ghost use Rattle.std.specs.Prelude.{◌≡◌, ◌+◌, ◌<◌, ◌^◌};
ghost use Rattle.link_base.specs.Frame.{pad};

/// Returns `len` rounded up to a multiple of four (`NLA_ALIGN`, `include/uapi/linux/netlink.h`). `len` must be at most
/// `usize::MAX - 3`.
#[inline(always)]
pub fn padded(len: usize) -> usize
    requires { len + 3 < 2 ^ 64 }
    ensures { result ≡ pad len }
{
    (len + 3) / 4 * 4
}

/// Returns the length of an attribute whose payload has `size` bytes: header, payload and padding. `size` must be at
/// most `usize::MAX - 7`.
#[inline(always)]
pub(crate) fn total_size(size: usize) -> usize
    requires { size + 7 < 2 ^ 64 }
    ensures { result ≡ pad (4 + size) }
{
    (size + 7) / 4 * 4
}
