//! Names and kinds of links.

ghost use Rattle.std.specs.Prelude.{◌≡◌};
ghost use Rattle.std.specs.List.{list_all};
ghost use Rattle.link_requests.specs.Names.{has_length, is_in_name, is_name, is_in_kind, is_kind};

/// Checks whether Linux takes this name of a link (`dev_valid_name`, `net/core/dev.c`).
pub(crate) fn is_name(text: &[u8]) -> bool
    ensures { result ≡ is_name text.now }
{
    has_length(text, 16) && text != b".".as_slice() && text != b"..".as_slice() && are_in_name(text)
}

/// Checks whether Linux takes this kind of a link without cutting it: its buffer has 56 bytes (`MODULE_NAME_LEN`,
/// `net/core/rtnetlink.c`).
pub(crate) fn is_kind(text: &[u8]) -> bool
    ensures { result ≡ is_kind text.now }
{
    has_length(text, 56) && are_in_kind(text)
}

/// Checks whether a text fits, with a NUL, in a buffer of this size, and is not empty.
fn has_length(text: &[u8], size: usize) -> bool
    ensures { result ≡ has_length text.now size }
{
    !text.is_empty() && text.len() < size
}

/// Checks whether a name may have these bytes.
fn are_in_name(text: &[u8]) -> bool
    ensures { result ≡ list_all is_in_name text.now }
{
    text.iter().all(|byte| is_in_name(*byte))
}

/// Checks whether a name may have this byte.
fn is_in_name(byte: u8) -> bool
    ensures { result ≡ is_in_name byte }
{
    let is_space = matches!(byte, b'\t'..=b'\r' | b' ' | 0xA0);
    byte != 0 && byte != b'/' && byte != b':' && !is_space
}

/// Checks whether a kind may have these bytes.
fn are_in_kind(text: &[u8]) -> bool
    ensures { result ≡ list_all is_in_kind text.now }
{
    text.iter().all(|byte| is_in_kind(*byte))
}

/// Checks whether a kind may have this byte.
fn is_in_kind(byte: u8) -> bool
    ensures { result ≡ is_in_kind byte }
{
    byte != 0
}
