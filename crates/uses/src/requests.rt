//! Writes whole messages to send: requests about links.

ghost use Rattle.std.specs.Prelude.{◌≡◌, ◌↔◌, ◌<◌, ◌≤◌, [], ◌∷◌, length, pos, None, Ok, IfErr};
ghost use Rattle.link_requests.specs.Request.{head_with, request_of, Stores};
ghost use Rattle.link_requests.specs.declared.misfit.RequestError.{RequestError};
ghost use Rattle.link_requests.specs.Value.{of_message};
ghost use Rattle.uses.specs.Requests.{empty_value, number_value, text_value, held_value, bond_values};

use link_entries::octets::padded;
use link_entries::{Entry, forms};
use link_messages::link_types::{IFLA_IFNAME, IFLA_LINKINFO, IFLA_MASTER};
use link_requests::{Head, INLINE, OF_MESSAGE, RequestError, write_request};

// Types in an IFLA_LINKINFO (`include/uapi/linux/if_link.h`).

const IFLA_INFO_KIND: u16 = 1;

const IFLA_INFO_DATA: u16 = 2;

// Types and a number of a bond (`include/uapi/linux/if_link.h`, `if_bonding.h`).

const IFLA_BOND_MODE: u16 = 1;

const IFLA_BOND_MIIMON: u16 = 3;

const BOND_MODE_8023AD: u64 = 4;

/// Writes a request that adds the bond `bond0` in mode 802.3ad, with a MII monitoring interval of 100 ms (RTM_NEWLINK with
/// NLM_F_CREATE and NLM_F_EXCL). Returns the number of bytes written, or `None` if `out` is too small: it takes 76 bytes. The
/// rest of `out` is unchanged.
///
/// # Errors
///
/// None occurs: Linux takes the name and the kind, and the numbers fit.
pub fn bond_message(out: &mut [u8]) -> Result<Option<usize>, RequestError>
    ensures written { Stores (request_of (head_with 16 0x604 (pos 0)) [] bond_values) out.old out.new result }
    ensures too_small { (result ≡ Ok None) ↔ (length out.old < 76) }
    ensures no_error { IfErr result (λ error. ⊥) }
{
    write_request(&Head::create(), &bond_values(), &[], out)
}

/// Writes a request that makes `port` a port of `bond` (`IFLA_MASTER`). Both are interface indexes; if `bond` is 0, the port
/// leaves its bond. Linux refuses a port that is up. Returns the number of bytes written, or `None` if `out` is too small: it
/// takes 40 bytes. The rest of `out` is unchanged.
///
/// # Errors
///
/// `NoIndex` if `port` is not positive; no other error occurs.
pub fn join(port: i32, bond: u32, out: &mut [u8]) -> Result<Option<usize>, RequestError>
    ensures written { Stores (request_of (head_with 16 4 port) [] (number_value 0 10 of_message bond ∷ [])) out.old out.new result }
    ensures no_index { IfErr result (λ error. error ≡ RequestError.NoIndex) }
{
    let values = [number(0, IFLA_MASTER, OF_MESSAGE, bond.into())];
    write_request(&Head::change(port), &values, &[], out)
}

/// Writes a request that deletes the link with this interface index (RTM_DELLINK). Returns the number of bytes written, or
/// `None` if `out` is too small: it takes 32 bytes. The rest of `out` is unchanged.
///
/// # Errors
///
/// `NoIndex` if the index is not positive; no other error occurs.
pub fn delete_link(index: i32, out: &mut [u8]) -> Result<Option<usize>, RequestError>
    ensures written { Stores (request_of (head_with 17 4 index) [] []) out.old out.new result }
    ensures no_index { IfErr result (λ error. error ≡ RequestError.NoIndex) }
{
    write_request(&Head::delete(index), &[], &[], out)
}

/// Returns the values of `bond_message`. A value is one deeper than the list that it is in; numbers and lists of the message are
/// marked.
fn bond_values() -> [Entry; 6]
    ensures { result ≡ bond_values }
{
    [
        text(0, IFLA_IFNAME, 0, b"bond0\0"),
        value(0, IFLA_LINKINFO, OF_MESSAGE, forms::LIST),
        text(1, IFLA_LINKINFO, IFLA_INFO_KIND, b"bond"),
        held(1, IFLA_LINKINFO, IFLA_INFO_DATA),
        number(2, IFLA_BOND_MODE, 0, BOND_MODE_8023AD),
        number(2, IFLA_BOND_MIIMON, 0, 100),
    ]
}

/// Returns a value at this depth, without content: an attribute, or an element with a type of its own.
fn value(depth: u8, kind: u16, inner: u16, form: u8) -> Entry
    ensures { result ≡ empty_value depth kind inner form }
{
    Entry {
        kind,
        inner,
        flags: 0,
        form,
        depth,
        second: 0,
        length: 0,
        number: 0,
        offset: 0,
        octets: [0; 16],
    }
}

/// Returns a number. Its form, 0, stands for that of its type.
fn number(depth: u8, kind: u16, inner: u16, number: u64) -> Entry
    ensures { result ≡ number_value depth kind inner number }
{
    Entry {
        number,
        ..value(depth, kind, inner, 0)
    }
}

/// Returns a text of at most sixteen bytes.
fn text(depth: u8, kind: u16, inner: u16, text: &[u8]) -> Entry
    requires { length text.now ≤ 16 }
    ensures { result ≡ text_value depth kind inner text.now }
{
    Entry {
        length: text.len() as u32,
        offset: INLINE,
        octets: padded(text),
        ..value(depth, kind, inner, forms::TEXT)
    }
}

/// Returns a list of another set, whose values follow.
fn held(depth: u8, kind: u16, inner: u16) -> Entry
    ensures { result ≡ held_value depth kind inner }
{
    Entry {
        offset: INLINE,
        ..value(depth, kind, inner, forms::HELD)
    }
}
