//! Requests that iproute2 sends, byte by byte, and requests that are refused.

use crate::{Head, INLINE, OF_MESSAGE, RequestError, measure, write_request};
use link_entries::octets::padded;
use link_entries::{Entry, Misfit, MisfitAt, forms};
use std::rt::HostRuntime;

/// Returns a value of this form, without content.
fn value(depth: u8, kind: u16, inner: u16, form: u8) -> Entry {
    Entry {
        kind,
        inner,
        flags: 0,
        form,
        depth,
        second: 0,
        length: 0,
        number: 0,
        offset: 0,
        octets: [0; 16],
    }
}

/// Returns a number; its form is that of its type.
fn number(depth: u8, kind: u16, number: u64) -> Entry {
    Entry {
        number,
        ..value(depth, kind, 0, 0)
    }
}

/// Returns a value, marked as an attribute of the message.
fn own(value: Entry) -> Entry {
    Entry {
        inner: OF_MESSAGE,
        depth: 0,
        ..value
    }
}

/// Returns a list of kinds and data.
fn linkinfo() -> Entry {
    own(value(0, 18, 0, forms::LIST))
}

/// Returns two numbers.
fn pair(depth: u8, kind: u16, inner: u16, number: u64, second: u32) -> Entry {
    Entry {
        number,
        second,
        ..value(depth, kind, inner, 0)
    }
}

/// Returns a text of at most sixteen bytes.
fn text(depth: u8, kind: u16, inner: u16, text: &[u8]) -> Entry {
    Entry {
        length: (text.len() % 256) as u32,
        offset: INLINE,
        octets: padded(text),
        ..value(depth, kind, inner, forms::TEXT)
    }
}

/// Returns a list of another set, whose values follow.
fn list(depth: u8, kind: u16, inner: u16) -> Entry {
    Entry {
        offset: INLINE,
        ..value(depth, kind, inner, forms::HELD)
    }
}

/// Returns whether the request, with sequence number 1, is these bytes, and needs as many.
fn is_written(head: Head, values: &[Entry], wanted: &[u8]) -> bool {
    let head = Head {
        sequence: 1,
        ..head
    };
    let mut out = [0xAAu8; 160];
    match write_request(&head, values, b"", &mut out) {
        Ok(Some(size)) => {
            size == wanted.len()
                && out.starts_with(wanted)
                && measure(&head, values, b"") == Ok(size)
        }
        _ => false,
    }
}

/// Returns whether a request with this alias has this length, and the alias.
fn has_alias(alias: &[u8], length: usize) -> bool {
    let head = Head::create();
    let values = [Entry {
        length: (alias.len() % 65536) as u32,
        ..value(0, 20, 0, forms::TEXT)
    }];
    let mut out = [0xAAu8; 300];
    let is_written = write_request(&head, &values, alias, &mut out) == Ok(Some(length));
    is_written
        && measure(&head, &values, alias) == Ok(length)
        && out[36..].starts_with(alias)
        && out.ends_with(&[0xAA; 8])
}

/// Returns whether the value at this index is refused so.
fn is_refused(values: &[Entry], index: usize, misfit: Misfit) -> bool {
    let wanted = RequestError::Value(MisfitAt { index, misfit });
    measure(&Head::create(), values, b"") == Err(wanted)
}

// ip link add bond0 type bond mode 802.3ad miimon 100 lacp_rate fast xmit_hash_policy layer3+4 ad_select bandwidth
#[test]
fn bond(rt: HostRuntime) {
    let values = [
        text(0, 3, 0, b"bond0\0"),
        linkinfo(),
        text(1, 18, 1, b"bond"),
        list(1, 18, 2),
        number(2, 1, 4),
        number(2, 3, 100),
        number(2, 21, 1),
        number(2, 14, 1),
        number(2, 22, 1),
    ];
    let wanted: [u8; 100] = [
        100, 0, 0, 0, 16, 0, 5, 6, 1, 0, 0, 0, 0, 0, 0, 0, 0, 0, 0, 0, 0, 0, 0, 0, 0, 0, 0, 0, 0,
        0, 0, 0, 10, 0, 3, 0, 98, 111, 110, 100, 48, 0, 0, 0, 56, 0, 18, 0, 8, 0, 1, 0, 98, 111,
        110, 100, 44, 0, 2, 0, 5, 0, 1, 0, 4, 0, 0, 0, 8, 0, 3, 0, 100, 0, 0, 0, 5, 0, 21, 0, 1, 0,
        0, 0, 5, 0, 14, 0, 1, 0, 0, 0, 5, 0, 22, 0, 1, 0, 0, 0,
    ];
    assert!(rt; is_written(Head::create(), &values, &wanted));
}

// ip link add link lo name v6 type vlan proto 802.1ad id 6 gvrp on loose_binding on ingress-qos-map 1:2 3:4 egress-qos-map 5:6
#[test]
fn vlan(rt: HostRuntime) {
    let values = [
        own(number(0, 5, 1)),
        text(0, 3, 0, b"v6\0"),
        linkinfo(),
        text(1, 18, 1, b"vlan"),
        list(1, 18, 2),
        number(2, 5, 0x88A8),
        number(2, 1, 6),
        value(2, 4, 0, 0),
        pair(3, 4, 1, 1, 2),
        pair(3, 4, 1, 3, 4),
        value(2, 3, 0, 0),
        pair(3, 3, 1, 5, 6),
        pair(2, 2, 0, 6, 6),
    ];
    let wanted: [u8; 136] = [
        136, 0, 0, 0, 16, 0, 5, 6, 1, 0, 0, 0, 0, 0, 0, 0, 0, 0, 0, 0, 0, 0, 0, 0, 0, 0, 0, 0, 0,
        0, 0, 0, 8, 0, 5, 0, 1, 0, 0, 0, 7, 0, 3, 0, 118, 54, 0, 0, 88, 0, 18, 0, 8, 0, 1, 0, 118,
        108, 97, 110, 76, 0, 2, 0, 6, 0, 5, 0, 136, 168, 0, 0, 6, 0, 1, 0, 6, 0, 0, 0, 28, 0, 4, 0,
        12, 0, 1, 0, 1, 0, 0, 0, 2, 0, 0, 0, 12, 0, 1, 0, 3, 0, 0, 0, 4, 0, 0, 0, 16, 0, 3, 0, 12,
        0, 1, 0, 5, 0, 0, 0, 6, 0, 0, 0, 12, 0, 2, 0, 6, 0, 0, 0, 6, 0, 0, 0,
    ];
    assert!(rt; is_written(Head::create(), &values, &wanted));
}

// bridge link set dev va cost 44 priority 3 state 2 guard on learning off flood off mcast_flood off hwmode vepa
#[test]
fn bridge_port(rt: HostRuntime) {
    let values = [
        list(0, 12, 0),
        number(1, 5, 1),
        number(1, 9, 0),
        number(1, 27, 0),
        number(1, 8, 0),
        number(1, 3, 44),
        number(1, 2, 3),
        number(1, 1, 2),
        list(0, 26, 0),
        number(1, 0, 2),
        number(1, 1, 1),
    ];
    let wanted: [u8; 112] = [
        112, 0, 0, 0, 19, 0, 5, 0, 1, 0, 0, 0, 0, 0, 0, 0, 7, 0, 0, 0, 3, 0, 0, 0, 0, 0, 0, 0, 0,
        0, 0, 0, 60, 0, 12, 128, 5, 0, 5, 0, 1, 0, 0, 0, 5, 0, 9, 0, 0, 0, 0, 0, 5, 0, 27, 0, 0, 0,
        0, 0, 5, 0, 8, 0, 0, 0, 0, 0, 8, 0, 3, 0, 44, 0, 0, 0, 6, 0, 2, 0, 3, 0, 0, 0, 5, 0, 1, 0,
        2, 0, 0, 0, 20, 0, 26, 0, 6, 0, 0, 0, 2, 0, 0, 0, 6, 0, 1, 0, 1, 0, 0, 0,
    ];
    assert!(rt; is_written(Head::bridge(3), &values, &wanted));
}

// ip link property add dev va altname another
#[test]
fn property(rt: HostRuntime) {
    let values = [
        own(value(0, 52, 0, forms::LIST)),
        text(1, 52, 53, b"another\0"),
    ];
    let wanted: [u8; 48] = [
        48, 0, 0, 0, 108, 0, 5, 14, 1, 0, 0, 0, 0, 0, 0, 0, 0, 0, 0, 0, 3, 0, 0, 0, 0, 0, 0, 0, 0,
        0, 0, 0, 16, 0, 52, 128, 12, 0, 53, 0, 97, 110, 111, 116, 104, 101, 114, 0,
    ];
    assert!(rt; is_written(Head::property(3), &values, &wanted));
}

// ip link del br0 type bridge
#[test]
fn deletion(rt: HostRuntime) {
    let values = [linkinfo(), text(1, 18, 1, b"bridge")];
    let wanted: [u8; 48] = [
        48, 0, 0, 0, 17, 0, 5, 0, 1, 0, 0, 0, 0, 0, 0, 0, 0, 0, 0, 0, 4, 0, 0, 0, 0, 0, 0, 0, 0, 0,
        0, 0, 16, 0, 18, 0, 10, 0, 1, 0, 98, 114, 105, 100, 103, 101, 0, 0,
    ];
    assert!(rt; is_written(Head::delete(4), &values, &wanted));
}

#[test]
fn refused_heads(rt: HostRuntime) {
    assert!(rt; measure(&Head::new(20, 0, 1), &[], b"") == Err(RequestError::BadType));
    assert!(rt; measure(&Head::change(0), &[], b"") == Err(RequestError::NoIndex));
    assert!(rt; measure(&Head::delete(-1), &[], b"") == Err(RequestError::NoIndex));
    assert!(rt; measure(&Head::property(0), &[], b"") == Err(RequestError::NoIndex));
    assert!(rt; measure(&Head::dump(), &[], b"") == Ok(32));
}

#[test]
fn refused_names(rt: HostRuntime) {
    let name = Misfit::BadName;
    assert!(rt; is_refused(&[text(0, 3, 0, b"")], 0, name));
    assert!(rt; is_refused(&[text(0, 3, 0, b"sixteen_bytes_ab")], 0, name));
    assert!(rt; is_refused(&[text(0, 3, 0, b"..")], 0, name));
    assert!(rt; is_refused(&[text(0, 3, 0, b"a b")], 0, name));
    assert!(rt; is_refused(&[text(0, 3, 0, b"a\0b")], 0, name));
    let info = linkinfo();
    assert!(rt; is_refused(&[info, text(1, 18, 1, b"")], 1, name));
    assert!(rt; is_refused(&[info, text(1, 18, 4, b"bo\0nd")], 1, name));
}

#[test]
fn refused_values(rt: HostRuntime) {
    let info = linkinfo();
    let data = list(1, 18, 2);
    let kind = text(1, 18, 1, b"vlan");
    let id = number(2, 1, 5);
    assert!(rt; is_refused(&[info, number(1, 1, 5)], 1, Misfit::BadElement));
    assert!(rt; is_refused(&[info, data, id], 1, Misfit::NoSet));
    let unread = text(1, 18, 1, b"zz9");
    assert!(rt; is_refused(&[info, data, id, unread], 1, Misfit::NoSet));
    assert!(rt; !is_refused(&[info, data, id, kind], 1, Misfit::NoSet));
    let large = Misfit::BadNumber;
    assert!(rt; is_refused(&[own(number(0, 4, 0x1_0000_0000))], 0, large));
    assert!(rt; is_refused(&[info, kind, data, number(2, 1, 0x1_0000)], 3, large));
}

#[test]
fn refused_depths(rt: HostRuntime) {
    let depth = Misfit::BadDepth;
    let info = linkinfo();
    let data = list(1, 18, 2);
    let kind = text(1, 18, 1, b"vlan");
    let id = number(2, 1, 5);
    assert!(rt; is_refused(&[id], 0, depth));
    assert!(rt; is_refused(&[info, kind, id], 2, depth));
    assert!(rt; is_refused(&[info, data, kind], 1, depth));
    assert!(rt; is_refused(&[info, data, number(3, 1, 5), kind], 2, depth));
    // A number of a bond whose depth was forgotten would be the MTU.
    let updelay = number(0, 4, 200);
    assert!(rt; is_refused(&[info, text(1, 18, 1, b"bond"), data, updelay], 2, depth));
    let miimon = number(2, 3, 100);
    let bond = [info, text(1, 18, 1, b"bond"), data, miimon, updelay];
    assert!(rt; is_refused(&bond, 4, depth));
    assert!(rt; is_refused(&[value(0, 18, 0, forms::LIST)], 0, depth));
    let inside = Entry {
        depth: 2,
        ..own(id)
    };
    assert!(rt; is_refused(&[info, kind, data, inside], 3, depth));
    // Bytes have to name their form, and need no mark.
    assert!(rt; is_refused(&[value(0, 20, 0, 0)], 0, Misfit::BadForm));
    assert!(rt; !is_refused(&[value(0, 20, 0, forms::TEXT)], 0, Misfit::BadForm));
}

#[test]
fn repeated_lists(rt: HostRuntime) {
    let info = linkinfo();
    let kind = text(1, 18, 1, b"dummy");
    assert!(rt; is_refused(&[info, kind, info], 2, Misfit::Repeated));
    let twice = own(number(0, 4, 1500));
    assert!(rt; measure(&Head::create(), &[twice, twice, info, kind], b"") == Ok(64));
    // The first value that cannot be written is before the second list.
    assert!(rt; is_refused(&[info, text(1, 18, 1, b""), info], 1, Misfit::BadName));
}

// The longest attributes that are made once, and longer ones
#[test]
fn aliases(rt: HostRuntime) {
    assert!(rt; has_alias(&[b'a'; 252], 288));
    assert!(rt; has_alias(&[b'a'; 253], 292));
}
