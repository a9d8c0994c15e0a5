//! The tests, and the functions that several of them use.
//!
//! Most tests have a table of lines. A line is a list: the name of its attribute set, and hex digits, which may have
//! spaces among them.

mod canonical;
mod counts;
mod laws;
mod limits;
mod prefixes;
mod reports;
mod rewritings;
mod views;

use netlink_packet_route::{Family, hex_text};
use std::alloc::Global;
use std::process::Abort;

/// Canonical lists of every attribute set. Each word of digits is an attribute with its padding.
const CANONICAL: [&str; 57] = [
    "dsa",
    "hsr",
    "vlan",
    "bond",
    "bond_port",
    "bridge",
    "bridge_port",
    "af_spec_bridge",
    "proto_bridge",
    "vxlan",
    "can",
    "link",
    "af_spec",
    "inet",
    "inet6",
    "mctp",
    "reply",
    "dsa 080001002a000000 080001002a000000",
    "dsa 080001002a000000 0400ff3f",
    "dsa 04000000",
    "hsr 0a00040001154e0001000000 05006340ff000000",
    "hsr 0800080007000000 0600050034120000",
    "vxlan 08000a008000ee48 04001c00 05001d0002000000 08001a0000012345 06000f0012b50000",
    "geneve 04000600 0600050017c10000 05000c0001000000 08000f008000ee48",
    "vrf 0800010064000000",
    "vrf_port 0800010064000000",
    "tun 0500030002000000 0500040001000000 0800080000000000",
    "ipvlan 0600010002000000 0600020001000000",
    "macvlan 0800010010000000 0600020002000000 100005000a0004000200000000010000 08000900ffffffff",
    "netkit 0500020001000000 0800030002000000 0600080010000000",
    "veth 1c000100000000000000000000000000000000000700030078310000 1400010000000000000000000000000000000000",
    "vlan 0600050088a80000 180003000c0001000100000002000000070009c001020300",
    "vlan 06006300dead0000 100003000c0001000100000002000000",
    "vlan 0c000200010000001f000000 060063c0dead0000",
    "vlan 0c000300080009c001020304",
    "vlan 04000300 04000400",
    "bond 0500010004000000 14000800080000000a000001080001000a000002 0c0017000600010007000000",
    "bond 0500010009000000 04000800",
    "bond_port 060008003f000000 0a0004000200000000010000",
    "bond_port 08000900ffffffff",
    "bridge 0c000b008000020000000001 0c002f8008000100c0a80001",
    "bridge 04001500 0600080081000000 0c002e000100000003000000",
    "bridge_port 05000b0001000000 06001ac0dead0000 05002d0001000000",
    "af_spec_bridge 0600000002000000 0c0003000800010064000000 0800020006000100",
    "af_spec_bridge 1c0003000800010064000000060002000a0000000600030000000000",
    "af_spec_bridge 04000400 04000680",
    "proto_bridge 05002d0001000000 060004c0dead0000",
    "can 0800030000127a00 06000b0078000000 0c0010800800070003000000",
    "can 0800080001000200 0c0005002100000020000000",
    "can 08000c0078000000 0c000d0048e80100a0860100 04000e00",
    "can 0600124001000000",
    "link 08000400dc050000 0500210001000000 1000120009000100766c616e00000000",
    "af_spec 0c0002000800010001000000",
    "inet 0800010001000000",
    "inet6 0800010000000080 0500080001000000",
    "mctp 0800010001000000",
    "reply 0800020014000000",
];

/// Asserts `is_so`. A failure names `row`.
fn holds(rt: &impl Abort, is_so: bool, row: &str) {
    assert!(rt; is_so, "in {row}");
}

/// Decodes hex digits, which may have spaces among them.
fn bytes(rt: &impl Abort, alloc: Global, digits: &str) -> Vec<u8> {
    hex_text::decode(alloc, digits.as_bytes()).expect(rt, digits)
}

/// Decodes hex digits, and appends zeros up to a length.
fn filled(rt: &impl Abort, alloc: Global, digits: &str, length: usize) -> Vec<u8> {
    let mut bytes = bytes(rt, alloc, digits);
    bytes.resize(length, 0).expect(rt, digits);
    bytes
}

/// Returns the list of a line.
fn list_of(rt: &impl Abort, alloc: Global, line: &str) -> (Family, Vec<u8>) {
    let (name, digits) = line.split_once(' ').unwrap_or((line, ""));
    let family = Family::from_name(name).expect(rt, line);
    (family, bytes(rt, alloc, digits))
}
