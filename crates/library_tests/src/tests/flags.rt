//! Tests the functions of `Flags`, which are written by hand.

use bitflags::Flags;
use netlink_packet_route::link::{LacpState, VlanFlags};
use std::hash::{DefaultHasher, Hash, Hasher};
use std::process::Abort;

/// Tests each function on two sets that have one bit in common, one bit each of their own, and one unnamed bit.
fn calls<F: Flags<Bits = u32> + Copy + PartialEq>(rt: &impl Abort) {
    let a = F::from_bits_retain(0x8000_0003);
    let b = F::from_bits_retain(0x5);
    let mut inserted = a;
    inserted.insert(b);
    let mut removed = inserted;
    removed.remove(b);
    let mut toggled = removed;
    toggled.toggle(b);
    let mut unset = toggled;
    unset.set(b, false);
    let mut set = unset;
    set.set(b, true);
    let retained = F::from_bits(0x8000_0000).map_or(0, |it| it.bits());
    for (bits, wanted) in [
        (a.union(b).bits(), 0x8000_0007),
        (a.intersection(b).bits(), 0x1),
        (a.difference(b).bits(), 0x8000_0002),
        (a.symmetric_difference(b).bits(), 0x8000_0006),
        (a.complement().bits(), 0x7FFF_FFFC),
        (inserted.bits(), 0x8000_0007),
        (removed.bits(), 0x8000_0002),
        (toggled.bits(), 0x8000_0007),
        (unset.bits(), 0x8000_0002),
        (set.bits(), 0x8000_0007),
        (retained, 0x8000_0000),
        (F::from_bits_truncate(0x8000_0001).bits(), 0x8000_0001),
        (F::all().bits(), 0xFFFF_FFFF),
    ] {
        assert!(rt; bits == wanted);
    }
    for (is_so, wanted) in [
        (inserted.contains(b), true),
        (a.contains(b), false),
        (a.intersects(b), true),
        (removed.intersects(b), false),
        (F::all().is_all(), true),
        (a.is_all(), false),
        (F::empty().is_empty(), true),
        (a.is_empty(), false),
        (set == a.union(b), true),
        (set == a, false),
    ] {
        assert!(rt; is_so == wanted);
    }
}

#[test]
fn calls_of_flags(rt: HostRuntime) {
    calls::<VlanFlags>(&rt);
    assert!(rt; VlanFlags::Gvrp.union(VlanFlags::Mvrp).bits() == 0xA);
    let state = LacpState::LACP_ACTIVITY.union(LacpState::AGGREGATION);
    assert!(rt; state == LacpState::from_bits_retain(5) && LacpState::all().bits() == 0xFF);
}

fn hash_of<T: Hash + Drop>(value: T) -> u64 {
    let mut state = DefaultHasher::new();
    value.hash(&mut state);
    state.finish()
}

#[test]
fn hashes(rt: HostRuntime) {
    let joined = VlanFlags::ReorderHdr.union(VlanFlags::Gvrp);
    assert!(rt; hash_of(joined) == hash_of(VlanFlags::from_bits_retain(3)));
}
