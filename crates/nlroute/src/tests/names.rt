//! Runs the program with the name of each `Family`.

use super::devices::buffered;
use crate::running::run;
use netlink_packet_route::{Family, families, report};

/// For each attribute set, an input whose output shows how this set decodes.
const INPUTS: [&str; 10] = [
    "06 00 00 80 02 00 00 00",
    "05 00 06 00 02 00 00 00",
    "06 00 08 00 3f 01 00 00",
    "07 00 15 00 01 02 03 00",
    "06 00 18 00 01 02 00 00",
    "06 00 05 00 91 00 00 00",
    "0a 00 08 00 01 00 02 00 ff ff 00 00",
    "08 00 01 80 2a 00 00 00 08 00 02 00 00 00 00 00",
    "05 00 07 40 01 00 00 00",
    "05 00 2d 00 02 00 00 00 06 00 18 00 01 02 00 00",
];

macro_rules! all {
    ($($variant:ident $name:tt $attributes:ident $number:tt $holders:tt)*) => {
        [$(Family::$variant),*]
    };
}

/// The output is that of `report`, which `list_tests` compares with outputs that were computed by hand.
#[test]
fn each_family_by_its_name(rt: HostRuntime) {
    for family in families!([all]) {
        for text in INPUTS {
            let (wanted, code) = report(rt.alloc(), family, text.as_bytes()).expect(&rt, text);
            let mut written = buffered(&rt, rt.alloc(), Vec::new(rt.alloc()));
            let name = family.name();
            let status = run(rt.alloc(), Some(name), &mut text.as_bytes(), &mut written);
            assert_eq!(rt; status, code, "for {name} and {text}");
            assert_eq!(rt;
                written.get_ref().as_slice(),
                wanted.as_bytes(),
                "for {name} and {text}"
            );
        }
    }
}

#[test]
fn a_fault_by_its_status(rt: HostRuntime) {
    let mut written = buffered(&rt, rt.alloc(), Vec::new(rt.alloc()));
    let mut text = b"05 00 01 00 2a 00 00 00".as_slice();
    let status = run(rt.alloc(), Some("hsr"), &mut text, &mut written);
    assert_eq!(rt; status, 1);
    assert_eq!(rt;
        written.get_ref().as_slice(),
        b"fault at 0: kind 1: wrong length 4 1\n".as_slice()
    );
}
