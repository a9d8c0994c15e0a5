//! Tests enums with an `Other(n)` variant, one for each rule for texts: their values, their `Display` output, and
//! parsing.

use crate::tests::holds;
use netlink_packet_route::link::{
    BondAllPortActive, BondLacpRate, BondMode, BondPortState, BridgeMulticastRouterType,
    BridgeStpState, ChurnState, DecodeError, DecodeFault, HsrProtocol, MiiStatus, VlanProtocol,
};
use std::alloc::Global;
use std::fmt::Display;
use std::process::Abort;
use std::str::FromStr;

/// Asserts the value of each number, and the `Display` output of the value.
fn are_shown<N: Copy + PartialEq, T: Copy + PartialEq + From<N> + Into<N> + Display>(
    rt: &impl Abort,
    alloc: Global,
    rows: &[(N, T, &str)],
) {
    for (number, value, text) in rows {
        let back: N = (*value).into();
        let shown = format!(in alloc; "{value}").expect(rt, text);
        let is_number = T::from(*number) == *value && back == *number;
        holds(rt, is_number && shown.as_str() == *text, text);
    }
}

/// Asserts that each string parses to the value beside it.
fn are_read<T: Copy + PartialEq + FromStr<Err = DecodeError>>(rt: &impl Abort, rows: &[(&str, T)]) {
    for (text, value) in rows {
        holds(rt, T::from_str(text) == Ok(*value), text);
    }
}

/// Asserts that no string parses to a value.
fn are_no_texts<T: PartialEq + Drop + FromStr<Err = DecodeError>>(rt: &impl Abort, texts: &[&str]) {
    for text in texts {
        let fault = DecodeError::Fault(DecodeFault::Text);
        holds(rt, T::from_str(text) == Err(fault), text);
    }
}

/// A name, or the digit of a number that has one.
#[test]
fn texts_or_digits(rt: HostRuntime) {
    are_shown(
        &rt,
        rt.alloc(),
        &[
            (0u8, BondMode::BalanceRr, "balance-rr"),
            (1, BondMode::ActiveBackup, "active-backup"),
            (2, BondMode::BalanceXor, "balance-xor"),
            (3, BondMode::Broadcast, "broadcast"),
            (4, BondMode::Ieee8023Ad, "802.3ad"),
            (5, BondMode::BalanceTlb, "balance-tlb"),
            (6, BondMode::BalanceAlb, "balance-alb"),
            (7, BondMode::Other(7), "unknown-variant (7)"),
            (9, BondMode::Other(9), "unknown-variant (9)"),
            (255, BondMode::Other(255), "unknown-variant (255)"),
        ],
    );
    let other = BondAllPortActive::Other(2);
    are_shown(&rt, rt.alloc(), &[(2u8, other, "2")]);
    are_read(
        &rt,
        &[
            ("balance-rr", BondMode::BalanceRr),
            ("0", BondMode::BalanceRr),
            ("802.3ad", BondMode::Ieee8023Ad),
            ("4", BondMode::Ieee8023Ad),
            ("6", BondMode::BalanceAlb),
        ],
    );
    let fast = BondLacpRate::Fast;
    are_read(&rt, &[("fast", fast), ("1", fast)]);
    are_no_texts::<BondLacpRate>(&rt, &["01", "Fast"]);
    are_no_texts::<BondMode>(
        &rt,
        &[
            "unknown-variant (9)",
            "7",
            "01",
            "+1",
            "",
            "Active-backup",
            "active-backup ",
            " active-backup",
            "active_backup",
            "active-backupx",
            "802.3AD",
        ],
    );
}

/// A name in any case.
#[test]
fn texts_in_any_case(rt: HostRuntime) {
    are_shown(
        &rt,
        rt.alloc(),
        &[
            (0u8, MiiStatus::Up, "up"),
            (1, MiiStatus::GoingDown, "going_down"),
            (2, MiiStatus::Down, "down"),
            (3, MiiStatus::GoingBack, "going_back"),
            (4, MiiStatus::Other(4), "4"),
        ],
    );
    are_read(
        &rt,
        &[
            ("up", MiiStatus::Up),
            ("DOWN", MiiStatus::Down),
            ("gOiNg_dOwN", MiiStatus::GoingDown),
            ("Going_Back", MiiStatus::GoingBack),
        ],
    );
    are_no_texts::<MiiStatus>(&rt, &["0", "4", "", "u", "up ", " up", "going down"]);
    are_read(&rt, &[("ACTIVE", BondPortState::Active)]);
    are_no_texts::<BondPortState>(&rt, &["0"]);
    let other = ChurnState::Other(7);
    are_shown(&rt, rt.alloc(), &[(7u8, other, "7")]);
    are_no_texts::<ChurnState>(&rt, &["7"]);
}

#[test]
fn no_texts(rt: HostRuntime) {
    are_shown(
        &rt,
        rt.alloc(),
        &[
            (0u8, HsrProtocol::Hsr, "hsr"),
            (1, HsrProtocol::Prp, "prp"),
            (255, HsrProtocol::Other(255), "255"),
        ],
    );
}

#[test]
fn vlan_protocols(rt: HostRuntime) {
    are_shown(
        &rt,
        rt.alloc(),
        &[
            (0x8100u16, VlanProtocol::Ieee8021Q, "802.1Q"),
            (0x88A8, VlanProtocol::Ieee8021Ad, "802.1ad"),
        ],
    );
    are_read(
        &rt,
        &[
            ("802.1Q", VlanProtocol::Ieee8021Q),
            ("802.1q", VlanProtocol::Ieee8021Q),
            ("802.1AD", VlanProtocol::Ieee8021Ad),
        ],
    );
    for other in [0, 0x9100, 0x88A7, 0xA888, 0xFFFF] {
        let is_default = VlanProtocol::from(other) == VlanProtocol::Ieee8021Q;
        holds(&rt, is_default, "an unknown protocol");
    }
    are_no_texts::<VlanProtocol>(&rt, &["33024", "", "802.1", "802.1Q ", " 802.1Q", "802.1a"]);
}

/// A name, or any number. `BridgeMulticastRouterType` has a number with two variants and three texts.
#[test]
fn texts_or_numbers(rt: HostRuntime) {
    are_shown(
        &rt,
        rt.alloc(),
        &[
            (0u8, BridgeMulticastRouterType::Disabled, "disabled"),
            (1, BridgeMulticastRouterType::TempQuery, "auto"),
            (1, BridgeMulticastRouterType::Auto, "auto"),
            (2, BridgeMulticastRouterType::Permanent, "permanent"),
            (3, BridgeMulticastRouterType::Temp, "temp"),
            (u8::MAX, BridgeMulticastRouterType::Other(u8::MAX), "255"),
        ],
    );
    are_read(
        &rt,
        &[
            ("auto", BridgeMulticastRouterType::Auto),
            ("temp_query", BridgeMulticastRouterType::TempQuery),
            ("1", BridgeMulticastRouterType::TempQuery),
            ("temp", BridgeMulticastRouterType::Temp),
            ("+0255", BridgeMulticastRouterType::Other(255)),
        ],
    );
    are_read(
        &rt,
        &[
            ("kernel_stp", BridgeStpState::KernelStp),
            ("+1", BridgeStpState::KernelStp),
            ("2", BridgeStpState::UserStp),
            ("+07", BridgeStpState::Other(7)),
            ("00000000000000000002", BridgeStpState::UserStp),
            ("+004294967295", BridgeStpState::Other(u32::MAX)),
        ],
    );
    are_no_texts::<BridgeStpState>(
        &rt,
        &[
            "4294967296",
            "10000000000",
            "+",
            "",
            "No",
            "kernel",
            "user_st",
        ],
    );
    are_no_texts::<BridgeMulticastRouterType>(
        &rt,
        &[
            "256",
            "",
            "+",
            "-",
            "-0",
            "-1",
            "++1",
            "+-1",
            "+ 1",
            " 1",
            "1 ",
            "1_0",
            "0x1",
            "1.",
            "Temp_query",
            "temp_quer",
            "temp_query ",
            "tempquery",
            "perm",
        ],
    );
}

/// `Other(n)` for a number `n` that has a variant of its own.
#[test]
fn hidden_names(rt: HostRuntime) {
    let hidden = BondMode::Other(1);
    assert!(rt; hidden != BondMode::ActiveBackup && u8::from(hidden) == 1);
    let shown = format!(in rt.alloc(); "{hidden} {hidden:?}").expect(&rt, "a text");
    assert!(rt; shown.as_str() == "unknown-variant (1) Other(1)");
}
