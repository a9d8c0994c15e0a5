//! Looks up attributes in a list.

ghost use Rattle.std.specs.Prelude.{◌≡◌, None, List, map, IfOk, IfErr};
ghost use Rattle.netlink_packet_route.specs.Answers.{ListFails, OnListMemory};
ghost use Rattle.netlink_packet_route.specs.Bond.{bond_table, bond_means};
ghost use Rattle.netlink_packet_route.specs.Bridge.{bridge_table, bridge_means};
ghost use Rattle.netlink_packet_route.specs.Frame.{frame_fault};
ghost use Rattle.netlink_packet_route.specs.Table.{Gives};
ghost use Rattle.netlink_packet_route.specs.Wire.{Wire, FirstFault};
ghost use Rattle.uses.specs.Reading.{FindsFirst, IsLastNumber};

use netlink_packet_route::link::{BondMode, InfoBond, InfoBridge, ListError, ListFault, read_list};
use netlink_packet_route::views::view_list;
use std::alloc::Global;

const IFLA_BR_FORWARD_DELAY: u16 = 1;

/// Returns the forward delay of a bridge, in clock ticks of 1/100 second, if the list has one. If the forward delay occurs
/// more than once, this is the first; [`last_forward_delay`] returns the one that Linux takes.
///
/// # Errors
///
/// As for `read_list`.
pub fn forward_delay(alloc: Global, bytes: &[u8]) -> Result<Option<u32>, ListError>
    ensures found { IfOk result (λ found. (vs : List InfoBridge)
        × Wire (Gives bridge_table) bytes.now (map bridge_means vs) × FindsFirst InfoBridge.ForwardDelay vs found) }
    ensures fault { IfErr result (λ error. ListFails error (Gives bridge_table) bytes.now) }
    ensures memory { OnListMemory result (frame_fault bytes.now ≡ None) }
{
    let bridge: Vec<InfoBridge> = read_list(alloc, bytes)?;
    let delay = bridge.iter().find_map(|value| match value {
        InfoBridge::ForwardDelay(delay) => Some(*delay),
        _ => None,
    });
    Ok(delay)
}

/// Returns the forward delay of a bridge, in clock ticks of 1/100 second, if the list has one. If the forward delay occurs
/// more than once, this is the last, the one that Linux takes. Does not allocate.
///
/// # Errors
///
/// The first error in the list, with the byte offset of its attribute.
pub fn last_forward_delay(bytes: &[u8]) -> Result<Option<u32>, ListFault>
    ensures delay { IfOk result (IsLastNumber bridge_table bytes.now 1) }
    ensures fault { IfErr result (λ error. FirstFault (Gives bridge_table) bytes.now error.at error.fault) }
{
    let view = view_list::<InfoBridge>(bytes)?;
    match view.find(IFLA_BR_FORWARD_DELAY) {
        Some(delay) => Ok(delay.as_u32()),
        None => Ok(None),
    }
}

/// Returns the mode of a bond and its MII monitoring interval in milliseconds, each if the list has it. If one occurs more
/// than once, this is the first.
///
/// # Errors
///
/// As for `read_list`.
pub fn monitoring(alloc: Global, bytes: &[u8]) -> Result<(Option<BondMode>, Option<u32>), ListError>
    ensures found { IfOk result (λ found. (vs : List InfoBond) × Wire (Gives bond_table) bytes.now (map bond_means vs)
        × FindsFirst InfoBond.Mode vs found.0 × FindsFirst InfoBond.MiiMon vs found.1) }
    ensures fault { IfErr result (λ error. ListFails error (Gives bond_table) bytes.now) }
    ensures memory { OnListMemory result (frame_fault bytes.now ≡ None) }
{
    let bond: Vec<InfoBond> = read_list(alloc, bytes)?;
    let mode = bond.iter().find_map(|value| match value {
        InfoBond::Mode(mode) => Some(*mode),
        _ => None,
    });
    let interval = bond.iter().find_map(|value| match value {
        InfoBond::MiiMon(interval) => Some(*interval),
        _ => None,
    });
    Ok((mode, interval))
}
