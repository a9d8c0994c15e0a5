//! Builds requests, into a new vector or into the caller's buffer.

ghost use Rattle.std.specs.Prelude.{◌≡◌, ◌↔◌, ◌<◌, [], ◌∷◌, true, false, length, map, Err, IfOk, IfErr, OnErr, IsErr, IsTrue};
ghost use Rattle.std.specs.List.{AllByRecursion};
ghost use Rattle.netlink_packet_route.specs.Answers.{OverwritesFront, capped};
ghost use Rattle.netlink_packet_route.specs.Class.{Number, Name, Boolean, EtherType};
ghost use Rattle.netlink_packet_route.specs.Table.{Case, Single, Inner, Fits, written_list};
ghost use Rattle.netlink_packet_route.specs.Vlan.{mapping_leaf};
ghost use Rattle.uses.specs.Writing.{BufferFails, IsMemory};
ghost use Rattle.uses.specs.declared.building.BufferError.{BufferError};

use netlink_packet_route::link::{
    Attribute, BondLacpRate, BondMode, BridgeStpState, InfoBond, InfoBridge, InfoVlan,
    VlanProtocol, VlanQosMapping, WriteError, emit_list, list_fits, list_len, write_list,
};
use std::alloc::{AllocError, Global};
use thiserror::Error;

/// Why a list was not written into a buffer.
#[derive(Clone, Copy, Debug, PartialEq, Eq, Error)]
pub enum BufferError {
    /// A value does not fit in an attribute.
    #[error("a value is too long")]
    TooLong,
    /// The encoded list has `needed` bytes (saturating at `usize::MAX`), more than the buffer.
    #[error("the list takes {needed} bytes")]
    TooSmall { needed: usize },
}

/// States that `==` on `BufferError` returns true if and only if its arguments are the same value.
pub fn error_equality()
    ensures { (a b : BufferError) → IsTrue (⟦<BufferError as PartialEq>⟧.eq a b) ↔ (a ≡ b) }
{}

/// Serializes `values` into `buffer`. Returns `n`, the number of bytes written; `buffer[n..]` is unchanged.
///
/// # Errors
///
/// `TooLong` if and only if a value does not fit in an attribute. `TooSmall` if and only if all values fit and the buffer
/// is shorter than the encoded list. On error the buffer is unchanged.
pub fn write_into<F: Attribute>(values: &[F], buffer: &mut [u8]) -> Result<usize, BufferError>
    ensures written { IfOk result (λ count. let list = written_list (map F.means values.now) in
        AllByRecursion Fits (map F.means values.now) × (count ≡ length list)
        × OverwritesFront buffer.old buffer.new list) }
    ensures failed { IfErr result (λ error. BufferFails error (map F.means values.now) (length buffer.old)) }
    ensures too_long { (result ≡ Err BufferError.TooLong) ↔ (¬ AllByRecursion Fits (map F.means values.now)) }
    ensures too_small { let size = length (written_list (map F.means values.now)) in
        (result ≡ Err (BufferError.TooSmall (capped size)))
        ↔ (AllByRecursion Fits (map F.means values.now) × (length buffer.old < size)) }
    ensures unchanged { OnErr result (buffer.new ≡ buffer.old) }
{
    if !list_fits(values) {
        return Err(BufferError::TooLong);
    }
    let needed = list_len(values);
    if needed > buffer.len() {
        return Err(BufferError::TooSmall { needed });
    }
    emit_list(values, buffer);
    Ok(needed)
}

/// Writes a request for a bond in mode 802.3ad whose partner is to send LACPDUs every second. `interval` is the MII
/// monitoring interval in milliseconds. Returns the number of bytes written; the rest of `buffer` is unchanged.
///
/// # Errors
///
/// `TooSmall { needed: 24 }` if and only if `buffer` has fewer than 24 bytes, and then it is unchanged.
pub fn bond_request(interval: u32, buffer: &mut [u8]) -> Result<usize, BufferError>
    ensures written { IfOk result (λ count. let list = written_list (Case 1 (Single (Name 1 4))
        ∷ Case 3 (Single (Number 4 interval)) ∷ Case 21 (Single (Name 1 1)) ∷ []) in
        (count ≡ length list) × OverwritesFront buffer.old buffer.new list) }
    ensures too_small { IsErr result ↔ (length buffer.old < 24) }
    ensures needed { IfErr result (λ error. error ≡ BufferError.TooSmall 24) }
    ensures unchanged { OnErr result (buffer.new ≡ buffer.old) }
{
    let request = [
        InfoBond::Mode(BondMode::Ieee8023Ad),
        InfoBond::MiiMon(interval),
        InfoBond::AdLacpRate(BondLacpRate::Fast),
    ];
    write_into(&request, buffer)
}

/// Builds a request for a bridge that filters by VLAN and runs the spanning tree protocol. `forward_delay` is in clock
/// ticks of 1/100 second.
///
/// # Errors
///
/// `AllocError` if an allocation fails.
#[tactic(auto, using(netlink_packet_route::proofs::Rewritten::none_unfit))]
pub fn bridge_request(alloc: Global, forward_delay: u32) -> Result<Vec<u8>, AllocError>
    ensures { IfOk result (λ out. out.items ≡ written_list (
        Case 1 (Single (Number 4 forward_delay)) ∷ Case 7 (Single (Boolean true))
        ∷ Case 5 (Single (Name 4 1)) ∷ [])) }
{
    let request = [
        InfoBridge::ForwardDelay(forward_delay),
        InfoBridge::VlanFiltering(true),
        InfoBridge::StpState(BridgeStpState::KernelStp),
    ];
    match write_list(alloc, &request) {
        Ok(out) => Ok(out),
        Err(WriteError::Memory(error)) => Err(error),
        // Numbers always fit.
        Err(WriteError::TooLong { .. }) => unreachable!(),
    }
}

/// Builds a request for an 802.1ad VLAN with the identifier `id`. Packets of priority `from` get priority `to` in their
/// tags.
///
/// # Errors
///
/// `Memory` if an allocation fails; no other error occurs.
#[tactic(auto, using(netlink_packet_route::proofs::Rewritten::none_unfit))]
pub fn vlan_request(alloc: Global, id: u16, from: u32, to: u32) -> Result<Vec<u8>, WriteError>
    ensures written { IfOk result (λ out. out.items ≡ written_list (
        Case 5 (Single (EtherType 0x88A8)) ∷ Case 1 (Single (Number 2 id))
        ∷ Case 3 (Inner false (mapping_leaf (VlanQosMapping.Mapping from to) ∷ [])) ∷ [])) }
    ensures memory { IfErr result IsMemory }
{
    let mapping = VlanQosMapping::Mapping(from, to);
    let egress = vec![in alloc; mapping].map_err(|_| WriteError::Memory(AllocError))?;
    let request = [
        InfoVlan::Protocol(VlanProtocol::Ieee8021Ad),
        InfoVlan::Id(id),
        InfoVlan::EgressQos(egress),
    ];
    write_list(alloc, &request)
}
