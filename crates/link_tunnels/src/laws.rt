//! Theorems about the bytes and `==` of the structs of VXLAN and GENEVE devices. The functions have empty bodies.

ghost use Rattle.std.specs.Prelude.{◌≡◌, ◌++◌, ◌↔◌, IsTrue};
ghost use Rattle.link_base.specs.Number.{bytes_be};
ghost use Rattle.link_base.specs.Structs.{packed};
ghost use Rattle.link_tunnels.specs.VxlanPortRange.{port_range_held};
ghost use Rattle.link_tunnels.specs.VxlanHeader.{vxlan_header_held};
ghost use Rattle.link_tunnels.specs.GenevePortRange.{geneve_port_range_held};
ghost use Rattle.link_tunnels.specs.declared.vxlan_port_range.VxlanPortRange.{VxlanPortRange};
ghost use Rattle.link_tunnels.specs.declared.vxlan_header.VxlanHeader.{VxlanHeader};
ghost use Rattle.link_tunnels.specs.declared.geneve_port_range.GenevePortRange.{GenevePortRange};

use crate::geneve_port_range::GenevePortRange;
use crate::vxlan_header::VxlanHeader;
use crate::vxlan_port_range::VxlanPortRange;

/// Proves which bytes port ranges and the bits of a header are written as: two numbers each, in network byte order.
pub fn network_byte_order()
    ensures port_range { (range : VxlanPortRange)
        → packed (port_range_held range) ≡ bytes_be 2 range.low ++ bytes_be 2 range.high }
    ensures header { (bits : VxlanHeader)
        → packed (vxlan_header_held bits) ≡ bytes_be 4 bits.vx_flags ++ bytes_be 4 bits.vx_vni }
    ensures geneve_port_range { (range : GenevePortRange)
        → packed (geneve_port_range_held range) ≡ bytes_be 2 range.low ++ bytes_be 2 range.high }
{}

/// Proves that two values of `VxlanPortRange`, `VxlanHeader` or `GenevePortRange` compare equal if and only if they are the same.
pub fn equality_of_values()
    ensures port_range { (a b : VxlanPortRange) → IsTrue (⟦<VxlanPortRange as PartialEq>⟧.eq a b) ↔ (a ≡ b) }
    ensures header { (a b : VxlanHeader) → IsTrue (⟦<VxlanHeader as PartialEq>⟧.eq a b) ↔ (a ≡ b) }
    ensures geneve_port_range { (a b : GenevePortRange) → IsTrue (⟦<GenevePortRange as PartialEq>⟧.eq a b) ↔ (a ≡ b) }
{}
