//! A VLAN of a bridge or bridge port.

use crate::af_spec::vlan_info_flags::BridgeVlanInfoFlags;
use bitflags::Flags;
use link_base::names::flag_laws::FlagSet;
use link_base::rows::fields::Field;
use link_base::rows::form::Layout;
use link_base::rows::label::Name;
use link_base::{DecodeError, FlagBits, PayloadStruct, by_fields, check_exactly, u16_at};

/// A VLAN of a bridge or bridge port, or one end of a range of VLANs (`struct bridge_vlan_info`,
/// `include/uapi/linux/if_bridge.h`): two `u16`s.
#[derive(Clone, Copy, Debug, PartialEq, Eq)]
pub struct BridgeVlanInfo {
    /// How the VLAN is handled.
    pub flags: BridgeVlanInfoFlags,
    /// VLAN ID, from 1 to 4094.
    pub vid: u16,
}

impl BridgeVlanInfo {
    /// Length of a VLAN as a payload, in bytes.
    pub const LENGTH: usize = 4;
}

/// Converts a VLAN to its payload: the flags, then the ID, each little-endian.
impl From<&BridgeVlanInfo> for [u8; 4] {
    ghost use Rattle.std.specs.Prelude.{◌≡◌};
    ghost use Rattle.link_base.specs.Held.{IsOctets};
    ghost use Rattle.link_bridge.specs.VlanInfo.{vlan_info_octets};

    ghost from_gives = { λ info bytes. (bytes ≡ vlan_info_octets info.now) × IsOctets 4 (vlan_info_octets info.now) };

    fn from(info: &BridgeVlanInfo) -> [u8; 4] {
        let flags = info.flags.bits().to_le_bytes();
        let vid = info.vid.to_le_bytes();
        [flags[0], flags[1], vid[0], vid[1]]
    }
}

/// Parses a payload of 4 bytes.
///
/// # Errors
///
/// `Payload(WrongLength)` if the length is not 4.
impl TryFrom<&[u8]> for BridgeVlanInfo {
    type Error = DecodeError;

    ghost use Rattle.std.specs.Prelude.{◌≡◌, IfOk};
    ghost use Rattle.link_base.specs.Class.{accepted, Exactly};
    ghost use Rattle.link_base.specs.Answers.{payload_result};
    ghost use Rattle.link_bridge.specs.VlanInfo.{vlan_info_of, vlan_info_octets};

    ghost try_from_gives = { λ payload result. (result ≡ payload_result (accepted (Exactly 4) vlan_info_of payload.now))
        × IfOk result (λ info. vlan_info_octets info ≡ payload.now) };

    fn try_from(payload: &[u8]) -> Result<Self, DecodeError> {
        check_exactly(payload, BridgeVlanInfo::LENGTH)?;
        Ok(BridgeVlanInfo {
            flags: BridgeVlanInfoFlags::from_bits_retain(u16_at(payload, 0)),
            vid: u16_at(payload, 2),
        })
    }
}

type VlanInfoFields = (FlagBits<BridgeVlanInfoFlags>, (u16, ()));

impl PayloadStruct for BridgeVlanInfo {
    ghost use Rattle.std.specs.Prelude.{refl, ◌∷◌, []};
    ghost use Rattle.link_base.specs.Class.{Unsigned};
    ghost use Rattle.link_base.specs.declared.rows.form.Layout.TheVariants as layouts;
    ghost use Rattle.link_bridge.specs.VlanInfo.{vlan_info_fields, vlan_info_held, vlan_info_bit_names};

    const LAYOUT: Layout = Layout::VlanInfo;

    ghost LAYOUT = { layouts.VlanInfo };

    ghost bit_names = { vlan_info_bit_names };

    ghost fields = { vlan_info_fields };

    ghost classes = { Unsigned 2 ∷ Unsigned 2 ∷ [] };

    ghost held = { vlan_info_held };

    ghost whole = { refl };

    ghost placed = { refl };

    #[inline]
    fn names() -> &'static [Name] {
        BridgeVlanInfoFlags::names()
    }

    #[inline]
    fn fields() -> &'static [Field] {
        link_base::fields! {
            "vid" = 2, u16;
            "flags" = 0, u16_flags;
        }
    }

    #[inline(always)]
    fn load(bytes: &[u8]) -> Self {
        by_fields!(load(bytes, BridgeVlanInfo, VlanInfoFields) flags vid)
    }

    #[inline(always)]
    fn sized(&self) {
        by_fields!(sized(self, VlanInfoFields) flags vid)
    }

    #[inline(always)]
    fn store(&self, buffer: &mut [u8]) {
        by_fields!(store(self, buffer, VlanInfoFields) flags vid)
    }
}
