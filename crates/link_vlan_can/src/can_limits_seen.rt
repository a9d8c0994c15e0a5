//! The bit timing limits of a CAN controller, as a view reads them.

ghost use Rattle.std.specs.Prelude.{◌≡◌, option_map};
ghost use Rattle.link_base.specs.Class.{AtLeast, accepted, value_only};
ghost use Rattle.link_vlan_can.specs.CanLimits.{limits_seen, limits_shown};

use crate::can_limits::NAME;
use link_base::{before_nul, u32s_at};

/// The bit timing limits of a CAN controller (`struct can_bittiming_const`, `include/uapi/linux/can/netlink.h`) in a
/// payload. Nothing is allocated; `CanBitTimingConst` is the value that `parse` returns.
#[derive(Clone, Copy, Debug, PartialEq, Eq)]
pub struct CanBitTimingLimits<'a> {
    /// Name of the controller: the bytes of the name field before the first NUL, or all 16 if there is none. They may not
    /// be UTF-8.
    pub name: &'a [u8],
    /// Minimum sum of the propagation segment and the first phase buffer segment, in time quanta.
    pub tseg1_min: u32,
    /// Maximum sum of the propagation segment and the first phase buffer segment, in time quanta.
    pub tseg1_max: u32,
    /// Minimum second phase buffer segment, in time quanta.
    pub tseg2_min: u32,
    /// Maximum second phase buffer segment, in time quanta.
    pub tseg2_max: u32,
    /// Maximum synchronization jump width, in time quanta.
    pub sjw_max: u32,
    /// Minimum bit rate prescaler.
    pub brp_min: u32,
    /// Maximum bit rate prescaler.
    pub brp_max: u32,
    /// Increment between prescalers.
    pub brp_inc: u32,
}

impl<'a> CanBitTimingLimits<'a> {
    /// Reads the limits in a payload: the name in the first 16 bytes, then eight little-endian `u32`s. Additional bytes are
    /// ignored. Returns `None` if the payload has fewer than 48 bytes.
    pub fn from_payload(payload: &'a [u8]) -> Option<Self>
        ensures { option_map limits_shown result ≡ value_only (accepted (AtLeast 48) limits_seen payload.now) }
    {
        if payload.len() < 48 {
            return None;
        }
        let name = before_nul(&payload[..NAME]);
        let [
            tseg1_min,
            tseg1_max,
            tseg2_min,
            tseg2_max,
            sjw_max,
            brp_min,
            brp_max,
            brp_inc,
        ] = u32s_at::<8>(payload, NAME);
        Some(CanBitTimingLimits {
            name,
            tseg1_min,
            tseg1_max,
            tseg2_min,
            tseg2_max,
            sjw_max,
            brp_min,
            brp_max,
            brp_inc,
        })
    }
}
