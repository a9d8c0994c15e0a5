//! The limits of a CAN controller, which are no struct: their name may have any bytes.

ghost use Rattle.std.specs.Prelude.{◌≡◌};
ghost use Rattle.link_base.specs.Labels.{field_rows};
ghost use Rattle.link_base.specs.Payloads.{limit_fields};

use crate::fields;
use crate::rows::fields::Field;

/// Returns the numbers that follow the name (`struct can_bittiming_const`, `include/uapi/linux/can/netlink.h`).
pub fn limit_fields() -> &'static [Field]
    ensures { field_rows result.now ≡ limit_fields }
{
    fields! {
        "tseg1_min" = 16, u32;
        "tseg1_max" = 20, u32;
        "tseg2_min" = 24, u32;
        "tseg2_max" = 28, u32;
        "sjw_max" = 32, u32;
        "brp_min" = 36, u32;
        "brp_max" = 40, u32;
        "brp_inc" = 44, u32;
    }
}
