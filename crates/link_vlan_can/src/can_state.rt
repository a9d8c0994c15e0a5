//! The states of CAN controllers.

ghost use Rattle.link_vlan_can.specs.CanState.{can_state_names};

use link_base::NumberNames;
use link_base::rows::label::Name;

/// The states of CAN controllers (`enum can_state`, `include/uapi/linux/can/netlink.h`). A state is a `u32`.
pub struct CanState;

/// The numbers, and the constants' names without `CAN_STATE_`.
impl NumberNames for CanState {
    type Number = u32;

    ghost names = { can_state_names };

    fn names() -> &'static [Name] {
        link_base::names![
            0 "ERROR-ACTIVE"
            1 "ERROR-WARNING"
            2 "ERROR-PASSIVE"
            3 "BUS-OFF"
            4 "STOPPED"
            5 "SLEEPING"
        ]
    }
}
