//! The names of numbers in the attributes of VXLAN devices.

ghost use Rattle.link_tunnels.specs.VxlanNames.{vxlan_df_names, label_policy_names};

use link_base::NumberNames;
use link_base::rows::label::Name;

/// The settings of the Don't Fragment bit (`enum ifla_vxlan_df`, `include/uapi/linux/if_link.h`). A setting is a `u8`.
pub struct VxlanDf;

/// The numbers, and the constants' names without `VXLAN_DF_`, in lower case.
impl NumberNames for VxlanDf {
    type Number = u8;

    ghost names = { vxlan_df_names };

    fn names() -> &'static [Name] {
        link_base::names![0 "unset" 1 "set" 2 "inherit"]
    }
}

/// The origins of the flow label (`enum ifla_vxlan_label_policy`, `include/uapi/linux/if_link.h`). An origin is a `u32`.
pub struct VxlanLabelPolicy;

/// The numbers, and the constants' names without `VXLAN_LABEL_`, in lower case.
impl NumberNames for VxlanLabelPolicy {
    type Number = u32;

    ghost names = { label_policy_names };

    fn names() -> &'static [Name] {
        link_base::names![0 "fixed" 1 "inherit"]
    }
}
