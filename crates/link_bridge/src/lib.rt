//! Link attributes of bridges and bridge ports.
#![tactic(auto)]

mod af_spec;
mod bridge;
mod bridge_boolopt;
mod bridge_port;
pub mod laws;
mod proto_info;

pub use af_spec::{
    AfSpecBridge, BridgeFlag, BridgeMode, BridgeVlanInfo, BridgeVlanInfoFlags,
    BridgeVlanTunnelInfo, VecAfSpecBridge,
};
pub use bridge::{
    BridgeId, BridgeIdBuffer, BridgeMulticastRouterType, BridgeQuerierState, BridgeStpMode,
    BridgeStpState, InfoBridge,
};
pub use bridge_boolopt::{BridgeBooleanOptionFlags, BridgeBooleanOptions};
pub use bridge_port::{BridgePortState, InfoBridgePort};
pub use proto_info::{LinkProtoInfoBridge, VecLinkProtoInfoBridge};
