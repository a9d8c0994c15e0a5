//! Link attributes of bonds and bond ports.
#![tactic(auto)]

mod bond;
mod bond_port;
pub mod laws;

pub use bond::{
    BondAdInfo, BondAdSelect, BondAllPortActive, BondArpAllTargets, BondArpValidate,
    BondFailOverMac, BondLacpRate, BondMode, BondPrimaryReselect, BondXmitHashPolicy, InfoBond,
};
pub use bond_port::{BondPortState, ChurnState, InfoBondPort, LacpState, MiiStatus};
