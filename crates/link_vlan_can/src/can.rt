//! CAN controller attributes (`IFLA_INFO_DATA` of a link whose `IFLA_INFO_KIND` is `can`).

ghost use Rattle.link_vlan_can.specs.Can.{can_table, can_means};

use crate::can_limits::CanBitTimingConst;
use crate::can_modes::CanCtrlModeExt;
use crate::can_records::{CanBerrCounter, CanBitTiming, CanClock, CanCtrlMode};
use crate::can_state::CanState;
use crate::can_tdc::CanTdc;
use link_base::rows::by_rows::{AttributeRows, RowVisitor};
use link_base::{
    Attribute, Coded, DecodeError, DefaultNla, Meaning, NestedList, Nla, NlaBuffer, Parseable,
    Place, Struct, TryClone,
};
use std::alloc::{AllocError, Global};

/// A CAN controller attribute (`IFLA_CAN_*`, `include/uapi/linux/can/netlink.h`).
///
/// Attributes marked read-only are reported by the kernel and cannot be set; those marked write-only can be set and are
/// not reported.
#[derive(Debug, PartialEq, Eq, Drop)]
pub enum InfoCan {
    /// Bit timing; with CAN FD, that of the arbitration phase (`IFLA_CAN_BITTIMING`, `struct can_bittiming`).
    BitTiming(CanBitTiming),
    /// Limits of the bit timing, and the controller's name (`IFLA_CAN_BITTIMING_CONST`, `struct can_bittiming_const`,
    /// read-only).
    BitTimingConst(CanBitTimingConst),
    /// Clock (`IFLA_CAN_CLOCK`, `struct can_clock`, read-only).
    Clock(CanClock),
    /// State: 0 error active, 1 error warning, 2 error passive, 3 bus-off, 4 stopped, 5 sleeping (`IFLA_CAN_STATE`,
    /// `enum can_state`, `u32`, read-only).
    State(u32),
    /// Modes (`IFLA_CAN_CTRLMODE`, `struct can_ctrlmode`).
    CtrlMode(CanCtrlMode),
    /// Delay between bus-off and the automatic restart of the controller, in milliseconds; 0 disables the restart
    /// (`IFLA_CAN_RESTART_MS`, `u32`).
    RestartMs(u32),
    /// Request to restart the controller now (`IFLA_CAN_RESTART`, `u32`, write-only).
    Restart(u32),
    /// Error counters (`IFLA_CAN_BERR_COUNTER`, `struct can_berr_counter`, read-only).
    BerrCounter(CanBerrCounter),
    /// Bit timing of the CAN FD data phase (`IFLA_CAN_DATA_BITTIMING`, `struct can_bittiming`).
    DataBitTiming(CanBitTiming),
    /// Limits of the bit timing of the CAN FD data phase, and the controller's name (`IFLA_CAN_DATA_BITTIMING_CONST`,
    /// `struct can_bittiming_const`, read-only).
    DataBitTimingConst(CanBitTimingConst),
    /// Resistance of the bus termination, in ohms; 0 for none (`IFLA_CAN_TERMINATION`, `u16`).
    Termination(u16),
    /// Supported resistances of the bus termination, in ohms; 0 for none (`IFLA_CAN_TERMINATION_CONST`, array of
    /// `u16`s, read-only).
    TerminationConst(Vec<u16>),
    /// Supported bit rates, in bits per second; with CAN FD, those of the arbitration phase (`IFLA_CAN_BITRATE_CONST`,
    /// array of `u32`s, read-only).
    BitrateConst(Vec<u32>),
    /// Supported bit rates of the CAN FD data phase, in bits per second (`IFLA_CAN_DATA_BITRATE_CONST`, array of
    /// `u32`s, read-only).
    DataBitrateConst(Vec<u32>),
    /// Maximum bit rate of the transceiver, in bits per second (`IFLA_CAN_BITRATE_MAX`, `u32`, read-only).
    BitrateMax(u32),
    /// Transmitter delay compensation of CAN FD (`IFLA_CAN_TDC`, a nested list, written with `NLA_F_NESTED`).
    Tdc(Vec<CanTdc>),
    /// Information about the controller's modes (`IFLA_CAN_CTRLMODE_EXT`, a nested list, written with `NLA_F_NESTED`,
    /// read-only).
    CtrlModeExt(Vec<CanCtrlModeExt>),
    /// An attribute of any other type.
    Other(DefaultNla),
}

/// The attribute types (`IFLA_CAN_*`), the variant of each, and the class of its payload.
macro_rules! rows {
    ($call:ident($($argument:tt)*)) => {
        link_base::by_rows! { $call($($argument)*)
            "IFLA_CAN_";
            IFLA_CAN_BITTIMING = 1, BitTiming: Struct<CanBitTiming>;
            IFLA_CAN_BITTIMING_CONST = 2, BitTimingConst: CanBitTimingConst;
            IFLA_CAN_CLOCK = 3, Clock: Struct<CanClock>;
            IFLA_CAN_STATE = 4, State: Coded<CanState>;
            IFLA_CAN_CTRLMODE = 5, CtrlMode: Struct<CanCtrlMode>;
            IFLA_CAN_RESTART_MS = 6, RestartMs: u32 as Milliseconds;
            IFLA_CAN_RESTART = 7, Restart: u32;
            IFLA_CAN_BERR_COUNTER = 8, BerrCounter: Struct<CanBerrCounter>;
            IFLA_CAN_DATA_BITTIMING = 9, DataBitTiming: Struct<CanBitTiming>;
            IFLA_CAN_DATA_BITTIMING_CONST = 10, DataBitTimingConst: CanBitTimingConst;
            IFLA_CAN_TERMINATION = 11, Termination: u16 as Ohms;
            IFLA_CAN_TERMINATION_CONST = 12, TerminationConst: Vec<u16> as Ohms;
            IFLA_CAN_BITRATE_CONST = 13, BitrateConst: Vec<u32> as BitsPerSecond;
            IFLA_CAN_DATA_BITRATE_CONST = 14, DataBitrateConst: Vec<u32> as BitsPerSecond;
            IFLA_CAN_BITRATE_MAX = 15, BitrateMax: u32 as BitsPerSecond;
            IFLA_CAN_TDC = 16 | NLA_F_NESTED, Tdc: NestedList<CanTdc>;
            IFLA_CAN_CTRLMODE_EXT = 17 | NLA_F_NESTED, CtrlModeExt: NestedList<CanCtrlModeExt>;
        }
    };
}

impl TryClone for InfoCan {
    fn try_clone(&self, alloc: Global) -> Result<Self, AllocError> {
        rows!(clone(self, alloc))
    }
}

impl Meaning for InfoCan {
    ghost table = { can_table };

    ghost means = { can_means };
}

impl Nla for InfoCan {
    fn kind(&self) -> u16 {
        rows!(kind(self))
    }

    fn value_len(&self) -> usize {
        rows!(size(self))
    }

    fn emit_value(&self, buffer: &mut [u8]) {
        rows!(emit(self, buffer))
    }
}

impl Parseable for InfoCan {
    fn parse_payload<P: Place<Self>>(
        alloc: Global,
        buffer: &NlaBuffer<'_>,
        place: &mut P,
    ) -> Result<(), DecodeError> {
        rows!(read(alloc, buffer, place))
    }
}

impl AttributeRows for InfoCan {
    #[inline(always)]
    fn visit_row<V: RowVisitor<Self>>(kind: u16, visitor: V) -> V::Output {
        rows!(visit(kind, visitor))
    }
}

impl Attribute for InfoCan {
    ghost use Rattle.std.specs.Prelude.{refl};
    ghost use Rattle.link_base.proofs.TableLaws.{lawful};
    ghost use Rattle.link_base.specs.Equality.{of_cases, thorough_fields};
    ghost use Rattle.link_vlan_can.specs.CanEquality.{timings, limits, clocks, modes, counters};
    ghost use Rattle.link_vlan_can.specs.contracts.can_tdc.CanTdcAttribute.TheImpl.Laws as tdcs;
    ghost use Rattle.link_vlan_can.specs.contracts.can_modes.CanCtrlModeExtAttribute.TheImpl.Laws as exts;
    ghost use Rattle.link_vlan_can.specs.contracts.can.InfoCan.{enum};

    ghost lawful = { lawful can_table };

    ghost well_formed = { refl };

    ghost thorough = { of_cases enum _ _
        (Prim.search (thorough_fields, timings, limits, clocks, modes, counters, tdcs.thorough-law, exts.thorough-law)) };
}
