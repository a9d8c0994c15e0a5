//! Kernel structs in the payloads of CAN controller attributes.

ghost use Rattle.std.specs.Prelude.{◌≡◌, [], refl};
ghost use Rattle.link_base.specs.declared.rows.form.Layout.TheVariants as layouts;
ghost use Rattle.link_base.specs.Structs.{classes_in};
ghost use Rattle.link_vlan_can.specs.CanFlags.{mode_bit_names};
ghost use Rattle.link_vlan_can.specs.CanRecords.{timing_fields, timing_held, timing_with, modes_fields, modes_held};
ghost use Rattle.link_vlan_can.specs.CanRecords.{clock_fields, clock_held, errors_fields, errors_held};

use crate::can_flags::CanCtrlModeFlags;
use link_base::names::flag_laws::FlagSet;
use link_base::rows::fields::Field;
use link_base::rows::form::Layout;
use link_base::rows::label::Name;
use link_base::{FlagBits, PayloadStruct, by_fields};

/// The bit timing of a CAN controller (`struct can_bittiming`, `include/uapi/linux/can/netlink.h`): eight `u32`s.
/// Payloads may be longer; the additional bytes are ignored.
#[derive(Clone, Copy, Debug, Default, PartialEq, Eq)]
pub struct CanBitTiming {
    /// Bit rate, in bits per second.
    pub bitrate: u32,
    /// Sample point, in tenths of a percent of a bit.
    pub sample_point: u32,
    /// Time quantum, in nanoseconds.
    pub tq: u32,
    /// Propagation segment, in time quanta.
    pub prop_seg: u32,
    /// First phase buffer segment, in time quanta.
    pub phase_seg1: u32,
    /// Second phase buffer segment, in time quanta.
    pub phase_seg2: u32,
    /// Synchronization jump width, in time quanta.
    pub sjw: u32,
    /// Bit rate prescaler: the number of controller clock periods in a time quantum.
    pub brp: u32,
}

impl CanBitTiming {
    /// Returns a timing with this bit rate, in bits per second, and all other fields 0.
    pub fn new(bitrate: u32) -> Self
        ensures { result ≡ timing_with bitrate }
    {
        CanBitTiming {
            bitrate,
            ..CanBitTiming::default()
        }
    }
}

type TimingFields = (u32, (u32, (u32, (u32, (u32, (u32, (u32, (u32, ()))))))));

impl PayloadStruct for CanBitTiming {
    const LAYOUT: Layout = Layout::BitTiming;

    ghost LAYOUT = { layouts.BitTiming };

    ghost fields = { timing_fields };

    ghost classes = { classes_in [] timing_fields };

    ghost held = { timing_held };

    ghost whole = { refl };

    ghost placed = { refl };

    #[inline]
    fn names() -> &'static [Name] {
        &[]
    }

    #[inline]
    fn fields() -> &'static [Field] {
        link_base::fields! {
            "bitrate" = 0, u32 as BitsPerSecond;
            "sample_point" = 4, u32;
            "tq" = 8, u32 as Nanoseconds;
            "prop_seg" = 12, u32;
            "phase_seg1" = 16, u32;
            "phase_seg2" = 20, u32;
            "sjw" = 24, u32;
            "brp" = 28, u32;
        }
    }

    #[inline(always)]
    fn load(bytes: &[u8]) -> Self {
        by_fields!(load(bytes, CanBitTiming, TimingFields) bitrate sample_point tq prop_seg phase_seg1 phase_seg2 sjw brp)
    }

    #[inline(always)]
    fn sized(&self) {
        by_fields!(sized(self, TimingFields) bitrate sample_point tq prop_seg phase_seg1 phase_seg2 sjw brp)
    }

    #[inline(always)]
    fn store(&self, buffer: &mut [u8]) {
        by_fields!(store(self, buffer, TimingFields) bitrate sample_point tq prop_seg phase_seg1 phase_seg2 sjw brp)
    }
}

/// The modes of a CAN controller (`struct can_ctrlmode`, `include/uapi/linux/can/netlink.h`): two `u32`s. Payloads may
/// be longer; the additional bytes are ignored.
#[derive(Clone, Copy, Debug, PartialEq, Eq)]
pub struct CanCtrlMode {
    /// The modes that a request changes.
    pub mask: CanCtrlModeFlags,
    /// The modes that are on.
    pub flags: CanCtrlModeFlags,
}

type ModesFields = (FlagBits<CanCtrlModeFlags>, (FlagBits<CanCtrlModeFlags>, ()));

impl PayloadStruct for CanCtrlMode {
    const LAYOUT: Layout = Layout::CtrlMode;

    ghost LAYOUT = { layouts.CtrlMode };

    ghost bit_names = { mode_bit_names };

    ghost fields = { modes_fields };

    ghost classes = { classes_in mode_bit_names modes_fields };

    ghost held = { modes_held };

    ghost whole = { refl };

    ghost placed = { refl };

    #[inline]
    fn names() -> &'static [Name] {
        CanCtrlModeFlags::names()
    }

    #[inline]
    fn fields() -> &'static [Field] {
        link_base::fields! {
            "mask" = 0, u32_flags;
            "flags" = 4, u32_flags;
        }
    }

    #[inline(always)]
    fn load(bytes: &[u8]) -> Self {
        by_fields!(load(bytes, CanCtrlMode, ModesFields) mask flags)
    }

    #[inline(always)]
    fn sized(&self) {
        by_fields!(sized(self, ModesFields) mask flags)
    }

    #[inline(always)]
    fn store(&self, buffer: &mut [u8]) {
        by_fields!(store(self, buffer, ModesFields) mask flags)
    }
}

/// The clock of a CAN controller (`struct can_clock`, `include/uapi/linux/can/netlink.h`): a `u32`. A payload of any
/// other length is rejected.
#[derive(Clone, Copy, Debug, Default, PartialEq, Eq)]
pub struct CanClock {
    /// Frequency, in hertz.
    pub freq: u32,
}

impl CanClock {
    /// Returns a clock with this frequency, in hertz.
    pub fn new(freq: u32) -> Self
        ensures { result.freq ≡ freq }
    {
        CanClock { freq }
    }
}

type ClockFields = (u32, ());

impl PayloadStruct for CanClock {
    const LAYOUT: Layout = Layout::Clock;

    ghost LAYOUT = { layouts.Clock };

    ghost fields = { clock_fields };

    ghost classes = { classes_in [] clock_fields };

    ghost held = { clock_held };

    ghost whole = { refl };

    ghost placed = { refl };

    #[inline]
    fn names() -> &'static [Name] {
        &[]
    }

    #[inline]
    fn fields() -> &'static [Field] {
        link_base::fields! {
            "freq" = 0, u32 as Hertz;
        }
    }

    #[inline(always)]
    fn load(bytes: &[u8]) -> Self {
        by_fields!(load(bytes, CanClock, ClockFields) freq)
    }

    #[inline(always)]
    fn sized(&self) {
        by_fields!(sized(self, ClockFields) freq)
    }

    #[inline(always)]
    fn store(&self, buffer: &mut [u8]) {
        by_fields!(store(self, buffer, ClockFields) freq)
    }
}

/// The error counters of a CAN controller (`struct can_berr_counter`, `include/uapi/linux/can/netlink.h`): two `u16`s.
/// Errors increase them; error-free frames decrease them. Payloads may be longer; the additional bytes are ignored.
#[derive(Clone, Copy, Debug, PartialEq, Eq)]
pub struct CanBerrCounter {
    /// Transmit error counter.
    pub txerr: u16,
    /// Receive error counter.
    pub rxerr: u16,
}

type ErrorsFields = (u16, (u16, ()));

impl PayloadStruct for CanBerrCounter {
    const LAYOUT: Layout = Layout::BerrCounter;

    ghost LAYOUT = { layouts.BerrCounter };

    ghost fields = { errors_fields };

    ghost classes = { classes_in [] errors_fields };

    ghost held = { errors_held };

    ghost whole = { refl };

    ghost placed = { refl };

    #[inline]
    fn names() -> &'static [Name] {
        &[]
    }

    #[inline]
    fn fields() -> &'static [Field] {
        link_base::fields! {
            "txerr" = 0, u16;
            "rxerr" = 2, u16;
        }
    }

    #[inline(always)]
    fn load(bytes: &[u8]) -> Self {
        by_fields!(load(bytes, CanBerrCounter, ErrorsFields) txerr rxerr)
    }

    #[inline(always)]
    fn sized(&self) {
        by_fields!(sized(self, ErrorsFields) txerr rxerr)
    }

    #[inline(always)]
    fn store(&self, buffer: &mut [u8]) {
        by_fields!(store(self, buffer, ErrorsFields) txerr rxerr)
    }
}
