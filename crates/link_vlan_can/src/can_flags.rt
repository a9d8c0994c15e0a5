//! The modes of a CAN controller, as flags.

use bitflags::{Flag, Flags};
use link_base::names::flag_laws::{FlagSet, KnownBits};
use link_base::rows::label::Name;

/// Modes of a CAN controller (`CAN_CTRLMODE_*`, `include/uapi/linux/can/netlink.h`). Unnamed bits are kept.
#[derive(Clone, Copy, Debug, PartialEq, Eq, Hash)]
pub struct CanCtrlModeFlags(u32);

impl CanCtrlModeFlags {
    /// The controller receives the frames that it sends (`CAN_CTRLMODE_LOOPBACK`).
    pub const Loopback: CanCtrlModeFlags = CanCtrlModeFlags(0x1);

    /// The controller only listens; it sends nothing, not even acknowledgements (`CAN_CTRLMODE_LISTENONLY`).
    pub const ListenOnly: CanCtrlModeFlags = CanCtrlModeFlags(0x2);

    /// Each bit is sampled three times (`CAN_CTRLMODE_3_SAMPLES`).
    pub const TripleSampling: CanCtrlModeFlags = CanCtrlModeFlags(0x4);

    /// A frame is sent only once, even if sending fails (`CAN_CTRLMODE_ONE_SHOT`).
    pub const OneShot: CanCtrlModeFlags = CanCtrlModeFlags(0x8);

    /// Errors on the bus are reported (`CAN_CTRLMODE_BERR_REPORTING`).
    pub const BerrReporting: CanCtrlModeFlags = CanCtrlModeFlags(0x10);

    /// CAN with flexible data rate (CAN FD) is on (`CAN_CTRLMODE_FD`).
    pub const Fd: CanCtrlModeFlags = CanCtrlModeFlags(0x20);

    /// A frame is considered sent even if it is not acknowledged (`CAN_CTRLMODE_PRESUME_ACK`).
    pub const PresumeAck: CanCtrlModeFlags = CanCtrlModeFlags(0x40);

    /// CAN FD uses the format that preceded ISO 11898-1:2015 (`CAN_CTRLMODE_FD_NON_ISO`).
    pub const FdNonIso: CanCtrlModeFlags = CanCtrlModeFlags(0x80);

    /// Classical CAN frames keep length codes above 8 (`CAN_CTRLMODE_CC_LEN8_DLC`).
    pub const CcLen8Dlc: CanCtrlModeFlags = CanCtrlModeFlags(0x100);

    /// The CAN FD delay to compensate is measured by the transceiver (`CAN_CTRLMODE_TDC_AUTO`).
    pub const TdcAuto: CanCtrlModeFlags = CanCtrlModeFlags(0x200);

    /// The CAN FD delay to compensate is set by the user (`CAN_CTRLMODE_TDC_MANUAL`).
    pub const TdcManual: CanCtrlModeFlags = CanCtrlModeFlags(0x400);

    /// The controller is in restricted operation mode: it acknowledges frames but does not send its own
    /// (`CAN_CTRLMODE_RESTRICTED`).
    pub const Restricted: CanCtrlModeFlags = CanCtrlModeFlags(0x800);

    /// CAN with extended data field length (CAN XL) is on (`CAN_CTRLMODE_XL`).
    pub const Xl: CanCtrlModeFlags = CanCtrlModeFlags(0x1000);

    /// The CAN XL delay to compensate is measured by the transceiver (`CAN_CTRLMODE_XL_TDC_AUTO`).
    pub const XlTdcAuto: CanCtrlModeFlags = CanCtrlModeFlags(0x2000);

    /// The CAN XL delay to compensate is set by the user (`CAN_CTRLMODE_XL_TDC_MANUAL`).
    pub const XlTdcManual: CanCtrlModeFlags = CanCtrlModeFlags(0x4000);

    /// CAN XL transceiver mode switching is on (`CAN_CTRLMODE_XL_TMS`).
    pub const XlTms: CanCtrlModeFlags = CanCtrlModeFlags(0x8000);
}

/// The flags (`include/uapi/linux/can/netlink.h`), the set's constants for them, and their names without `CAN_CTRLMODE_`.
macro_rules! flags {
    ($call:ident($($argument:tt)*)) => {
        link_base::by_flags! { $call($($argument)*)
            CAN_CTRLMODE_LOOPBACK = 0x1, Loopback, "LOOPBACK";
            CAN_CTRLMODE_LISTENONLY = 0x2, ListenOnly, "LISTENONLY";
            CAN_CTRLMODE_3_SAMPLES = 0x4, TripleSampling, "3_SAMPLES";
            CAN_CTRLMODE_ONE_SHOT = 0x8, OneShot, "ONE_SHOT";
            CAN_CTRLMODE_BERR_REPORTING = 0x10, BerrReporting, "BERR_REPORTING";
            CAN_CTRLMODE_FD = 0x20, Fd, "FD";
            CAN_CTRLMODE_PRESUME_ACK = 0x40, PresumeAck, "PRESUME_ACK";
            CAN_CTRLMODE_FD_NON_ISO = 0x80, FdNonIso, "FD_NON_ISO";
            CAN_CTRLMODE_CC_LEN8_DLC = 0x100, CcLen8Dlc, "CC_LEN8_DLC";
            CAN_CTRLMODE_TDC_AUTO = 0x200, TdcAuto, "TDC_AUTO";
            CAN_CTRLMODE_TDC_MANUAL = 0x400, TdcManual, "TDC_MANUAL";
            CAN_CTRLMODE_RESTRICTED = 0x800, Restricted, "RESTRICTED";
            CAN_CTRLMODE_XL = 0x1000, Xl, "XL";
            CAN_CTRLMODE_XL_TDC_AUTO = 0x2000, XlTdcAuto, "XL_TDC_AUTO";
            CAN_CTRLMODE_XL_TDC_MANUAL = 0x4000, XlTdcManual, "XL_TDC_MANUAL";
            CAN_CTRLMODE_XL_TMS = 0x8000, XlTms, "XL_TMS";
        }
    };
}

/// The named flags, and an unnamed one with all bits, so that every bit is known.
const FLAGS: [Flag<CanCtrlModeFlags>; 17] = flags!(flags(CanCtrlModeFlags, u32::MAX));

impl Flags for CanCtrlModeFlags {
    type Bits = u32;

    ghost use Rattle.std.specs.Prelude.{⊤};
    ghost use Rattle.link_vlan_can.specs.CanFlags.{mode_bits, mode_flags};

    ghost exact = { ⊤ };

    ghost table = { mode_flags };

    ghost set_of = { mode_bits };

    fn flags<'a>() -> &'a [Flag<CanCtrlModeFlags>] {
        &FLAGS
    }

    fn bits(&self) -> u32 {
        self.0
    }

    fn from_bits_retain(bits: u32) -> CanCtrlModeFlags {
        CanCtrlModeFlags(bits)
    }
}

impl FlagSet for CanCtrlModeFlags {
    ghost use Rattle.std.specs.Prelude.{refl};
    ghost use Rattle.link_base.specs.Equality.{wrapped, numbers};
    ghost use Rattle.link_vlan_can.specs.CanFlags.{mode_bit_names};

    ghost bit_names = { mode_bit_names };

    fn names() -> &'static [Name] {
        flags!(names())
    }

    ghost is_exact = { tt };

    ghost equal_by_bits = { λ a b. refl };

    ghost thorough = { wrapped (λ flags. flags.0) (λ bits. record { 0 = bits }) (λ _. refl) numbers };

    ghost copies = { λ _ _ same. same };

    ghost is_copied = { λ _. tt };
}

impl KnownBits for CanCtrlModeFlags {
    ghost use Rattle.link_vlan_can.specs.CanFlags.{every_mode_bit};

    ghost every_bit = { every_mode_bit };
}
