//! The structs of a CAN controller that a value refers to.

ghost use Rattle.std.specs.Prelude.{◌≡◌, length, take, IfOk, OnErr, MatchResult};
ghost use Rattle.nlroute_ffi.specs.Timing.{RefersTo, RefersNot, referred, TimingAnswers, LimitsAnswers};

use crate::refusal::Refusal;
use link_base::before_nul;
use link_entries::octets::padded;
use link_entries::{Entry, forms};
use netlink_packet_route::implementing::u32s_at;

/// Length of a `struct can_bittiming` in bytes.
const TIMING: u32 = 32;

/// Length of a `struct can_bittiming_const` in bytes.
const LIMITS: u32 = 48;

/// Length of its name field in bytes.
const NAME: usize = 16;

/// `struct can_bittiming` (`include/uapi/linux/can/netlink.h`).
#[repr(C)]
#[derive(Clone, Copy)]
pub struct BitTiming {
    /// Bit rate in bit/s.
    pub bitrate: u32,
    /// Sample point in tenths of a percent.
    pub sample_point: u32,
    /// Time quantum in ns.
    pub tq: u32,
    /// Propagation segment in time quanta.
    pub prop_seg: u32,
    /// First phase buffer segment in time quanta.
    pub phase_seg1: u32,
    /// Second phase buffer segment in time quanta.
    pub phase_seg2: u32,
    /// Synchronization jump width in time quanta.
    pub sjw: u32,
    /// Bit rate prescaler.
    pub brp: u32,
}

/// `struct can_bittiming_const` (`include/uapi/linux/can/netlink.h`).
#[repr(C)]
#[derive(Clone, Copy)]
pub struct TimingLimits {
    /// Name of the controller, at most 15 bytes, and zeros.
    pub name: [u8; 16],
    /// Minimum sum of the propagation segment and the first phase buffer segment, in time quanta.
    pub tseg1_min: u32,
    /// Maximum sum of the propagation segment and the first phase buffer segment, in time quanta.
    pub tseg1_max: u32,
    /// Minimum second phase buffer segment, in time quanta.
    pub tseg2_min: u32,
    /// Maximum second phase buffer segment, in time quanta.
    pub tseg2_max: u32,
    /// Maximum synchronization jump width, in time quanta.
    pub sjw_max: u32,
    /// Minimum bit rate prescaler.
    pub brp_min: u32,
    /// Maximum bit rate prescaler.
    pub brp_max: u32,
    /// Increment between prescalers.
    pub brp_inc: u32,
}

/// Stores the bit timing that `value` refers to, and returns 0.
///
/// # Errors
///
/// `BadForm` if `value` is no bit timing, `BadOctets` if its octets are not 32 of `octets`. On error `timing` is unchanged.
pub(crate) fn bit_timing(
    value: &Entry,
    octets: &[u8],
    timing: &mut BitTiming,
) -> Result<usize, Refusal>
    ensures answer { TimingAnswers value.now octets.now timing.new result }
    ensures zero { IfOk result (λ n. n ≡ 0) }
    ensures unchanged { OnErr result (timing.new ≡ timing.old) }
{
    let bytes = bytes_of(value, forms::BITTIMING, TIMING, octets)?;
    let numbers = u32s_at::<8>(bytes, 0);
    *timing = BitTiming {
        bitrate: numbers[0],
        sample_point: numbers[1],
        tq: numbers[2],
        prop_seg: numbers[3],
        phase_seg1: numbers[4],
        phase_seg2: numbers[5],
        sjw: numbers[6],
        brp: numbers[7],
    };
    Ok(0)
}

/// Stores the limits of a bit timing that `value` refers to, and returns 0. The name ends with a NUL: it is cut to 15 bytes.
///
/// # Errors
///
/// `BadForm` if `value` has no such limits, `BadOctets` if its octets are not 48 of `octets`. On error `limits` is
/// unchanged.
pub(crate) fn timing_limits(
    value: &Entry,
    octets: &[u8],
    limits: &mut TimingLimits,
) -> Result<usize, Refusal>
    ensures answer { LimitsAnswers value.now octets.now limits.new result }
    ensures zero { IfOk result (λ n. n ≡ 0) }
    ensures unchanged { OnErr result (limits.new ≡ limits.old) }
{
    let bytes = bytes_of(value, forms::BITTIMING_CONST, LIMITS, octets)?;
    let numbers = u32s_at::<8>(bytes, NAME);
    *limits = TimingLimits {
        name: padded(front(before_nul(&bytes[..NAME]), NAME - 1)),
        tseg1_min: numbers[0],
        tseg1_max: numbers[1],
        tseg2_min: numbers[2],
        tseg2_max: numbers[3],
        sjw_max: numbers[4],
        brp_min: numbers[5],
        brp_max: numbers[6],
        brp_inc: numbers[7],
    };
    Ok(0)
}

/// Returns the octets of `value`.
///
/// # Errors
///
/// `BadForm` if `value` has another form, `BadOctets` if its octets are not `size` of `octets`.
fn bytes_of<'a>(value: &Entry, form: u8, size: u32, octets: &'a [u8]) -> Result<&'a [u8], Refusal>
    ensures value { MatchResult result
        (λ p. RefersTo value.now form size octets.now × (p.now ≡ referred size value.now octets.now))
        (RefersNot value.now form size octets.now) }
    ensures whole { IfOk result (λ p. length p.now ≡ size) }
{
    if value.form != form {
        return Err(Refusal::BadForm);
    }
    let room = octets.len() as u64;
    if value.length != size || value.offset > room || room - value.offset < u64::from(size) {
        return Err(Refusal::BadOctets);
    }
    let start = value.offset as usize;
    Ok(&octets[start..start + size as usize])
}

/// Returns the first `count` bytes, or all if there are fewer.
fn front(bytes: &[u8], count: usize) -> &[u8]
    ensures { result.now ≡ take count bytes.now }
{
    &bytes[..bytes.len().min(count)]
}
