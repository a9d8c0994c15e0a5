//! The C API: parses, prints, writes and re-encodes lists of link attributes, and looks up what is known of their types.
//! `include/nlroute.h` declares the functions.
//!
//! A `Family` is passed as its number, from 0, in the order of [`Family`](netlink_packet_route::Family). A slice is
//! two arguments in C: a pointer, and the number of elements it points to. The allocator is not an argument in C; a
//! function without it does not allocate.
//!
//! A function for texts stores the text in `out`, as far as there is room before a NUL, and the NUL. It returns the length
//! of the whole text.
//!
//! # Errors
//!
//! Each function that takes a `family` returns -5 if it is not the number of a `Family`; `nlroute_is_canonical` returns
//! false. On error the outputs are unchanged, unless a function specifies otherwise; the functions for texts store the
//! empty text.
#![tactic(auto)]

mod buffers;
mod error_text;
mod fault;
mod held;
pub mod laws;
mod lists;
mod lookup;
mod message;
mod message_error;
mod names;
mod opens;
mod refusal;
mod report;
mod requests;
mod struct_fields;
#[cfg(test)]
mod tests;
mod timing;
mod value_text;
mod values;
mod writing;

ghost use Rattle.std.specs.Prelude.{◌≡◌, ◌↔◌, ◌<◌, [], IsTrue, pos, negsuc, ◌<ℤ◌, length, drop};
ghost use Rattle.netlink_packet_route.specs.Frame.{pad};
ghost use Rattle.nlroute_ffi.specs.Calls.{AnswersWith, AnswersFor, CountAnswers, RewriteAnswers, StreamingAnswers};
ghost use Rattle.nlroute_ffi.specs.Calls.{IsCanonicalFor, ReportAnswers};
ghost use Rattle.nlroute_ffi.specs.Calls.{AnswersBy, PlacesAnswers, ValuesAnswers, FindAnswers, FindInAnswers};
ghost use Rattle.nlroute_ffi.specs.Error.{ErrorAnswers};
ghost use Rattle.nlroute_ffi.specs.Timing.{TimingAnswers, LimitsAnswers};
ghost use Rattle.nlroute_ffi.specs.Buffers.{cut_text};
ghost use Rattle.nlroute_ffi.specs.Names.{version, KindNameAnswers, NumberNameAnswers, FlagNameAnswers};
ghost use Rattle.netlink_packet_route.specs.Family.{InfoKind, PortKind};
ghost use Rattle.nlroute_ffi.specs.Lookup.{FamilyNameAnswers, FamilyOfAnswers, HeldByAnswers, KindOfAnswers, KindOfInAnswers};
ghost use Rattle.nlroute_ffi.specs.Lookup.{RowAnswers, NumberOfAnswers, CodeTextAnswers};
ghost use Rattle.nlroute_ffi.specs.ValueText.{TextAnswers};
ghost use Rattle.nlroute_ffi.specs.StructFields.{FieldAnswers};
ghost use Rattle.nlroute_ffi.specs.ErrorText.{ErrorTextAnswers};
ghost use Rattle.nlroute_ffi.specs.Writing.{WriteAnswers, MeasureAnswers};
ghost use Rattle.nlroute_ffi.specs.Messages.{MessageAnswers, MessageErrorAnswers};
ghost use Rattle.nlroute_ffi.specs.Held.{HeldAnswers};
ghost use Rattle.nlroute_ffi.specs.Opens.{OpensAnswers};
ghost use Rattle.nlroute_ffi.specs.Requests.{RequestAnswers};

use crate::buffers::refuse;
use crate::error_text::store_error_text;
use crate::fault::{FirstError, store_error};
use crate::held::{ByteRange, store_held};
use crate::lists::{count, rewrite, rewrite_each};
use crate::lookup::{
    family_of, from_info_kind, from_port_kind, kind_of, number_of, store_family_name, store_row,
};
use crate::message::{FoundMessage, store_message, store_message_error};
use crate::names::{store_flag_name, store_kind_name, store_number_name};
use crate::opens::opens;
use crate::refusal::{Refusal, answer_of, store_code_text};
use crate::report::report_into;
use crate::requests::store_request;
use crate::struct_fields::{StructField, store_field};
use crate::timing::{BitTiming, TimingLimits, bit_timing, timing_limits};
use crate::value_text::store_value_text;
use crate::values::{count_places, find_element, find_value, store_values};
use crate::writing::{measure_values, write_values};
use link_entries::{Entry, Row};
use link_requests::Head;
use netlink_packet_route::{Family, FamilyElements, FamilySet, is_canonical};
use std::alloc::Global;

/// Calls a function with the `Family` of a number. Returns -5 if there is none.
macro_rules! answer_by {
    ($family:ident, $call:expr) => {
        answer_by!($family, $call, Err(Refusal::NoFamily))
    };
    ($family:ident, $call:expr, $none:expr) => {
        match Family::from_number($family) {
            Some($family) => answer_of($call),
            None => answer_of($none),
        }
    };
}

/// Calls a function for texts in the same way. Stores the empty text if there is no such `Family`.
macro_rules! text_by {
    ($family:ident, $out:ident, $call:expr) => {
        answer_by!($family, $call, refuse(Refusal::NoFamily, $out))
    };
}

/// `NLROUTE_VERSION` of the header.
const VERSION: u32 = 0x00_03_00;

/// Returns the version of the library: a byte each for major, minor and patch.
#[unsafe(no_mangle)]
pub extern "C" fn nlroute_version() -> u32
    ensures { result ≡ version }
{
    VERSION
}

/// Re-encodes the list in `bytes` into `out`, as `rewrite` does. Returns `n`, the number of bytes written; `out[n..]`
/// is unchanged.
///
/// # Errors
///
/// -1 if the input is malformed, -2 if a value does not fit, -3 if an allocation fails, -4 if `out` is too small.
#[unsafe(no_mangle)]
pub extern "C" fn nlroute_rewrite(alloc: Global, family: u32, bytes: &[u8], out: &mut [u8]) -> isize
    ensures answer { AnswersFor family (RewriteAnswers bytes.now out.old out.new) result }
    ensures unchanged { result <ℤ pos 0 → out.new ≡ out.old }
{
    answer_by!(family, rewrite(alloc, family, bytes, out))
}

/// Re-encodes the list in `bytes` into `out`, one attribute at a time, as `rewrite_streaming` does. Returns `n`, the
/// number of bytes written; `out[n..]` is unchanged.
///
/// # Errors
///
/// Let `m` be `bytes.len()` rounded up to a multiple of four.
///
/// -4 if `out` has fewer than `m` bytes. -1 if the input is malformed, -2 if a value does not fit, -3 if an allocation
/// fails; `out[..m]` may then have changed.
#[unsafe(no_mangle)]
pub extern "C" fn nlroute_rewrite_streaming(
    alloc: Global,
    family: u32,
    bytes: &[u8],
    out: &mut [u8],
) -> isize
    ensures answer { AnswersFor family (StreamingAnswers bytes.now out.old out.new) result }
    ensures behind { drop (pad (length bytes.now)) out.new ≡ drop (pad (length bytes.now)) out.old }
    ensures room { length out.old < pad (length bytes.now) → (result <ℤ negsuc 2) × (out.new ≡ out.old) }
    ensures unchanged { result ≡ negsuc 4 → out.new ≡ out.old }
{
    answer_by!(family, rewrite_each(alloc, family, bytes, out))
}

/// Returns the number of values of the list in `bytes`.
///
/// # Errors
///
/// -1 if the input is malformed.
#[unsafe(no_mangle)]
pub extern "C" fn nlroute_count(family: u32, bytes: &[u8]) -> isize
    ensures { AnswersFor family (CountAnswers bytes.now) result }
{
    answer_by!(family, count(family, bytes))
}

/// Returns the number of entries that `nlroute_values` stores for the list in `bytes`: its values, and the elements of those
/// that are lists. It is at most half of the length.
///
/// # Errors
///
/// -1 if the input is malformed.
#[unsafe(no_mangle)]
pub extern "C" fn nlroute_places(family: u32, bytes: &[u8]) -> isize
    ensures { AnswersBy family (PlacesAnswers bytes.now) result }
{
    answer_by!(family, count_places(family, bytes))
}

/// Stores the values of the list in `bytes`, in order, in the first of `values`; after a value that is a list, its elements
/// follow. Returns the number of entries; the other places are unchanged.
///
/// # Errors
///
/// -1 if the input is malformed. -4 if there are more entries than places; then `values` has the first entries.
#[unsafe(no_mangle)]
pub extern "C" fn nlroute_values(family: u32, bytes: &[u8], values: &mut [Entry]) -> isize
    ensures answer { AnswersBy family (ValuesAnswers bytes.now values.old values.new) result }
    ensures unchanged { result ≡ negsuc 4 → values.new ≡ values.old }
{
    answer_by!(family, store_values(family, bytes, values))
}

/// Stores the last value of type `kind` of the list in `bytes` in `value`, as `nlroute_values` stores it, and returns 0.
///
/// # Errors
///
/// -1 if the input is malformed, -6 if the list has no attribute of this type.
#[unsafe(no_mangle)]
pub extern "C" fn nlroute_find(family: u32, bytes: &[u8], kind: u16, value: &mut Entry) -> isize
    ensures answer { AnswersBy family (FindAnswers bytes.now kind value.new) result }
    ensures unchanged { result <ℤ pos 0 → value.new ≡ value.old }
{
    answer_by!(family, find_value(family, bytes, kind, value))
}

/// Stores the last element `inner` of the last value of type `kind` of the list in `bytes` in `value`, as `nlroute_values`
/// stores it, and returns 0.
///
/// # Errors
///
/// -1 if the input is malformed, -6 if there is no such element.
#[unsafe(no_mangle)]
pub extern "C" fn nlroute_find_in(
    family: u32,
    bytes: &[u8],
    kind: u16,
    inner: u16,
    value: &mut Entry,
) -> isize
    ensures answer { AnswersBy family (FindInAnswers bytes.now kind inner value.new) result }
    ensures unchanged { result <ℤ pos 0 → value.new ≡ value.old }
{
    answer_by!(family, find_element(family, bytes, kind, inner, value))
}

/// Stores the `struct can_bittiming` that `value` refers to in `timing`, and returns 0. `octets` are the bytes of the list.
///
/// # Errors
///
/// -7 if `value` is no bit timing, -10 if its octets are not 32 of `octets`.
#[unsafe(no_mangle)]
pub extern "C" fn nlroute_can_bittiming(
    value: &Entry,
    octets: &[u8],
    timing: &mut BitTiming,
) -> isize
    ensures answer { AnswersWith (TimingAnswers value.now octets.now timing.new) result }
    ensures unchanged { result <ℤ pos 0 → timing.new ≡ timing.old }
{
    answer_of(bit_timing(value, octets, timing))
}

/// Stores the `struct can_bittiming_const` that `value` refers to in `limits`, and returns 0. `octets` are the bytes of the
/// list. The name ends with a NUL: it is cut to 15 bytes.
///
/// # Errors
///
/// -7 if `value` has no such limits, -10 if its octets are not 48 of `octets`.
#[unsafe(no_mangle)]
pub extern "C" fn nlroute_can_bittiming_const(
    value: &Entry,
    octets: &[u8],
    limits: &mut TimingLimits,
) -> isize
    ensures answer { AnswersWith (LimitsAnswers value.now octets.now limits.new) result }
    ensures unchanged { result <ℤ pos 0 → limits.new ≡ limits.old }
{
    answer_of(timing_limits(value, octets, limits))
}

/// Stores the field with this index, of the struct that `value` encodes to, in `field`, and returns 0: of the attribute
/// or the element that `nlroute_write` writes for the value. `octets` has the bytes that it refers to; the form 0 stands
/// for that of the attribute type.
///
/// # Errors
///
/// As for `nlroute_text`. Then -6 if the attribute type has no struct, or the struct fewer fields.
#[unsafe(no_mangle)]
pub extern "C" fn nlroute_read_field(
    family: u32,
    value: &Entry,
    index: usize,
    octets: &[u8],
    field: &mut StructField,
) -> isize
    ensures answer { AnswersBy family (FieldAnswers value.now index octets.now field.new) result }
    ensures unchanged { result <ℤ pos 0 → field.new ≡ field.old }
{
    answer_by!(family, store_field(family, value, index, octets, field))
}

/// Writes `values` as a list to the start of `out`; a value may refer to bytes in `octets`. Returns `n`, the
/// number of bytes written; `out[n..]` is unchanged.
///
/// # Errors
///
/// Of the first value that cannot be written, the first that applies: -9 if it is an element that does not follow a list of
/// its type, -7 if its form is not that of the attribute type, -8 if its attribute cannot hold a number, -10 if its bytes
/// are too many, too few, or outside `octets`, -2 if its payload does not fit in an attribute; a list is too long only if
/// its elements can be written. -4 if all can be written, but `out` is too small.
#[unsafe(no_mangle)]
pub extern "C" fn nlroute_write(
    family: u32,
    values: &[Entry],
    octets: &[u8],
    out: &mut [u8],
) -> isize
    ensures answer { AnswersBy family (WriteAnswers values.now octets.now out.old out.new) result }
    ensures unchanged { result <ℤ pos 0 → out.new ≡ out.old }
{
    answer_by!(family, write_values(family, values, octets, out))
}

/// Returns the length of the list that `nlroute_write` writes for `values`, at most 2^63 - 1.
///
/// # Errors
///
/// As for `nlroute_write`, but not -4, and `at` is the index of the first value that cannot be written. Without such a
/// value, `at` is unchanged.
#[unsafe(no_mangle)]
pub extern "C" fn nlroute_measure(
    family: u32,
    values: &[Entry],
    octets: &[u8],
    at: &mut usize,
) -> isize
    ensures answer { AnswersBy family (MeasureAnswers values.now octets.now at.old at.new) result }
    ensures unchanged { result ≡ negsuc 4 → at.new ≡ at.old }
{
    answer_by!(family, measure_values(family, values, octets, at))
}

/// Writes a request about a link to the start of `out`: the message with this head, and the attributes of the set `link` that
/// `values` encode to; a value may refer to bytes in `octets`. Returns `n`, the number of bytes written; `out[n..]` and
/// `at` are unchanged.
///
/// # Errors
///
/// Of the head, -11 if it is of another type, -12 if the link that it changes or deletes has an index of 0 or less. Then, of
/// the first value that cannot be written, as for `nlroute_write`; after -8, -13 if it is a name that Linux rejects, and -14 if
/// no set reads the list whose values follow. Then -2 if the message is longer than 2^32 - 1 bytes. `at` is the index of the
/// value; of the head and the message, the number of values. -4 if `out` is too small; `at` is then the length of the message.
#[unsafe(no_mangle)]
pub extern "C" fn nlroute_request(
    head: &Head,
    values: &[Entry],
    octets: &[u8],
    out: &mut [u8],
    at: &mut usize,
) -> isize
    ensures answer { AnswersWith (RequestAnswers head.now values.now octets.now out.old out.new at.old at.new) result }
    ensures unchanged { result <ℤ pos 0 → out.new ≡ out.old }
{
    answer_of(store_request(head, values, octets, out, at))
}

/// Stores the name of the attribute type of `value`, such as `IFLA_BR_FORWARD_DELAY`, or `type 99` if the type has no row, as
/// at a depth greater than 1; for an address of a list or a number of an array, it is its index, such as `[3]`.
#[unsafe(no_mangle)]
pub extern "C" fn nlroute_kind_name(family: u32, value: &Entry, out: &mut [u8]) -> isize
    ensures answer { AnswersBy family (KindNameAnswers value.now out.old out.new) result }
    ensures empty { result <ℤ pos 0 → out.new ≡ cut_text [] out.old }
{
    text_by!(family, out, store_kind_name(family, value, out))
}

/// Stores the text of `value`: of the attribute or the element that `nlroute_write` writes for it. `octets` has the bytes
/// that it refers to; the form 0 stands for that of the attribute type. The length is at most `isize::MAX`.
///
/// # Errors
///
/// The first that applies: -9 if the attribute type has no elements, or the depth is greater than 1; -7 if the form is not
/// that of the type; -8 if its attribute cannot hold its numbers; -10 if its octets have a wrong length or are not within
/// `octets`; -2 if they do not fit in an attribute.
#[unsafe(no_mangle)]
pub extern "C" fn nlroute_text(family: u32, value: &Entry, octets: &[u8], out: &mut [u8]) -> isize
    ensures answer { AnswersBy family (TextAnswers value.now octets.now out.old out.new) result }
    ensures empty { result <ℤ pos 0 → out.new ≡ cut_text [] out.old }
{
    text_by!(family, out, store_value_text(family, value, octets, out))
}

/// Stores the name of the number of `value`, such as `802.3ad`.
///
/// # Errors
///
/// -6 if the number has no name, as at a depth greater than 1.
#[unsafe(no_mangle)]
pub extern "C" fn nlroute_number_name(family: u32, value: &Entry, out: &mut [u8]) -> isize
    ensures answer { AnswersBy family (NumberNameAnswers value.now out.old out.new) result }
    ensures empty { result <ℤ pos 0 → out.new ≡ cut_text [] out.old }
{
    text_by!(family, out, store_number_name(family, value, out))
}

/// Stores the name of a bit of the attribute type of `value`, such as `LACP_ACTIVITY` for bit 0.
///
/// # Errors
///
/// -6 if the bit has no name, as at a depth greater than 1.
#[unsafe(no_mangle)]
pub extern "C" fn nlroute_flag_name(family: u32, value: &Entry, bit: u32, out: &mut [u8]) -> isize
    ensures answer { AnswersBy family (FlagNameAnswers value.now bit out.old out.new) result }
    ensures empty { result <ℤ pos 0 → out.new ≡ cut_text [] out.old }
{
    text_by!(family, out, store_flag_name(family, value, bit, out))
}

/// Stores the name of the attribute set, such as `bridge`.
#[unsafe(no_mangle)]
pub extern "C" fn nlroute_family_name(family: u32, out: &mut [u8]) -> isize
    ensures answer { AnswersBy family (FamilyNameAnswers out.old out.new) result }
    ensures empty { result <ℤ pos 0 → out.new ≡ cut_text [] out.old }
{
    text_by!(family, out, store_family_name(family, out))
}

/// Returns the number of the attribute set with this name.
///
/// # Errors
///
/// -5 if there is none.
#[unsafe(no_mangle)]
pub extern "C" fn nlroute_family_of(name: &[u8]) -> isize
    ensures { AnswersWith (FamilyOfAnswers name.now) result }
{
    answer_of(family_of(name))
}

/// Returns the number of the attribute set of the devices of a kind, such as `bond`: that of their `IFLA_INFO_DATA`. `kind`
/// is the text of `IFLA_INFO_KIND`, without a NUL at its end.
///
/// # Errors
///
/// -5 if no attribute set is of this kind.
#[unsafe(no_mangle)]
pub extern "C" fn nlroute_from_info_kind(kind: &[u8]) -> isize
    ensures { AnswersWith (HeldByAnswers (InfoKind kind.now)) result }
{
    answer_of(from_info_kind(kind))
}

/// Returns the number of the attribute set of the ports of a kind, such as `bond`: that of their `IFLA_INFO_SLAVE_DATA`.
/// `kind` is the text of `IFLA_INFO_SLAVE_KIND`, without a NUL at its end.
///
/// # Errors
///
/// -5 if no attribute set is of this kind.
#[unsafe(no_mangle)]
pub extern "C" fn nlroute_from_port_kind(kind: &[u8]) -> isize
    ensures { AnswersWith (HeldByAnswers (PortKind kind.now)) result }
{
    answer_of(from_port_kind(kind))
}

/// Returns the least attribute type with this name, such as `IFLA_BR_FORWARD_DELAY`.
///
/// # Errors
///
/// -6 if no type has the name.
#[unsafe(no_mangle)]
pub extern "C" fn nlroute_kind_of(family: u32, name: &[u8]) -> isize
    ensures { AnswersBy family (KindOfAnswers name.now) result }
{
    answer_by!(family, kind_of(FamilySet { family }, name))
}

/// Returns the least type of an element with this name in nested lists of type `list`.
///
/// # Errors
///
/// -6 if no element has the name.
#[unsafe(no_mangle)]
pub extern "C" fn nlroute_kind_of_in(family: u32, list: u16, name: &[u8]) -> isize
    ensures { AnswersBy family (KindOfInAnswers list name.now) result }
{
    answer_by!(family, kind_of(FamilyElements { family, list }, name))
}

/// Stores in `row` what values of type `kind` hold, or those of its element `inner` if `depth` is 1, and returns 0.
///
/// # Errors
///
/// -9 if values of the type have no elements, or `depth` is greater than 1.
#[unsafe(no_mangle)]
pub extern "C" fn nlroute_read_row(
    family: u32,
    kind: u16,
    inner: u16,
    depth: u8,
    row: &mut Row,
) -> isize
    ensures answer { AnswersBy family (RowAnswers kind inner depth row.new) result }
    ensures unchanged { result <ℤ pos 0 → row.new ≡ row.old }
{
    answer_by!(family, store_row(family, kind, inner, depth, row))
}

/// Stores in `number` the first number, or bit, of the type of `value` that has this name, and returns 0.
///
/// # Errors
///
/// -6 if there is none, as at a depth greater than 1.
#[unsafe(no_mangle)]
pub extern "C" fn nlroute_number_of(
    family: u32,
    value: &Entry,
    name: &[u8],
    number: &mut u64,
) -> isize
    ensures answer { AnswersBy family (NumberOfAnswers value.now name.now number.new) result }
    ensures unchanged { result <ℤ pos 0 → number.new ≡ number.old }
{
    answer_by!(family, number_of(family, value, name, number))
}

/// Stores the meaning of an error code in words.
#[unsafe(no_mangle)]
pub extern "C" fn nlroute_code_text(code: isize, out: &mut [u8]) -> isize
    ensures { AnswersWith (CodeTextAnswers code out.old out.new) result }
{
    answer_of(store_code_text(code, out))
}

/// Stores the text of an error, such as `error at 8: IFLA_BR_HELLO_TIME has 3 bytes, expected 4`. The length is at most
/// `isize::MAX`.
///
/// # Errors
///
/// -7 if the numbers are not those of an error in a list.
#[unsafe(no_mangle)]
pub extern "C" fn nlroute_fault_text(family: u32, fault: &FirstError, out: &mut [u8]) -> isize
    ensures answer { AnswersBy family (ErrorTextAnswers fault.now out.old out.new) result }
    ensures empty { result <ℤ pos 0 → out.new ≡ cut_text [] out.old }
{
    text_by!(family, out, store_error_text(family, fault, out))
}

/// Returns whether the list in `bytes` is canonical, so that `nlroute_rewrite` outputs the same bytes. False if the input
/// is malformed, or if `family` is not the number of a `Family`.
#[unsafe(no_mangle)]
pub extern "C" fn nlroute_is_canonical(family: u32, bytes: &[u8]) -> bool
    ensures { IsTrue result ↔ IsCanonicalFor family bytes.now }
{
    match Family::from_number(family) {
        Some(family) => is_canonical(family, bytes),
        None => false,
    }
}

/// Stores the first decode error of the list in `bytes` in `error`, and returns 0.
///
/// # Errors
///
/// -6 if the list has no error.
#[unsafe(no_mangle)]
pub extern "C" fn nlroute_first_fault(family: u32, bytes: &[u8], error: &mut FirstError) -> isize
    ensures answer { AnswersFor family (ErrorAnswers bytes.now error.new) result }
    ensures unchanged { result <ℤ pos 0 → error.new ≡ error.old }
{
    answer_by!(family, store_error(family, bytes, error))
}

/// Stores the message at offset `at` of a buffer of netlink messages in `message`, and returns 0. The next one is at its
/// `next`.
///
/// # Errors
///
/// -6 at the end of the buffer, -1 if the message is malformed, or too short for one about a link.
#[unsafe(no_mangle)]
pub extern "C" fn nlroute_read_message(bytes: &[u8], at: usize, message: &mut FoundMessage) -> isize
    ensures answer { AnswersWith (MessageAnswers at (drop at bytes.now) message.new) result }
    ensures unchanged { result <ℤ pos 0 → message.new ≡ message.old }
{
    answer_of(store_message(bytes, at, message))
}

/// Stores in `error` why the message at offset `at` of a buffer is malformed, and returns 0.
///
/// # Errors
///
/// -6 if it is not malformed, or at the end of the buffer.
#[unsafe(no_mangle)]
pub extern "C" fn nlroute_message_fault(bytes: &[u8], at: usize, error: &mut FirstError) -> isize
    ensures answer { AnswersWith (MessageErrorAnswers at (drop at bytes.now) error.new) result }
    ensures unchanged { result <ℤ pos 0 → error.new ≡ error.old }
{
    answer_of(store_message_error(bytes, at, error))
}

/// Stores in `held` where the last list of the attribute set is, of those that the attributes of a message hold, and those in
/// these, and returns 0. `list` has the attributes, and `address_family` is the `ifi_family` of the message.
///
/// # Errors
///
/// -6 if there is no such list.
#[unsafe(no_mangle)]
pub extern "C" fn nlroute_held(
    list: &[u8],
    address_family: u8,
    family: u32,
    held: &mut ByteRange,
) -> isize
    ensures answer { AnswersBy family (HeldAnswers address_family list.now held.new) result }
    ensures unchanged { result <ℤ pos 0 → held.new ≡ held.old }
{
    answer_by!(family, store_held(family, address_family, list, held))
}

/// Returns the number of the attribute set that reads the list in `value`, a value of the list of `family` in `list`, in a
/// message of this `ifi_family`.
///
/// # Errors
///
/// -6 if there is none.
#[unsafe(no_mangle)]
pub extern "C" fn nlroute_opens(
    family: u32,
    address_family: u8,
    value: &Entry,
    list: &[u8],
) -> isize
    ensures { AnswersBy family (OpensAnswers address_family value.now list.now) result }
{
    answer_by!(family, opens(family, address_family, value, list))
}

/// Writes the output of the program `nlroute FAMILY` for the input `text` to the start of `out`, and its exit status (0
/// to 3) to `status`. Returns the length of the output; the rest of `out` is unchanged.
///
/// # Errors
///
/// -3 if an allocation fails, -4 if `out` is too small.
#[unsafe(no_mangle)]
pub extern "C" fn nlroute_report(
    alloc: Global,
    family: u32,
    text: &[u8],
    out: &mut [u8],
    status: &mut u8,
) -> isize
    ensures answer { AnswersFor family (ReportAnswers text.now out.old out.new status.new) result }
    ensures unchanged { result <ℤ pos 0 → (out.new ≡ out.old) × (status.new ≡ status.old) }
{
    answer_by!(family, report_into(alloc, family, text, out, status))
}
