//! The output of the program `nlroute`, in the caller's buffer.

ghost use Rattle.std.specs.Prelude.{◌≡◌, OnErr};
ghost use Rattle.netlink_packet_route.specs.Family.{table_of};
ghost use Rattle.nlroute_ffi.specs.Calls.{ReportAnswers};

use crate::refusal::Refusal;
use netlink_packet_route::{Family, report};
use std::alloc::Global;

/// Writes the report for an input to the start of `out`, and its exit status to `status`. Returns the number of bytes
/// written; the rest of `out` is unchanged.
///
/// # Errors
///
/// `Memory` if an allocation fails, `NoRoom` if `out` is too small. On error `out` and `status` are unchanged.
pub(crate) fn report_into(
    alloc: Global,
    family: Family,
    text: &[u8],
    out: &mut [u8],
    status: &mut u8,
) -> Result<usize, Refusal>
    ensures answer { ReportAnswers text.now out.old out.new status.new (table_of family) result }
    ensures unchanged { OnErr result ((out.new ≡ out.old) × (status.new ≡ status.old)) }
{
    let (printed, code) = match report(alloc, family, text) {
        Ok(reported) => reported,
        Err(_) => return Err(Refusal::Memory),
    };
    let printed = printed.as_bytes();
    if printed.len() > out.len() {
        return Err(Refusal::NoRoom);
    }
    out[..printed.len()].copy_from_slice(printed);
    *status = code;
    Ok(printed.len())
}
