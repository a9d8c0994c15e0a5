//! The output of the program `nlroute` for an input.

ghost use Rattle.std.specs.Prelude.{◌≡◌, ◌++◌, IfOk, OnOk, map, flat_map, string_bytes};
ghost use Rattle.std.specs.List.{AllByRecursion};
ghost use Rattle.link_base.specs.Table.{Fits};
ghost use Rattle.netlink_packet_route.specs.Family.{table_of};
ghost use Rattle.netlink_packet_route.specs.Report.{Reports, Prints, Verdict, fault_line, too_long_line};
ghost use Rattle.netlink_packet_route.specs.Report.{attr_line, attr_line_of, out_line};

use crate::family::Family;
use crate::hex_text::HexError;
use crate::rewriting::read_and_write;
use crate::{by_family, hex_text};
use link_base::{Attribute, DecodeFault, RewriteError};
use std::alloc::{AllocError, Global};

/// The maximum input length of `report`, in bytes.
pub const MOST_TEXT: usize = 262_144;

/// Returns the complete output of the program `nlroute FAMILY` for an input, and its exit status.
///
/// `text` must consist of hex digits (case-insensitive); space, tab, CR and LF are ignored anywhere. The output is
///
/// - status 0: a line `attr KIND len LENGTH` for each value, then `out HEX`, then `same` or `changed`;
/// - status 1: one line with the first decode error;
/// - status 2: the line `input too long` if `text.len()` is greater than `MOST_TEXT`, or `bad hex` if the digits are
///   not valid hex;
/// - status 3: one line with the index of the first value that does not fit in an attribute.
///
/// # Errors
///
/// `AllocError` if an allocation fails.
pub fn report(alloc: Global, family: Family, text: &[u8]) -> Result<(String, u8), AllocError>
    ensures { IfOk result (λ report. Reports (table_of family) text.now (string_bytes report.0) report.1) }
{
    if text.len() > MOST_TEXT {
        return Ok((String::from_str(alloc, "input too long\n")?, 2));
    }
    let bytes = match hex_text::decode(alloc, text) {
        Ok(bytes) => bytes,
        Err(HexError::Memory(error)) => return Err(error),
        Err(HexError::BadHex) => return Ok((String::from_str(alloc, "bad hex\n")?, 2)),
    };
    by_family!(family, report_bytes(alloc, &bytes))
}

fn report_bytes<F: Attribute>(alloc: Global, bytes: &[u8]) -> Result<(String, u8), AllocError>
    ensures { IfOk result (λ report. Prints F.table bytes.now (string_bytes report.0) report.1) }
{
    let (values, out) = match read_and_write::<F>(alloc, bytes) {
        Ok(read) => read,
        Err(RewriteError::Memory(error)) => return Err(error),
        Err(RewriteError::Fault { at, fault }) => return Ok((fault_text(alloc, at, fault)?, 1)),
        Err(RewriteError::TooLong { index }) => return Ok((too_long_text(alloc, index)?, 3)),
    };
    let mut text = value_text(alloc, &values, &out)?;
    text.push_str(verdict(&out, bytes))?;
    Ok((text, 0))
}

fn fault_text(alloc: Global, at: usize, fault: DecodeFault) -> Result<String, AllocError>
    ensures { IfOk result (λ text. string_bytes text ≡ fault_line at fault) }
{
    format!(in alloc; "fault at {at}: {fault}\n")
}

fn too_long_text(alloc: Global, index: usize) -> Result<String, AllocError>
    ensures { IfOk result (λ text. string_bytes text ≡ too_long_line index) }
{
    format!(in alloc; "too long at {index}\n")
}

fn value_text<F: Attribute>(alloc: Global, values: &[F], out: &[u8]) -> Result<String, AllocError>
    requires { AllByRecursion Fits (map F.means values.now) }
    ensures { IfOk result
        (λ text. string_bytes text ≡ flat_map attr_line (map F.means values.now) ++ out_line out.now) }
{
    let mut text = String::new(alloc);
    for value in values {
        push_attr(&mut text, value.kind(), value.value_len())?;
    }
    push_out(alloc, &mut text, out)?;
    Ok(text)
}

fn verdict(out: &[u8], bytes: &[u8]) -> &'static str
    ensures { Verdict out.now bytes.now result.now }
{
    if out == bytes { "same\n" } else { "changed\n" }
}

fn push_attr(text: &mut String, kind: u16, len: usize) -> Result<(), AllocError>
    ensures { OnOk result (string_bytes text.new ≡ string_bytes text.old ++ attr_line_of kind len) }
{
    writeln!(text, "attr {kind} len {len}")
}

fn push_out(alloc: Global, text: &mut String, out: &[u8]) -> Result<(), AllocError>
    ensures { OnOk result (string_bytes text.new ≡ string_bytes text.old ++ out_line out.now) }
{
    if out.is_empty() {
        return text.push_str("out\n");
    }
    let digits = hex::encode(alloc, out)?;
    writeln!(text, "out {digits}")
}
