//! Makes the call that an input line names, and formats its result.

ghost use Rattle.std.specs.Prelude.{◌≡◌, ◌≤◌, ◌^◌, ◌↔◌, IfOk, IsTrue, string_bytes};
ghost use Rattle.netlink_packet_route.specs.Frame.{pad};

use crate::calls;
use anyhow::{Result, bail};
use netlink_packet_route::link::{
    Attribute, BondAdInfo, BridgeQuerierState, BridgeVlanTunnelInfo, CanCtrlModeExt, CanTdc,
    NlaBuffer, TryClone, VlanQosMapping, read_list,
};
use netlink_packet_route::{Family, RewriteError, by_family};
use std::alloc::Global;
use std::fmt::Debug;
use std::str;

/// The maximum length of a printed result, in bytes.
const MOST: usize = 300;

/// Makes the call that a line names, on the bytes that it names. The line starts with the number of allocations that
/// the call makes, which is ignored here. The result is formatted with `{:?}`, except that bytes are hex digits. If the
/// caller's bytes, values or buffer have changed, the output ends with a note of this.
///
/// # Errors
///
/// If the line does not name a call, if its bytes are missing or not suitable for the call, or if an allocation outside
/// the call fails.
pub(crate) fn answer(alloc: Global, line: &str) -> Result<String> {
    let (_allocations, rest) = cut_word(line);
    let (call, rest) = cut_word(rest);
    let (word, words) = cut_word(rest);
    let bytes = bytes_of(alloc, words)?;
    let lent = Vec::from_slice(alloc, &bytes)?;
    let answer = match (call, Family::from_name(word)) {
        ("expand_buffer_if_small", _) => {
            said_bytes(alloc, calls::expand(alloc, &lent, word.parse()?))?
        }
        (_, Some(family)) => on_family(alloc, call, family, &lent)?,
        (_, None) => on_nested(alloc, call, word, &lent)?,
    };
    kept(answer, lent == bytes)
}

/// Splits `text` at the first space. Returns what precedes and what follows the space.
fn cut_word(text: &str) -> (&str, &str) {
    text.split_once(' ').unwrap_or((text, ""))
}

/// Parses words to bytes, and concatenates them. A word is hex digits, or a number, `*`, and hex digits.
fn bytes_of(alloc: Global, words: &str) -> Result<Vec<u8>> {
    let mut bytes = Vec::new(alloc);
    for word in words.split_ascii_whitespace() {
        let (times, digits) = word.split_once('*').unwrap_or(("1", word));
        let part = hex::decode(alloc, digits)?;
        for _ in 0..times.parse::<usize>()? {
            bytes.extend_from_slice(&part)?;
        }
    }
    Ok(bytes)
}

/// Makes a call for an attribute set on `bytes`; for `report`, on their hex digits.
fn on_family(alloc: Global, call: &str, family: Family, bytes: &[u8]) -> Result<String> {
    match call {
        "rewrite" => said_bytes(alloc, calls::rewrite(alloc, family, bytes)),
        "rewrite_streaming" => rewrite_streaming(alloc, family, bytes),
        "rewrite_to_slice" => rewrite_to_slice(alloc, family, bytes, padded(bytes.len())),
        "rewrite_to_slice_short" => rewrite_to_slice(alloc, family, bytes, 3),
        "count_values" => said(alloc, &calls::count_values(alloc, family, bytes)),
        "view_list" => said(alloc, &calls::view_list(alloc, family, bytes)),
        "view_all" => said(alloc, &calls::view_all(alloc, family, bytes)),
        "find" => find(alloc, family, bytes),
        "known" => said(alloc, &calls::known(alloc, family, bytes)),
        "report" => {
            let text = hex::encode(alloc, bytes)?;
            let answer = said(alloc, &calls::report(alloc, family, text.as_bytes()))?;
            kept(answer, text == hex::encode(alloc, bytes)?)
        }
        "FrameTable::walk" => walk(alloc, bytes),
        "VecAfSpecBridge::parse" => said(alloc, &calls::parse_af_spec(alloc, bytes)),
        "VecLinkProtoInfoBridge::parse" => said(alloc, &calls::parse_proto_info(alloc, bytes)),
        "CanBitTimingConst::new" => said(alloc, &calls::limits(alloc, str::from_utf8(bytes)?)),
        "CanBitTimingConst::empty" => said(alloc, &calls::no_limits(alloc)),
        _ => by_family!(family, on_attributes(alloc, call, bytes)),
    }
}

/// Finds the last attribute with the type of the first one, and formats its content.
fn find(alloc: Global, family: Family, bytes: &[u8]) -> Result<String> {
    let kind = NlaBuffer::new_checked(bytes)?.kind();
    let answer = match calls::find(alloc, family, bytes, kind) {
        Ok(Some(value)) => Ok(Some(value.content())),
        Ok(None) => Ok(None),
        Err(fault) => Err(fault),
    };
    said(alloc, &answer)
}

/// The contents of the buffers of `rewrite_streaming` and `rewrite_to_slice` before the call.
const BEFORE: u8 = 0xA5;

/// Rounds a length up to a multiple of four.
fn padded(len: usize) -> usize
    requires { len ≤ 2 ^ 63 }
    ensures { result ≡ pad len }
{
    (len + 3) / 4 * 4
}

/// Re-encodes a list into a buffer that is four bytes longer than `bytes.len()`, rounded up to a multiple of four.
/// Checks that these four bytes are unchanged and, on success, everything after the bytes that were written.
fn rewrite_streaming(alloc: Global, family: Family, bytes: &[u8]) -> Result<String> {
    let size = padded(bytes.len());
    let mut buffer = vec![in alloc; BEFORE; size + 4]?;
    match calls::rewrite_streaming(alloc, family, bytes, &mut buffer) {
        Ok(len) => said_front(alloc, &buffer, len),
        Err(error) => kept(
            said(alloc, &Err::<String, RewriteError>(error))?,
            are_kept(&buffer[size..]),
        ),
    }
}

/// Re-encodes a list into a buffer of `size` bytes. If nothing was written, checks that the whole buffer is unchanged.
fn rewrite_to_slice(alloc: Global, family: Family, bytes: &[u8], size: usize) -> Result<String> {
    let mut buffer = vec![in alloc; BEFORE; size]?;
    match calls::rewrite_to_slice(alloc, family, bytes, &mut buffer) {
        Ok(Some(len)) => said_front(alloc, &buffer, len),
        other => kept(said(alloc, &other)?, are_kept(&buffer)),
    }
}

/// Formats `buffer[..len]` as the result of `rewrite`, and checks that the rest of the buffer is unchanged.
fn said_front(alloc: Global, buffer: &[u8], len: usize) -> Result<String> {
    let Some((front, rest)) = buffer.split_at_checked(len) else {
        bail!("more than the buffer has: {len}");
    };
    let answer = said(
        alloc,
        &Ok::<String, RewriteError>(hex::encode(alloc, front)?),
    )?;
    kept(answer, are_kept(rest))
}

/// Checks whether these bytes of a buffer are unchanged.
fn are_kept(bytes: &[u8]) -> bool {
    bytes.iter().all(|b| *b == BEFORE)
}

/// Makes a call on the bytes of a nested list, selected by the name of its element type.
fn on_nested(alloc: Global, call: &str, name: &str, bytes: &[u8]) -> Result<String> {
    match name {
        "BondAdInfo" => on_attributes::<BondAdInfo>(alloc, call, bytes),
        "BridgeQuerierState" => on_attributes::<BridgeQuerierState>(alloc, call, bytes),
        "BridgeVlanTunnelInfo" => on_attributes::<BridgeVlanTunnelInfo>(alloc, call, bytes),
        "CanCtrlModeExt" => on_attributes::<CanCtrlModeExt>(alloc, call, bytes),
        "CanTdc" => on_attributes::<CanTdc>(alloc, call, bytes),
        "VlanQosMapping" => on_attributes::<VlanQosMapping>(alloc, call, bytes),
        _ => bail!("neither a family nor a nested list: {name}"),
    }
}

/// Makes a call that is generic over an `Attribute`.
fn on_attributes<F: Attribute + TryClone + Debug>(
    alloc: Global,
    call: &str,
    bytes: &[u8],
) -> Result<String> {
    match call {
        "read_list" => said(alloc, &calls::read_list::<F>(alloc, bytes)),
        "parse" => {
            let frame = NlaBuffer::new_checked(bytes)?;
            said(alloc, &calls::parse::<F>(alloc, &frame))
        }
        _ => {
            let values: Vec<F> = read_list(alloc, bytes)?;
            let answer = on_values(alloc, call, &values)?;
            kept(answer, values == read_list(alloc, bytes)?)
        }
    }
}

/// Makes a call on the values of a list, or on the first of them.
fn on_values<F: Attribute + TryClone + Debug>(
    alloc: Global,
    call: &str,
    values: &[F],
) -> Result<String> {
    match (call, values.first()) {
        ("write_list", _) => said_bytes(alloc, calls::write_list(alloc, values)),
        ("try_clone", Some(value)) => said(alloc, &calls::try_clone(alloc, value)),
        _ => bail!("no such call, or no value: {call}"),
    }
}

/// Walks the attributes of `bytes`. Formats their offsets, and the first error with its offset.
fn walk(alloc: Global, bytes: &[u8]) -> Result<String> {
    let answer = match calls::walk(alloc, bytes) {
        Ok(table) => {
            let mut offsets = Vec::new(alloc);
            for i in 0..table.len() {
                offsets.push(table.offset(i))?;
            }
            Ok((offsets, table.fault()))
        }
        Err(error) => Err(error),
    };
    said(alloc, &answer)
}

/// Formats a result, truncated to `MOST` bytes and the number of bytes that are left out.
fn said<A: Debug>(alloc: Global, answer: &A) -> Result<String> {
    let answer = format!(in alloc; "{answer:?}")?;
    match answer.split_at_checked(MOST) {
        Some((front, rest)) => {
            let left = rest.len();
            Ok(format!(in alloc; "{front} and {left} bytes more")?)
        }
        None => Ok(answer),
    }
}

/// Formats a result that holds bytes, as hex digits.
fn said_bytes<E: Debug + Drop>(alloc: Global, answer: Result<Vec<u8>, E>) -> Result<String> {
    match answer {
        Ok(bytes) => said(alloc, &Ok::<String, E>(hex::encode(alloc, &bytes)?)),
        Err(error) => said(alloc, &Err::<String, E>(error)),
    }
}

/// Appends to a formatted result, unless `is_kept`, that the caller's bytes, values or buffer have changed.
fn kept(mut answer: String, is_kept: bool) -> Result<String>
    ensures { IfOk result (λ said. (string_bytes said ≡ string_bytes answer) ↔ IsTrue is_kept) }
{
    if !is_kept {
        answer.push_str(", and what was lent has changed")?;
    }
    Ok(answer)
}
