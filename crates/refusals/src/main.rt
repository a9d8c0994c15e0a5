//! Makes calls of the library and prints their results, for `tools/refusals.py`, which runs this program under a
//! `malloc` that makes the allocations of the call fail.
//!
//! Usage: `refusals`, without arguments. Each line of standard input names a call and its arguments: usually an
//! attribute set and the bytes of a list. Bytes are hex digits, or a number, `*`, and the hex digits of bytes that are
//! repeated that number of times. Empty lines, and lines that begin with `#`, are ignored.
#![tactic(auto)]

mod asking;
mod calls;

use anyhow::Result;

fn main(rt: HostRuntime) -> Result<()> {
    for line in rt.lines(rt.alloc()) {
        let line = line?;
        if !line.is_empty() && !line.starts_with('#') {
            let answer = asking::answer(rt.alloc(), &line)?;
            println!(rt; "{line}\n  {answer}")?;
        }
    }
    Ok(())
}
