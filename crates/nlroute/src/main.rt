//! Reads a list of link attributes in hex, and prints its attributes and the re-encoded list.
//!
//! Usage: `nlroute FAMILY`, where FAMILY is the name of a `Family`. The list is read from standard input. All output goes
//! to standard output.
#![tactic(auto)]

mod arguments;
mod running;
#[cfg(test)]
mod tests;

use program::{collect_arguments, print_text};
use std::io;
use std::process::ExitCode;

fn main(rt: HostRuntime) -> ExitCode {
    let mut writer = io::writer(&rt);
    let status = match collect_arguments(&rt) {
        Ok(words) => {
            let name = words.and_then(arguments::only);
            let name = name.as_ref().map(|name| name.as_str());
            running::run(rt.alloc(), name, &mut rt.reader(), &mut writer)
        }
        Err(_) => print_text(&mut writer, "no memory\n", 4),
    };
    ExitCode::from(status)
}
