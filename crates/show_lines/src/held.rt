//! The buffer for the current line.

ghost use Rattle.std.specs.Prelude.{◌≡◌, ◌≤◌, ◌^◌, ◌++◌, ℕ, suc, List, [], length, OnOk, IfErr, IsErr, vec_len};
ghost use Rattle.show_lines.specs.declared.running.Stop.TheVariants.{Reader};
ghost use Rattle.show_lines.specs.Progress.{held_of, most_held};

use crate::running::Stop;
use netlink_packet_route::MOST_TEXT;
use std::alloc::{AllocError, Global};
use std::marker::Model;

/// The maximum number of bytes that are kept: one more than the maximum length of a line.
const MOST_HELD: usize = MOST_TEXT + 1;

/// The number of the current line, from 1, and its bytes so far, up to `MOST_HELD`.
#[derive(Drop)]
pub(crate) struct Held {
    number: u64,
    bytes: Vec<u8>,
}

impl Model for Held {
    ghost Value = { ℕ × List ℕ };

    ghost view = { λ h. (h.number, h.bytes.items) };

    ghost invariant = { λ h. vec_len h.bytes ≤ most_held };
}

impl Held {
    /// Creates an empty buffer for the first line.
    pub(crate) fn new(alloc: Global) -> Self
        ensures { result ≡ (1, []) }
    {
        Held {
            number: 1,
            bytes: Vec::new(alloc),
        }
    }

    /// Returns the bytes of the current line.
    pub(crate) fn bytes(&self) -> &[u8]
        ensures { result.now ≡ self.now.1 }
    {
        &self.bytes
    }

    /// Returns the number of the current line.
    pub(crate) fn number(&self) -> u64
        ensures { result ≡ self.now.0 }
    {
        self.number
    }

    /// Appends `piece`, truncated to the remaining capacity.
    pub(crate) fn add(&mut self, piece: &[u8]) -> Result<(), AllocError>
        ensures kept { OnOk result (self.new ≡ (self.old.0, held_of (self.old.1 ++ piece.now))) }
        ensures most { length self.new.1 ≤ most_held }
    {
        let room = MOST_HELD - self.bytes.len();
        let (front, _) = piece.split_at(room.min(piece.len()));
        self.bytes.extend_from_slice(front)
    }

    /// Begins the next line.
    ///
    /// # Errors
    ///
    /// `Reader` if its number would be 2<sup>64</sup>. Then nothing changes.
    pub(crate) fn begin_next(&mut self) -> Result<(), Stop>
        ensures counted { OnOk result (self.new ≡ (suc self.old.0, [])) }
        ensures failed { IfErr result (λ stop. stop ≡ Reader) }
        ensures full { IsErr result → 2 ^ 64 ≤ suc self.old.0 }
        ensures kept { IsErr result → self.new ≡ self.old }
    {
        let Some(number) = self.number.checked_add(1) else {
            return Err(Stop::Reader);
        };
        self.number = number;
        self.bytes.clear();
        Ok(())
    }
}
