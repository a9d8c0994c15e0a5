//! How far an input is read.

ghost use Rattle.std.specs.Prelude.{◌≡◌, ◌⊎◌, ◌≤◌, ◌+◌, ◌^◌, OnOk, IfErr, IsErr};
ghost use Rattle.link_capture.specs.Meaning.{meaning_of};
ghost use Rattle.show_captures.specs.Event.{packets_to};
ghost use Rattle.show_captures.specs.Progress.{Counts, start_of};
ghost use Rattle.show_lines.specs.declared.running.Stop.TheVariants.{Reader};

use link_capture::{Capture, Event, Form};
use show_lines::Stop;

/// How far an input is read.
#[derive(Drop)]
pub(crate) struct Place {
    /// What is known of the input.
    pub(crate) capture: Capture,
    /// The offset of the next unit.
    pub(crate) at: u64,
    /// The number of packets so far.
    pub(crate) packets: u64,
}

impl Place {
    /// Returns the beginning of an input.
    pub(crate) fn new(form: Form) -> Self
        ensures { result ≡ start_of form }
    {
        Place {
            capture: Capture::new(form),
            at: 0,
            packets: 0,
        }
    }

    /// Counts a unit of `size` bytes.
    ///
    /// # Errors
    ///
    /// `Reader` if the offset or the number of packets would be 2<sup>64</sup>. Then nothing is counted.
    pub(crate) fn count(&mut self, event: &Event<'_>, size: usize) -> Result<(), Stop>
        ensures counted { OnOk result (Counts (meaning_of event.now) size self.old self.new) }
        ensures failed { IfErr result (λ stop. stop ≡ Reader) }
        ensures full { IsErr result → (2 ^ 64 ≤ self.old.at + size)
            ⊎ (2 ^ 64 ≤ packets_to self.old.packets (meaning_of event.now)) }
        ensures kept { IsErr result → self.new ≡ self.old }
    {
        let Some(at) = self.at.checked_add(size as u64) else {
            return Err(Stop::Reader);
        };
        let Some(packets) = self.packets.checked_add(packets_in(event)) else {
            return Err(Stop::Reader);
        };
        self.at = at;
        self.packets = packets;
        Ok(())
    }
}

/// Returns the number of packets in a unit: 0 or 1.
fn packets_in(event: &Event<'_>) -> u64
    ensures { result ≡ packets_to 0 (meaning_of event.now) }
{
    match event {
        Event::Packet(_) => 1,
        _ => 0,
    }
}
