//! The lengths of payloads.

ghost use Rattle.std.specs.Prelude.{◌≡◌, ◌<◌};
ghost use Rattle.link_base.specs.Class.{Class, Many, extent, size_of, length_cause};
ghost use Rattle.link_base.specs.Table.{One, ShapeGives};
ghost use Rattle.link_base.specs.Checked.{Checks};

use crate::wire::fault::{Cause, DecodeFault};

/// The lengths of payloads that a class accepts, in bytes.
#[derive(Clone, Copy, Debug, PartialEq, Eq)]
pub enum Lengths {
    /// Exactly this many. Any other length is a `WrongLength`.
    Exactly(usize),
    /// At least this many; fewer are `TooShort`. Structs ignore the additional bytes.
    AtLeast(usize),
    /// Exactly this many. Fewer are `TooShort`, and more a `WrongLength`.
    Fixed(usize),
    /// At most this many; more are a `WrongLength`. No struct has these.
    AtMost(usize),
}

impl Lengths {
    ghost use Rattle.link_base.specs.Forms.{extent_of};

    /// Returns the number of bytes that a struct keeps of a payload.
    #[inline(always)]
    pub fn kept(self) -> usize
        ensures { result ≡ size_of (extent_of self) }
    {
        match self {
            Lengths::Exactly(size) => size,
            Lengths::AtLeast(size) => size,
            Lengths::Fixed(size) => size,
            Lengths::AtMost(_) => 0,
        }
    }

    /// Returns the reason why a payload of `got` bytes is rejected; `None` if it is accepted.
    #[inline]
    pub fn cause(self, got: usize) -> Option<Cause>
        ensures { result ≡ length_cause (extent_of self) got }
    {
        match self {
            Lengths::Exactly(want) => {
                if got == want {
                    None
                } else {
                    Some(Cause::WrongLength { want, got })
                }
            }
            Lengths::AtLeast(want) => {
                if got < want {
                    Some(Cause::TooShort { want, got })
                } else {
                    None
                }
            }
            Lengths::Fixed(want) => {
                if got < want {
                    Some(Cause::TooShort { want, got })
                } else if want < got {
                    Some(Cause::WrongLength { want, got })
                } else {
                    None
                }
            }
            Lengths::AtMost(want) => {
                if want < got {
                    Some(Cause::WrongLength { want, got })
                } else {
                    None
                }
            }
        }
    }

    /// Checks the length of the payload of an attribute of type `kind`.
    ///
    /// # Errors
    ///
    /// `Value` with the cause, if the length is not accepted.
    #[inline]
    pub fn check(self, kind: u16, payload: &[u8]) -> Result<(), DecodeFault>
        ensures { (c : Class) → extent_of self ≡ extent c → Checks (ShapeGives (One c) kind payload.now) result }
    {
        match self.cause(payload.len()) {
            None => Ok(()),
            Some(cause) => Err(DecodeFault::Value { kind, cause }),
        }
    }
}

/// Checks that the payload of an attribute of type `kind` is an array of numbers of `width` bytes each. `width` must not
/// be 0.
///
/// # Errors
///
/// `Value` with `WrongLength`, if the length of the payload is not a multiple of `width`.
#[inline]
pub(crate) fn check_numbers(kind: u16, payload: &[u8], width: usize) -> Result<(), DecodeFault>
    requires { 0 < width }
    ensures { Checks (ShapeGives (One (Many width)) kind payload.now) result }
{
    let got = payload.len();
    if got % width == 0 {
        Ok(())
    } else {
        let cause = Cause::WrongLength { want: width, got };
        Err(DecodeFault::Value { kind, cause })
    }
}
