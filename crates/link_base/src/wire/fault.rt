//! Errors of parsing and writing.

ghost use Rattle.std.specs.Prelude.{◌≡◌, Some};
ghost use Rattle.link_base.specs.Table.{nested_fault};
ghost use Rattle.link_base.specs.Answers.{under_kind, value_error, list_error, nested_error};
ghost use Rattle.link_base.specs.Answers.{of_reading, of_writing};
ghost use Rattle.link_base.specs.declared.wire.fault.RewriteError.TheVariants as rewrite_errors;
ghost use Rattle.link_base.specs.declared.wire.fault.WriteError.TheVariants as write_errors;
ghost use Rattle.link_base.specs.Texts.{cause_text, value_text, fault_text};

use std::alloc::AllocError;
use std::fmt;
use thiserror::Error;

/// The reason why an attribute or a payload is malformed. Lengths are in bytes.
///
/// A frame is one attribute in a list: a `struct nlattr` (`nla_len`, `nla_type`, `include/uapi/linux/netlink.h`) and
/// its payload.
#[derive(Clone, Copy, Debug, PartialEq, Eq)]
pub enum Cause {
    /// Only `left` bytes are left for an attribute, fewer than the four of a header.
    ShortFrame { left: usize },
    /// `nla_len` is `length`, less than the four bytes of the header.
    SmallLength { length: u16 },
    /// `nla_len` is `length`, but only `left` bytes are left.
    Overrun { length: u16, left: usize },
    /// A payload must have exactly `want` bytes and has `got`. For an array of numbers, `want` is the size of one
    /// number, and `got` must be a multiple of it.
    WrongLength { want: usize, got: usize },
    /// A payload must have at least `want` bytes and has `got`.
    TooShort { want: usize, got: usize },
    /// An IP address must have 4 or 16 bytes and has `got`.
    AddressLength { got: usize },
}

impl fmt::Display for Cause {
    ghost output = { λ c. Some (cause_text c) };

    fn fmt<W: fmt::Write>(&self, f: &mut fmt::Formatter<W>) -> fmt::Result {
        match *self {
            Cause::ShortFrame { left } => write!(f, "short frame {left}"),
            Cause::SmallLength { length } => write!(f, "small length {length}"),
            Cause::Overrun { length, left } => write!(f, "overrun {length} {left}"),
            Cause::WrongLength { want, got } => write!(f, "wrong length {want} {got}"),
            Cause::TooShort { want, got } => write!(f, "too short {want} {got}"),
            Cause::AddressLength { got } => write!(f, "address length {got}"),
        }
    }
}

/// The error of a list of attributes, of one attribute, or of one value. `kind` and `inner` are attribute types,
/// without the two flags of `nla_type`.
#[derive(Clone, Copy, Debug, PartialEq, Eq)]
pub enum DecodeFault {
    /// The header of an attribute in the list itself is malformed.
    Frame(Cause),
    /// The payload of an attribute of type `kind` is malformed.
    Value { kind: u16, cause: Cause },
    /// The header of an element is malformed, in the nested list or the address list of an attribute of type `kind`.
    NestedFrame { kind: u16, cause: Cause },
    /// The payload of an element of type `inner` is malformed, in the nested list of an attribute of type `kind`.
    NestedValue { kind: u16, inner: u16, cause: Cause },
    /// A payload is malformed, and its attribute type is not known: the error of functions that parse one number or
    /// struct.
    Payload(Cause),
    /// The string is not one that the type accepts.
    Text,
}

/// An attribute type, and the reason why the payload is malformed.
#[derive(Clone, Copy)]
struct ValueFault {
    kind: u16,
    cause: Cause,
}

impl fmt::Display for ValueFault {
    ghost output = { λ v. Some (value_text v.kind v.cause) };

    fn fmt<W: fmt::Write>(&self, f: &mut fmt::Formatter<W>) -> fmt::Result {
        let kind = self.kind;
        let cause = self.cause;
        write!(f, "kind {kind}: {cause}")
    }
}

impl fmt::Display for DecodeFault {
    ghost output = { λ fault. Some (fault_text fault) };

    fn fmt<W: fmt::Write>(&self, f: &mut fmt::Formatter<W>) -> fmt::Result {
        match *self {
            DecodeFault::Frame(cause) => write!(f, "{cause}"),
            DecodeFault::Value { kind, cause } => {
                let value = ValueFault { kind, cause };
                write!(f, "{value}")
            }
            DecodeFault::NestedFrame { kind, cause } => write!(f, "kind {kind}: list: {cause}"),
            DecodeFault::NestedValue { kind, inner, cause } => {
                let value = ValueFault { kind: inner, cause };
                write!(f, "kind {kind}: list: {value}")
            }
            DecodeFault::Payload(cause) => write!(f, "{cause}"),
            DecodeFault::Text => write!(f, "unknown text"),
        }
    }
}

/// Why one value could not be read.
#[derive(Debug, Drop, PartialEq, Eq, Error)]
pub enum DecodeError {
    /// An allocation failed.
    #[error("no memory")]
    Memory(#[from(alloc)] AllocError),
    /// The input is malformed.
    #[error("{0}")]
    Fault(DecodeFault),
}

impl DecodeError {
    /// Adds the attribute type to the error of a payload: `Payload` becomes `Value`. Other errors are unchanged.
    pub fn of_kind(self, kind: u16) -> DecodeError
        ensures { result ≡ value_error kind self }
    {
        match self {
            DecodeError::Fault(DecodeFault::Payload(cause)) => {
                DecodeError::Fault(DecodeFault::Value { kind, cause })
            }
            error => error,
        }
    }

    /// Turns the error of an attribute into the error of its list. `at` is the byte offset of the attribute.
    pub fn at(self, at: usize) -> ListError
        ensures { result ≡ list_error at self }
    {
        match self {
            DecodeError::Memory(error) => ListError::Memory(error),
            DecodeError::Fault(fault) => ListError::Fault { at, fault },
        }
    }
}

/// Adds the attribute type to the error of a payload, as `DecodeError::of_kind` does.
#[inline]
pub(crate) fn of_kind<T: Drop>(kind: u16, read: Result<T, DecodeError>) -> Result<T, DecodeError>
    ensures { result ≡ under_kind kind read }
{
    match read {
        Ok(value) => Ok(value),
        Err(error) => Err(error.of_kind(kind)),
    }
}

/// Why a list could not be read.
#[derive(Debug, Drop, PartialEq, Eq, Error)]
pub enum ListError {
    /// An allocation failed.
    #[error("no memory")]
    Memory(#[from(alloc)] AllocError),
    /// The first error in the list, and the byte offset of its attribute.
    #[error("fault at {at}: {fault}")]
    Fault { at: usize, fault: DecodeFault },
}

impl ListError {
    /// Turns the error of a nested list into the error of the attribute of type `kind` that contains it. The offset is
    /// dropped.
    pub fn nested(self, kind: u16) -> DecodeError
        ensures { result ≡ nested_error kind self }
    {
        match self {
            ListError::Memory(error) => DecodeError::Memory(error),
            ListError::Fault { at: _, fault } => DecodeError::Fault(fault.nested(kind)),
        }
    }
}

impl DecodeFault {
    fn nested(self, kind: u16) -> DecodeFault
        ensures { result ≡ nested_fault kind self }
    {
        match self {
            DecodeFault::Frame(cause) => DecodeFault::NestedFrame { kind, cause },
            DecodeFault::Value { kind: inner, cause } => {
                DecodeFault::NestedValue { kind, inner, cause }
            }
            fault => fault,
        }
    }
}

/// The first error of a list, and the byte offset of its attribute: why a list does not decode.
#[derive(Clone, Copy, Debug, PartialEq, Eq)]
pub struct ListFault {
    /// The byte offset of the attribute.
    pub at: usize,
    /// The error.
    pub fault: DecodeFault,
}

impl ListFault {
    /// Turns the error of a nested list into the error of the attribute of type `kind` that contains it. The offset is
    /// dropped.
    pub fn nested(self, kind: u16) -> DecodeFault
        ensures { result ≡ nested_fault kind self.fault }
    {
        self.fault.nested(kind)
    }
}

/// The first value of a list that does not fit: its written payload has more than 65531 bytes. `index` is zero-based.
#[derive(Clone, Copy, Debug, PartialEq, Eq)]
pub struct TooLong {
    pub index: usize,
}

/// Why values could not be written.
#[derive(Debug, Drop, PartialEq, Eq, Error)]
pub enum WriteError {
    /// An allocation failed.
    #[error("no memory")]
    Memory(#[from(alloc)] AllocError),
    /// The zero-based index of the first value whose written payload has more than 65531 bytes.
    #[error("too long at {index}")]
    TooLong { index: usize },
}

impl From<TooLong> for WriteError {
    ghost from_gives = { λ first error. error ≡ write_errors.TooLong first.index };

    fn from(first: TooLong) -> WriteError {
        WriteError::TooLong { index: first.index }
    }
}

/// Why a list could not be re-encoded.
#[derive(Debug, Drop, PartialEq, Eq, Error)]
pub enum RewriteError {
    /// An allocation failed.
    #[error("no memory")]
    Memory(#[from(alloc)] AllocError),
    /// The first decode error, and the byte offset of the attribute that has it.
    #[error("fault at {at}: {fault}")]
    Fault { at: usize, fault: DecodeFault },
    /// The zero-based index of the first value whose encoded payload has more than 65531 bytes.
    #[error("too long at {index}")]
    TooLong { index: usize },
}

impl From<ListError> for RewriteError {
    ghost from_gives = { λ error same. same ≡ of_reading error };

    fn from(error: ListError) -> RewriteError {
        match error {
            ListError::Memory(error) => RewriteError::Memory(error),
            ListError::Fault { at, fault } => RewriteError::Fault { at, fault },
        }
    }
}

impl From<WriteError> for RewriteError {
    ghost from_gives = { λ error same. same ≡ of_writing error };

    fn from(error: WriteError) -> RewriteError {
        match error {
            WriteError::Memory(error) => RewriteError::Memory(error),
            WriteError::TooLong { index } => RewriteError::TooLong { index },
        }
    }
}

impl From<TooLong> for RewriteError {
    ghost from_gives = { λ first error. error ≡ rewrite_errors.TooLong first.index };

    fn from(first: TooLong) -> RewriteError {
        RewriteError::TooLong { index: first.index }
    }
}
