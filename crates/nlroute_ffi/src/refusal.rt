//! The error codes.

ghost use Rattle.std.specs.Prelude.{◌≡◌, ◌≢◌, ◌<◌, ◌^◌, Err, IfOk, MatchOption};
ghost use Rattle.std.specs.Result.{ForOk};
ghost use Rattle.nlroute_ffi.specs.Numbers.{code_of};
ghost use Rattle.nlroute_ffi.specs.Calls.{refusal_of};
ghost use Rattle.nlroute_ffi.specs.Lookup.{refusal_words, CodeTextAnswers};
ghost use Rattle.nlroute_ffi.specs.Writing.{refusal_for};

use crate::buffers::store;
use link_entries::Misfit;
use netlink_packet_route::RewriteError;

/// Why a function returns no length and no count, with its error code.
#[derive(Clone, Copy)]
pub enum Refusal {
    /// The input is not a valid list of the attribute set.
    Fault = -1,
    /// A value does not fit in an attribute.
    TooLong = -2,
    /// An allocation failed.
    Memory = -3,
    /// The output buffer is too small.
    NoRoom = -4,
    /// The number is not that of a `Family`.
    NoFamily = -5,
    /// The list does not have what was looked up.
    Absent = -6,
    /// The value has another form.
    BadForm = -7,
    /// A number that its attribute cannot hold.
    BadNumber = -8,
    /// An element that does not follow a list of its attribute type.
    BadElement = -9,
    /// The octets of the value are not within those that were passed, or not as many as its form has.
    BadOctets = -10,
    /// The head is not that of a request about links.
    BadType = -11,
    /// The request changes or deletes a link, and its index is 0 or negative.
    NoIndex = -12,
    /// A name or a kind that Linux rejects or cuts.
    BadName = -13,
    /// Values follow a list that no attribute set reads.
    NoSet = -14,
    /// The depth of a value is not that of its list, or it is not marked as an attribute of the message.
    BadDepth = -15,
    /// A second list of a type of which a message has one.
    Repeated = -16,
}

/// Returns the `Refusal` for an error of re-encoding a list.
pub(crate) fn refused_by(error: RewriteError) -> Refusal
    ensures { result ≡ refusal_of error }
{
    match error {
        RewriteError::Fault { .. } => Refusal::Fault,
        RewriteError::TooLong { .. } => Refusal::TooLong,
        RewriteError::Memory(_) => Refusal::Memory,
    }
}

/// Returns the `Refusal` for an entry that cannot be written.
pub(crate) fn refused_for(misfit: Misfit) -> Refusal
    ensures { result ≡ refusal_for misfit }
{
    match misfit {
        Misfit::TooLong => Refusal::TooLong,
        Misfit::BadForm => Refusal::BadForm,
        Misfit::BadNumber => Refusal::BadNumber,
        Misfit::BadElement => Refusal::BadElement,
        Misfit::BadOctets => Refusal::BadOctets,
        Misfit::BadDepth => Refusal::BadDepth,
        Misfit::Repeated => Refusal::Repeated,
        Misfit::BadName => Refusal::BadName,
        Misfit::NoSet => Refusal::NoSet,
    }
}

/// Returns the result for the C caller: a length or a count, or a negative error code.
pub(crate) fn answer_of(outcome: Result<usize, Refusal>) -> isize
    requires { ForOk outcome (λ n. n < 2 ^ 63) }
    ensures { result ≡ code_of outcome }
{
    match outcome {
        Ok(count) => count as isize,
        Err(refusal) => refusal as isize,
    }
}

/// Returns the `Refusal` with this error code; `None` if there is none.
fn refusal_with(code: isize) -> Option<Refusal>
    ensures { MatchOption result ((refusal : Refusal) → code ≢ code_of (Err refusal))
        (λ refusal. code ≡ code_of (Err refusal)) }
{
    match code {
        -1 => Some(Refusal::Fault),
        -2 => Some(Refusal::TooLong),
        -3 => Some(Refusal::Memory),
        -4 => Some(Refusal::NoRoom),
        -5 => Some(Refusal::NoFamily),
        -6 => Some(Refusal::Absent),
        -7 => Some(Refusal::BadForm),
        -8 => Some(Refusal::BadNumber),
        -9 => Some(Refusal::BadElement),
        -10 => Some(Refusal::BadOctets),
        -11 => Some(Refusal::BadType),
        -12 => Some(Refusal::NoIndex),
        -13 => Some(Refusal::BadName),
        -14 => Some(Refusal::NoSet),
        -15 => Some(Refusal::BadDepth),
        -16 => Some(Refusal::Repeated),
        _ => None,
    }
}

/// Returns the meaning of an error in words, as `nlroute_refusal_text` of the header.
fn refusal_words(refusal: Refusal) -> &'static str
    ensures { result.now ≡ refusal_words refusal }
{
    match refusal {
        Refusal::Fault => "the list is malformed",
        Refusal::TooLong => "a value does not fit in an attribute",
        Refusal::Memory => "an allocation failed",
        Refusal::NoRoom => "the buffer is too small",
        Refusal::NoFamily => "no attribute set has this number",
        Refusal::Absent => "there is no such attribute, element, field, name or error",
        Refusal::BadForm => "the value has another form",
        Refusal::BadNumber => "the attribute cannot hold the number",
        Refusal::BadElement => "an element does not follow its list",
        Refusal::BadOctets => "the bytes of the value are not in the input, or have a wrong length",
        Refusal::BadType => "the message is not a request about links",
        Refusal::NoIndex => "the index of the link is 0 or negative",
        Refusal::BadName => "Linux does not take the name or kind",
        Refusal::NoSet => "no attribute set reads the list of these values",
        Refusal::BadDepth => "the value has a wrong depth, or is not marked as one of the message",
        Refusal::Repeated => "the message has a second list of this type",
    }
}

/// Stores the meaning of an error code in words. Returns their length.
pub(crate) fn store_code_text(code: isize, buffer: &mut [u8]) -> Result<usize, Refusal>
    ensures answer { CodeTextAnswers code buffer.old buffer.new result }
    ensures bounded { IfOk result (λ n. n < 2 ^ 63) }
{
    let words = match refusal_with(code) {
        Some(refusal) => refusal_words(refusal),
        None if code < 0 => "unknown error",
        None => "no error",
    };
    Ok(store(words.as_bytes(), buffer))
}
