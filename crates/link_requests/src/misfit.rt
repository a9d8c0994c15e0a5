//! The errors of requests.

use link_entries::MisfitAt;

/// The first error of a request.
#[derive(Clone, Copy, Debug, PartialEq, Eq)]
pub enum RequestError {
    /// `nlmsg_type` is none of the six types that [`Head`](crate::Head) has.
    BadType,
    /// `ifi_index` is not positive, but the request changes or deletes a link.
    NoIndex,
    /// A value cannot be written.
    Value(MisfitAt),
    /// The length does not fit in `nlmsg_len`, a `u32`.
    TooLarge,
}
