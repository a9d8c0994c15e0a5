//! Why entries cannot be written.

/// Why an entry cannot be written.
#[derive(Clone, Copy, Debug, PartialEq, Eq)]
pub enum Misfit {
    /// The payload has more than 65531 bytes.
    TooLong,
    /// The form is not that of the attribute type; or the type has no row, and the form is not that of such types.
    BadForm,
    /// A number that its attribute cannot hold. If the type has no row: flags other than those of `nla_type`, or a type of
    /// more than 14 bits.
    BadNumber,
    /// An element that does not follow a list of its attribute type.
    BadElement,
    /// Octets of a wrong length, or not within those passed in.
    BadOctets,
    /// Of a request only: a depth that is not that of a list which the value follows; a list whose values do not follow; or a
    /// value that is not marked as an attribute of the message, and has to be, or is marked and is none.
    BadDepth,
    /// Of a request only: a second `IFLA_LINKINFO`, `IFLA_AF_SPEC` or `IFLA_PROTINFO`.
    Repeated,
    /// Of a request only: an `IFLA_IFNAME` that Linux rejects; or an `IFLA_INFO_KIND` or `IFLA_INFO_SLAVE_KIND` that is empty,
    /// longer than 55 bytes, or would be cut at a NUL.
    BadName,
    /// Of a request only: values follow a list that no attribute set reads.
    NoSet,
}

/// The first entry that cannot be written.
#[derive(Clone, Copy, Debug, PartialEq, Eq)]
pub struct MisfitAt {
    /// Its index.
    pub index: usize,
    /// Why it cannot be written.
    pub misfit: Misfit,
}
