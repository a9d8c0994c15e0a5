//! What is written of lists and messages.

/// What is written of lists and messages, besides the lines of their attributes, and instead of them.
#[derive(Clone, Copy, Debug, Default, PartialEq, Eq)]
pub struct LineOptions {
    /// Below each list, a line says whether it is canonical, except for the message's own list: the attributes of a link or a
    /// reply. The lists that its attributes hold have the line.
    pub check: bool,
    /// Of the attributes of a message about a link, and of a peer in it (`VETH_INFO_PEER`), only these have lines:
    /// `IFLA_ADDRESS`, `IFLA_MTU`, `IFLA_LINK`, `IFLA_MASTER`, `IFLA_OPERSTATE`, `IFLA_LINKINFO`, and, in AF_BRIDGE messages,
    /// `IFLA_PROTINFO` and `IFLA_AF_SPEC` (`include/uapi/linux/if_link.h`). A malformed attribute has its line in any case.
    pub brief: bool,
}
