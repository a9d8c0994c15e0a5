//! The attribute sets: [`Family`], and the list of them, `families!`, with the name, the enum of attributes, the number
//! in C and the holders of each.

ghost use Rattle.std.specs.Prelude.{◌≡◌, ◌≢◌, IfSome, IfNone, map};

/// A set of link attributes: it determines which attribute types are known and how their payloads are parsed.
#[derive(Clone, Copy, Debug, PartialEq, Eq)]
pub enum Family {
    /// `af_spec_bridge`: attributes of `IFLA_AF_SPEC` in AF_BRIDGE messages,
    /// [`AfSpecBridge`](crate::link::AfSpecBridge).
    AfSpecBridge,
    /// `bond`: attributes of bonds, [`InfoBond`](crate::link::InfoBond).
    Bond,
    /// `bond_port`: attributes of bond ports, [`InfoBondPort`](crate::link::InfoBondPort).
    BondPort,
    /// `bridge`: attributes of bridges, [`InfoBridge`](crate::link::InfoBridge).
    Bridge,
    /// `bridge_port`: attributes of bridge ports, [`InfoBridgePort`](crate::link::InfoBridgePort).
    BridgePort,
    /// `vlan`: attributes of VLAN devices, [`InfoVlan`](crate::link::InfoVlan).
    Vlan,
    /// `can`: attributes of CAN controllers, [`InfoCan`](crate::link::InfoCan).
    Can,
    /// `dsa`: attributes of DSA ports, [`InfoDsa`](crate::link::InfoDsa).
    Dsa,
    /// `hsr`: attributes of HSR and PRP devices, [`InfoHsr`](crate::link::InfoHsr).
    Hsr,
    /// `proto_bridge`: attributes of `IFLA_PROTINFO` in AF_BRIDGE messages,
    /// [`LinkProtoInfoBridge`](crate::link::LinkProtoInfoBridge): attribute type 45 only.
    ProtoBridge,
    /// `vxlan`: attributes of VXLAN devices, [`InfoVxlan`](crate::link::InfoVxlan).
    Vxlan,
    /// `link`: attributes of messages about links, [`LinkAttribute`](crate::link::LinkAttribute).
    Link,
    /// `af_spec`: attributes of `IFLA_AF_SPEC` in other messages than those of AF_BRIDGE,
    /// [`AfSpecUnspec`](crate::link::AfSpecUnspec).
    AfSpec,
    /// `inet`: attributes of a link for IPv4, [`AfSpecInet`](crate::link::AfSpecInet).
    Inet,
    /// `inet6`: attributes of a link for IPv6, [`AfSpecInet6`](crate::link::AfSpecInet6).
    Inet6,
    /// `mctp`: attributes of a link for MCTP, [`AfSpecMctp`](crate::link::AfSpecMctp).
    Mctp,
    /// `reply`: attributes of replies to requests, [`ReplyAttribute`](crate::link::ReplyAttribute).
    Reply,
    /// `geneve`: attributes of GENEVE devices, [`InfoGeneve`](crate::link::InfoGeneve).
    Geneve,
    /// `vrf`: attributes of VRF devices, [`InfoVrf`](crate::link::InfoVrf).
    Vrf,
    /// `vrf_port`: attributes of VRF ports, [`InfoVrfPort`](crate::link::InfoVrfPort).
    VrfPort,
    /// `tun`: attributes of TUN and TAP devices, [`InfoTun`](crate::link::InfoTun).
    Tun,
    /// `ipvlan`: attributes of IPVLAN and IPVTAP devices, [`InfoIpVlan`](crate::link::InfoIpVlan).
    IpVlan,
    /// `macvlan`: attributes of MACVLAN and MACVTAP devices, [`InfoMacVlan`](crate::link::InfoMacVlan).
    MacVlan,
    /// `netkit`: attributes of NETKIT devices, [`InfoNetkit`](crate::link::InfoNetkit).
    Netkit,
    /// `veth`: attributes of VETH and VXCAN devices, [`InfoVeth`](crate::link::InfoVeth).
    Veth,
}

/// What holds the list of an attribute set (`include/uapi/linux/if_link.h`).
#[derive(Clone, Copy, Debug, PartialEq, Eq)]
pub enum Holder<'a> {
    /// `IFLA_INFO_DATA`, next to an `IFLA_INFO_KIND` with this text, which may end with a NUL.
    InfoKind(&'a [u8]),
    /// `IFLA_INFO_SLAVE_DATA`, next to an `IFLA_INFO_SLAVE_KIND` with this text, which may end with a NUL.
    PortKind(&'a [u8]),
    /// The attribute of this type, in an AF_BRIDGE message.
    BridgeAttribute(u16),
    /// The attribute of this type, with `NLA_F_NESTED`, in an AF_BRIDGE message.
    NestedBridgeAttribute(u16),
    /// The attribute of this type, in an AF_INET6 message.
    Inet6Attribute(u16),
    /// The attribute of this type in a list of this `Family`. If the `Family` is that of messages, only for the address
    /// families that have no holder of their own for this type.
    Within(Family, u16),
    /// A message about a link, after its `struct ifinfomsg`.
    LinkMessage,
    /// A reply to a request, an NLMSG_ERROR or an NLMSG_DONE, which has them with the flag NLM_F_ACK_TLVS
    /// (`include/uapi/linux/netlink.h`).
    ReplyMessage,
}

/// What a bridge says of a port, or IPv6 of a link.
pub(crate) const IFLA_PROTINFO: u16 = 12;

/// Settings by address family, or the VLANs of a bridge or a bridge port.
pub(crate) const IFLA_AF_SPEC: u16 = 26;

const AF_INET: u16 = 2;

const AF_INET6: u16 = 10;

const AF_MCTP: u16 = 45;

const VETH_INFO_PEER: u16 = 1;

const IFLA_NETKIT_PEER_INFO: u16 = 1;

/// The list of attribute sets. `families!([then] more)` calls the macro `then` with `more`, and after it a row of five
/// parts for each attribute set: its variant of `Family`, its name, its enum of attributes in `link`, its number in C,
/// and its holders in brackets.
///
/// All that is known of an attribute set by its `Family` comes from here. `specs/Family.antt` has the same rows, and
/// the contracts compare the two.
#[macro_export]
macro_rules! families {
    ([$($then:tt)*] $($more:tt)*) => {
        $($then)*! {
            $($more)*
            AfSpecBridge  "af_spec_bridge"  AfSpecBridge         0  [BridgeAttribute (IFLA_AF_SPEC)]
            Bond          "bond"            InfoBond             1  [InfoKind (b"bond")]
            BondPort      "bond_port"       InfoBondPort         2  [PortKind (b"bond")]
            Bridge        "bridge"          InfoBridge           3  [InfoKind (b"bridge")]
            BridgePort    "bridge_port"     InfoBridgePort       4  [PortKind (b"bridge"), NestedBridgeAttribute (IFLA_PROTINFO)]
            Vlan          "vlan"            InfoVlan             5  [InfoKind (b"vlan")]
            Can           "can"             InfoCan              6  [InfoKind (b"can")]
            Dsa           "dsa"             InfoDsa              7  [InfoKind (b"dsa")]
            Hsr           "hsr"             InfoHsr              8  [InfoKind (b"hsr")]
            ProtoBridge   "proto_bridge"    LinkProtoInfoBridge  9  [BridgeAttribute (IFLA_PROTINFO)]
            Vxlan         "vxlan"           InfoVxlan            10 [InfoKind (b"vxlan")]
            Link          "link"            LinkAttribute        11 [LinkMessage, Within (Family::Veth, VETH_INFO_PEER), Within (Family::Netkit, IFLA_NETKIT_PEER_INFO)]
            AfSpec        "af_spec"         AfSpecUnspec         12 [Within (Family::Link, IFLA_AF_SPEC)]
            Inet          "inet"            AfSpecInet           13 [Within (Family::AfSpec, AF_INET)]
            Inet6         "inet6"           AfSpecInet6          14 [Within (Family::AfSpec, AF_INET6), Inet6Attribute (IFLA_PROTINFO)]
            Mctp          "mctp"            AfSpecMctp           15 [Within (Family::AfSpec, AF_MCTP)]
            Reply         "reply"           ReplyAttribute       16 [ReplyMessage]
            Geneve        "geneve"          InfoGeneve           17 [InfoKind (b"geneve")]
            Vrf           "vrf"             InfoVrf              18 [InfoKind (b"vrf")]
            VrfPort       "vrf_port"        InfoVrfPort          19 [PortKind (b"vrf")]
            Tun           "tun"             InfoTun              20 [InfoKind (b"tun")]
            IpVlan        "ipvlan"          InfoIpVlan           21 [InfoKind (b"ipvlan"), InfoKind (b"ipvtap")]
            MacVlan       "macvlan"         InfoMacVlan          22 [InfoKind (b"macvlan"), InfoKind (b"macvtap")]
            Netkit        "netkit"          InfoNetkit           23 [InfoKind (b"netkit")]
            Veth          "veth"            InfoVeth             24 [InfoKind (b"veth"), InfoKind (b"vxcan")]
        }
    };
}

/// Calls a function that is generic over an `Attribute`, with the enum of attributes of a `Family`, for example
/// `by_family!(family, read_list(alloc, bytes))`.
#[macro_export]
macro_rules! by_family {
    ($family:expr, $call:ident $arguments:tt) => {
        $crate::families!([$crate::call_by_family] ($family) $call $arguments)
    };
}

/// The match of `by_family!`.
#[macro_export]
macro_rules! call_by_family {
    (($family:expr) $call:ident $arguments:tt
        $($variant:ident $name:tt $attributes:ident $number:tt $holders:tt)*) => {
        match $family {
            $($crate::Family::$variant => $call::<$crate::link::$attributes> $arguments,)*
        }
    };
}

/// A text with the names of the attribute sets in it: `with_names!("before ", " after")` is a literal such as
/// `before bond, bridge or vlan after`.
#[macro_export]
macro_rules! with_names {
    ($before:literal, $after:literal) => {
        $crate::families!([$crate::names_between] $before $after [])
    };
}

/// The text of `with_names!`.
#[macro_export]
macro_rules! names_between {
    ($before:literal $after:literal []
        $variant:ident $name:tt $attributes:ident $number:tt $holders:tt $($rows:tt)*) => {
        $crate::names_between!($before $after [$name] $($rows)*)
    };
    ($before:literal $after:literal [$($names:tt)*]
        $variant:ident $name:tt $attributes:ident $number:tt $holders:tt) => {
        concat!($before, $($names,)* " or ", $name, $after)
    };
    ($before:literal $after:literal [$($names:tt)*]
        $variant:ident $name:tt $attributes:ident $number:tt $holders:tt $($rows:tt)*) => {
        $crate::names_between!($before $after [$($names)* ", " $name] $($rows)*)
    };
}

macro_rules! name_of {
    ($family:ident $($variant:ident $name:tt $attributes:ident $number:tt $holders:tt)*) => {
        match $family {
            $(Family::$variant => $name,)*
        }
    };
}

macro_rules! number_of {
    ($family:ident $($variant:ident $name:tt $attributes:ident $number:tt $holders:tt)*) => {
        match $family {
            $(Family::$variant => $number,)*
        }
    };
}

macro_rules! holders_of {
    ($family:ident
        $($variant:ident $name:tt $attributes:ident $number:tt [$($holder:ident $(($($held:tt)*))?),*])*) => {
        match $family {
            $(Family::$variant => &[$(Holder::$holder $(($($held)*))?),*],)*
        }
    };
}

macro_rules! of_name {
    ($text:ident $($variant:ident $name:tt $attributes:ident $number:tt $holders:tt)*) => {
        match $text {
            $($name => Some(Family::$variant),)*
            _ => None,
        }
    };
}

macro_rules! of_number {
    ($n:ident $($variant:ident $name:tt $attributes:ident $number:tt $holders:tt)*) => {
        match $n {
            $($number => Some(Family::$variant),)*
            _ => None,
        }
    };
}

/// The first attribute set with the holder `$of $key`.
macro_rules! of_holder {
    ($of:ident $key:tt
        $($variant:ident $name:tt $attributes:ident $number:tt [$($holder:ident $(($($held:tt)*))?),*])*) => {{
        $($(if_holder!($variant $of $key $holder ($($($held)*)?));)*)*
        None
    }};
}

/// Returns an attribute set if a holder, in two parts, is this one of it. No code compares holders of different kinds.
macro_rules! if_holder {
    ($set:ident InfoKind ($kind:ident) InfoKind ($text:tt)) => {
        if $kind == $text.as_slice() { return Some(Family::$set); }
    };
    ($set:ident PortKind ($kind:ident) PortKind ($text:tt)) => {
        if $kind == $text.as_slice() { return Some(Family::$set); }
    };
    ($set:ident BridgeAttribute ($kind:ident) BridgeAttribute ($other:tt)) => {
        if $kind == $other { return Some(Family::$set); }
    };
    ($set:ident NestedBridgeAttribute ($kind:ident) NestedBridgeAttribute ($other:tt)) => {
        if $kind == $other { return Some(Family::$set); }
    };
    ($set:ident Inet6Attribute ($kind:ident) Inet6Attribute ($other:tt)) => {
        if $kind == $other { return Some(Family::$set); }
    };
    ($set:ident Within ($within:ident, $kind:ident) Within (Family::$family:ident, $other:tt)) => {
        if $within == Family::$family && $kind == $other { return Some(Family::$set); }
    };
    ($set:ident LinkMessage () LinkMessage ()) => { return Some(Family::$set); };
    ($set:ident ReplyMessage () ReplyMessage ()) => { return Some(Family::$set); };
    ($($other:tt)*) => {};
}

impl Family {
    ghost use Rattle.netlink_packet_route.specs.Family.{family_name, family_number};
    ghost use Rattle.netlink_packet_route.specs.Family.{InfoKind, PortKind, BridgeAttribute};
    ghost use Rattle.netlink_packet_route.specs.Family.{holders_of, holding_of, IsReadBy};

    /// Returns the `Family` with this name, or `None` if there is no such name. The comparison is case-sensitive.
    pub fn from_name(name: &str) -> Option<Self>
        ensures found { IfSome result (λ family. name.now ≡ family_name family) }
        ensures none { IfNone result ((family : Family) → name.now ≢ family_name family) }
        ensures only { IfSome result (λ family. (other : Family) → name.now ≡ family_name other → other ≡ family) }
    {
        families!([of_name] name)
    }

    /// Returns the name that `from_name` accepts for this `Family`.
    pub fn name(self) -> &'static str
        ensures { result.now ≡ family_name self }
    {
        families!([name_of] self)
    }

    /// Returns the `Family` with this number in C, or `None` if there is none.
    #[inline]
    pub fn from_number(number: u32) -> Option<Self>
        ensures found { IfSome result (λ family. number ≡ family_number family) }
        ensures none { IfNone result ((family : Family) → number ≢ family_number family) }
        ensures only { IfSome result (λ family. (other : Family) → number ≡ family_number other → other ≡ family) }
    {
        families!([of_number] number)
    }

    /// Returns the number of this `Family` in C, as `nlroute.h` has it. Numbers start at 0, in the order of the
    /// variants.
    pub fn number(self) -> u32
        ensures { result ≡ family_number self }
    {
        families!([number_of] self)
    }

    /// Returns what holds the lists of this `Family`. No two families have the same holder.
    pub fn holders(self) -> &'static [Holder<'static>]
        ensures { map holding_of result.now ≡ holders_of self }
    {
        families!([holders_of] self)
    }

    /// Returns the `Family` with this holder, or `None` if there is none.
    pub fn from_holder(holder: Holder<'_>) -> Option<Self>
        ensures { IsReadBy (holding_of holder.entry) result }
    {
        match holder {
            Holder::InfoKind(kind) => Self::from_info_kind(kind),
            Holder::PortKind(kind) => Self::from_port_kind(kind),
            Holder::BridgeAttribute(kind) => Self::from_bridge_attribute(kind),
            Holder::NestedBridgeAttribute(kind) =>
                families!([of_holder] NestedBridgeAttribute (kind)),
            Holder::Inet6Attribute(kind) => families!([of_holder] Inet6Attribute (kind)),
            Holder::Within(set, kind) => families!([of_holder] Within (set, kind)),
            Holder::LinkMessage => families!([of_holder] LinkMessage ()),
            Holder::ReplyMessage => families!([of_holder] ReplyMessage ()),
        }
    }

    /// Returns the `Family` of the data of a link whose `IFLA_INFO_KIND` is `kind`, without a NUL at its end. Returns
    /// `None` if no `Family` has this kind.
    pub fn from_info_kind(kind: &[u8]) -> Option<Self>
        ensures { IsReadBy (InfoKind kind.now) result }
    {
        families!([of_holder] InfoKind (kind))
    }

    /// Returns the `Family` of the data of a port whose `IFLA_INFO_SLAVE_KIND` is `kind`, without a NUL at its end.
    /// Returns `None` if no `Family` has this kind.
    pub fn from_port_kind(kind: &[u8]) -> Option<Self>
        ensures { IsReadBy (PortKind kind.now) result }
    {
        families!([of_holder] PortKind (kind))
    }

    /// Returns the `Family` of the list in the attribute of type `kind` of an AF_BRIDGE message, or `None` if no
    /// `Family` has this holder.
    pub fn from_bridge_attribute(kind: u16) -> Option<Self>
        ensures { IsReadBy (BridgeAttribute kind) result }
    {
        families!([of_holder] BridgeAttribute (kind))
    }
}
