//! The names of the places of arrays in the attributes of a link.

ghost use Rattle.link_common.specs.Places.{link_stats_names, link_stats64_names, ipv4_conf_names, ipv6_conf_names, ipv6_stats_names, icmp6_stats_names};

use link_base::NumberNames;
use link_base::rows::label::Name;

/// The counters of a link, of 32 bits (`struct rtnl_link_stats`, `include/uapi/linux/if_link.h`). Kernels before 4.6
/// have no `rx_nohandler`.
pub struct LinkStats;

/// The places, and their names.
impl NumberNames for LinkStats {
    type Number = u32;

    ghost names = { link_stats_names };

    fn names() -> &'static [Name] {
        link_base::names![
            0 "rx_packets" 1 "tx_packets" 2 "rx_bytes" 3 "tx_bytes" 4 "rx_errors" 5 "tx_errors" 6 "rx_dropped"
            7 "tx_dropped" 8 "multicast" 9 "collisions" 10 "rx_length_errors" 11 "rx_over_errors"
            12 "rx_crc_errors" 13 "rx_frame_errors" 14 "rx_fifo_errors" 15 "rx_missed_errors"
            16 "tx_aborted_errors" 17 "tx_carrier_errors" 18 "tx_fifo_errors" 19 "tx_heartbeat_errors"
            20 "tx_window_errors" 21 "rx_compressed" 22 "tx_compressed" 23 "rx_nohandler"
        ]
    }
}

/// The counters of a link, of 64 bits (`struct rtnl_link_stats64`, `include/uapi/linux/if_link.h`). Kernels before
/// 5.19 have no `rx_otherhost_dropped`.
pub struct LinkStats64;

/// The places, and their names.
impl NumberNames for LinkStats64 {
    type Number = u64;

    ghost names = { link_stats64_names };

    fn names() -> &'static [Name] {
        link_base::names![
            0 "rx_packets" 1 "tx_packets" 2 "rx_bytes" 3 "tx_bytes" 4 "rx_errors" 5 "tx_errors" 6 "rx_dropped"
            7 "tx_dropped" 8 "multicast" 9 "collisions" 10 "rx_length_errors" 11 "rx_over_errors"
            12 "rx_crc_errors" 13 "rx_frame_errors" 14 "rx_fifo_errors" 15 "rx_missed_errors"
            16 "tx_aborted_errors" 17 "tx_carrier_errors" 18 "tx_fifo_errors" 19 "tx_heartbeat_errors"
            20 "tx_window_errors" 21 "rx_compressed" 22 "tx_compressed" 23 "rx_nohandler"
            24 "rx_otherhost_dropped"
        ]
    }
}

/// The settings of a link for IPv4 (`IPV4_DEVCONF_*`, `include/uapi/linux/ip.h`), of which the first is number 1.
/// Names are those of `/proc/sys/net/ipv4/conf`, or the constants'.
pub struct Ipv4Conf;

/// The places, and their names.
impl NumberNames for Ipv4Conf {
    type Number = i32;

    ghost names = { ipv4_conf_names };

    fn names() -> &'static [Name] {
        link_base::names![
            0 "forwarding" 1 "mc_forwarding" 2 "proxy_arp" 3 "accept_redirects" 4 "secure_redirects"
            5 "send_redirects" 6 "shared_media" 7 "rp_filter" 8 "accept_source_route" 9 "bootp_relay"
            10 "log_martians" 11 "tag" 12 "arpfilter" 13 "medium_id" 14 "noxfrm" 15 "nopolicy"
            16 "force_igmp_version" 17 "arp_announce" 18 "arp_ignore" 19 "promote_secondaries" 20 "arp_accept"
            21 "arp_notify" 22 "accept_local" 23 "src_vmark" 24 "proxy_arp_pvlan" 25 "route_localnet"
            26 "igmpv2_unsolicited_report_interval" 27 "igmpv3_unsolicited_report_interval"
            28 "ignore_routes_with_linkdown" 29 "drop_unicast_in_l2_multicast" 30 "drop_gratuitous_arp"
            31 "bc_forwarding" 32 "arp_evict_nocarrier"
        ]
    }
}

/// The settings of a link for IPv6 (`DEVCONF_*`, `include/uapi/linux/ipv6.h`), of which the first is number 0.
pub struct Ipv6Conf;

/// The places, and their names.
impl NumberNames for Ipv6Conf {
    type Number = i32;

    ghost names = { ipv6_conf_names };

    fn names() -> &'static [Name] {
        link_base::names![
            0 "forwarding" 1 "hoplimit" 2 "mtu6" 3 "accept_ra" 4 "accept_redirects" 5 "autoconf"
            6 "dad_transmits" 7 "rtr_solicits" 8 "rtr_solicit_interval" 9 "rtr_solicit_delay" 10 "use_tempaddr"
            11 "temp_valid_lft" 12 "temp_prefered_lft" 13 "regen_max_retry" 14 "max_desync_factor"
            15 "max_addresses" 16 "force_mld_version" 17 "accept_ra_defrtr" 18 "accept_ra_pinfo"
            19 "accept_ra_rtr_pref" 20 "rtr_probe_interval" 21 "accept_ra_rt_info_max_plen" 22 "proxy_ndp"
            23 "optimistic_dad" 24 "accept_source_route" 25 "mc_forwarding" 26 "disable_ipv6" 27 "accept_dad"
            28 "force_tllao" 29 "ndisc_notify" 30 "mldv1_unsolicited_report_interval"
            31 "mldv2_unsolicited_report_interval" 32 "suppress_frag_ndisc" 33 "accept_ra_from_local"
            34 "use_optimistic" 35 "accept_ra_mtu" 36 "stable_secret" 37 "use_oif_addrs_only"
            38 "accept_ra_min_hop_limit" 39 "ignore_routes_with_linkdown" 40 "drop_unicast_in_l2_multicast"
            41 "drop_unsolicited_na" 42 "keep_addr_on_down" 43 "rtr_solicit_max_interval" 44 "seg6_enabled"
            45 "seg6_require_hmac" 46 "enhanced_dad" 47 "addr_gen_mode" 48 "disable_policy"
            49 "accept_ra_rt_info_min_plen" 50 "ndisc_tclass" 51 "rpl_seg_enabled" 52 "ra_defrtr_metric"
            53 "ioam6_enabled" 54 "ioam6_id" 55 "ioam6_id_wide" 56 "ndisc_evict_nocarrier"
            57 "accept_untracked_na" 58 "accept_ra_min_lft" 59 "force_forwarding"
        ]
    }
}

/// The counters of IPv6 packets of a link (`IPSTATS_MIB_*`, `include/uapi/linux/snmp.h`). Number 0 is how many there are.
/// Names are the constants', in lower case. Only these places mean the same in Linux 5.10, 6.1, 6.12 and 6.18: from
/// number 4 on, newer kernels have another order, and counters that older ones lack.
pub struct Ipv6Stats;

/// The places, and their names.
impl NumberNames for Ipv6Stats {
    type Number = u64;

    ghost names = { ipv6_stats_names };

    fn names() -> &'static [Name] {
        link_base::names![0 "num" 1 "inpkts" 2 "inoctets" 3 "indelivers"]
    }
}

/// The counters of ICMPv6 messages of a link (`ICMP6_MIB_*`, `include/uapi/linux/snmp.h`). Number 0 is how many there
/// are. Names are the constants', in lower case. They mean the same in Linux 5.10, 6.1, 6.12 and 6.18; 5.10 has no
/// `ratelimithost`.
pub struct Icmp6Stats;

/// The places, and their names.
impl NumberNames for Icmp6Stats {
    type Number = u64;

    ghost names = { icmp6_stats_names };

    fn names() -> &'static [Name] {
        link_base::names![
            0 "num" 1 "inmsgs" 2 "inerrors" 3 "outmsgs" 4 "outerrors" 5 "csumerrors" 6 "ratelimithost"
        ]
    }
}
