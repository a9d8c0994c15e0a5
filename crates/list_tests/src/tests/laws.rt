//! Calls each theorem and each worked example: the theorems about attributes for each attribute set, for a nested one and
//! for `DefaultNla`, the others for at least one type.

use link_base::lists::examples;
use link_base::names::{flag_laws, named_laws};
use link_base::views::view_laws;
use netlink_packet_route::link::{
    Attribute, BondMode, BridgeMulticastRouterType, DefaultNla, LacpState, VlanFlags,
    VlanQosMapping, laws,
};
use netlink_packet_route::{Family, families, link, view_all, view_list};

#[test]
fn laws_of_tables() {
    laws::lawful();
    laws::one_reading();
    laws::one_cut();
    laws::limit();
    laws::editions();
    laws::items();
    laws::one_form();
    laws::fault_equality();
    laws::error_equality();
    laws::frame_equality();
    laws::label_equality();
    laws::layout_equality();
}

#[test]
fn laws_of_views() {
    if let Ok(view) = view_list(Family::Dsa, &[]) {
        view_laws::decodes(&view);
        view_laws::walk(&view);
    }
    view_laws::first_other();
    view_laws::walk_all(&view_all(Family::Dsa, &[]));
}

#[test]
fn worked_examples() {
    examples::values();
    examples::faults();
    examples::cut_names();
}

#[test]
fn laws_of_attribute_sets() {
    netlink_packet_route::laws::equality();
    netlink_packet_route::laws::second_rewriting();
    link_bridge::laws::profiles();
    link_vlan_can::laws::profiles();
}

/// Calls the theorems for each attribute set.
macro_rules! laws_of_each {
    ($($variant:ident $name:tt $attributes:ident $number:tt $holders:tt)*) => {
        $(laws_of::<link::$attributes>();)*
    };
}

#[test]
fn laws_of_attributes() {
    laws_of::<DefaultNla>();
    laws_of::<VlanQosMapping>();
    families!([laws_of_each]);
}

/// Calls each theorem about attributes, for one type.
fn laws_of<F: Attribute>() {
    laws::reads_back::<F>();
    laws::read_values::<F>();
    laws::other_kept::<F>();
    laws::joined::<F>();
    laws::plain_back::<F>();
    laws::plain_bytes::<F>();
    laws::plain_uncut::<F>();
    laws::rewriting::<F>();
    laws::one_rewriting::<F>();
    laws::second_equal::<F>();
    laws::canonical_reads::<F>();
    laws::canonical_once::<F>();
    laws::equality::<F>();
}

#[test]
fn laws_of_named_numbers() {
    named_laws::equality::<BondMode>();
    named_laws::number_back::<BondMode>();
    named_laws::value_back::<BondMode>();
    named_laws::different::<BondMode>();
    named_laws::text_back::<BondMode>();
    named_laws::one_text::<BondMode>();
    named_laws::text_back::<BridgeMulticastRouterType>();
    named_laws::one_text::<BridgeMulticastRouterType>();
    named_laws::vlan_protocol();
}

#[test]
fn laws_of_flags() {
    flag_laws::equality::<LacpState>();
    flag_laws::hashing::<VlanFlags>();
    flag_laws::every_bit_known::<VlanFlags>();
    flag_laws::bit_by_bit();
    link_bond::laws::lacp_state_bits();
    link_bridge::laws::boolean_option_bits();
    link_bridge::laws::default_options();
    link_bridge::laws::vlan_info_flag_bits();
    link_vlan_can::laws::vlan_flag_bits();
    link_vlan_can::laws::can_mode_bits();
}

#[test]
fn laws_of_bridges() {
    link_bridge::laws::bridge_id_back();
    link_bridge::laws::auto_router();
    link_bridge::laws::payload_lengths();
    link_bridge::laws::vlan_info_back();
    link_bridge::laws::equality_of_values();
    link_bridge::laws::equality_of_lists();
}

#[test]
fn laws_of_tunnels() {
    link_tunnels::laws::network_byte_order();
    link_tunnels::laws::equality_of_values();
}
