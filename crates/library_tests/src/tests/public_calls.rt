//! Functions and methods that users rely on, most of them upstream's, with what they take and return. The file does not
//! compile once one of them changes. Nothing calls these functions.

use netlink_packet_route::link::{
    Attribute, BridgeBooleanOptions, BridgeFlag, BridgeId, BridgeIdBuffer, BridgeMode,
    BridgeVlanInfo, BridgeVlanInfoFlags, CanBitTiming, CanBitTimingConst, CanClock, Cause,
    DecodeError, DefaultNla, Emitable, FrameTable, ListError, Nla, NlaBuffer, NlasIterator,
    Parseable, TryClone, VecAfSpecBridge, VecLinkProtoInfoBridge, WriteError, emit_i32, emit_list,
    emit_u16, emit_u16_be, emit_u32, emit_u64, expand_buffer_if_small, laws, list_fits,
    list_is_canonical, list_len, parse_i32, parse_ip, parse_mac, parse_u8, parse_u16, parse_u16_be,
    parse_u32, parse_u64, read_list, write_list,
};
use netlink_packet_route::{Family, RewriteError, is_canonical, report, rewrite};
use std::alloc::{AllocError, Global};
use std::net::IpAddr;

fn is<T>(_value: &T) {}

fn frames<'a>(bytes: &'a [u8]) -> Result<(), DecodeError> {
    let frame: NlaBuffer<'a> = NlaBuffer::new_checked(bytes)?;
    is::<[u16; 3]>(&[frame.length(), frame.kind(), frame.raw_kind()]);
    is::<usize>(&frame.value_length());
    is::<[bool; 2]>(&[frame.nested_flag(), frame.network_byte_order_flag()]);
    is::<&'a [u8]>(&frame.value());
    let mut frames: NlasIterator<'a> = NlasIterator::new(bytes);
    is::<Option<Result<NlaBuffer<'a>, DecodeError>>>(&frames.next());
    Ok(())
}

fn tables<'a>(alloc: Global, bytes: &'a [u8]) -> Result<(), AllocError> {
    let table: FrameTable<'a> = FrameTable::walk(alloc, bytes)?;
    is::<Option<(usize, Cause)>>(&table.fault());
    if table.len() > 0 {
        is::<usize>(&table.offset(0));
        is::<NlaBuffer<'a>>(&table.frame(0));
    }
    Ok(())
}

fn numbers(payload: &[u8]) {
    is::<Result<u8, DecodeError>>(&parse_u8(payload));
    is::<Result<u16, DecodeError>>(&parse_u16(payload));
    is::<Result<u32, DecodeError>>(&parse_u32(payload));
    is::<Result<u64, DecodeError>>(&parse_u64(payload));
    is::<Result<i32, DecodeError>>(&parse_i32(payload));
    is::<Result<u16, DecodeError>>(&parse_u16_be(payload));
    is::<Result<[u8; 6], DecodeError>>(&parse_mac(payload));
    is::<Result<IpAddr, DecodeError>>(&parse_ip(payload));
}

fn written_numbers(buffer: &mut [u8; 8]) {
    emit_u16(&mut buffer[..], 1u16);
    emit_u16_be(&mut buffer[..], 1u16);
    emit_u32(&mut buffer[..], 1u32);
    emit_i32(&mut buffer[..], 1i32);
    emit_u64(&mut buffer[..], 1u64);
}

fn values<T: Nla>(value: &T, buffer: &mut [u8; 8]) {
    is::<u16>(&value.kind());
    if value.fits() && value.buffer_len() == 8 {
        value.emit(&mut buffer[..]);
    }
    if value.fits() && value.value_len() == 4 {
        value.emit_value(&mut buffer[..4]);
    }
}

fn attributes<T: Attribute + TryClone>(alloc: Global, frame: &NlaBuffer<'_>) -> bool {
    let value: Result<T, DecodeError> = T::parse(alloc, frame);
    if let Ok(value) = value {
        is::<Result<T, AllocError>>(&value.try_clone(alloc));
    }
    T::canonical(frame)
}

fn lists<T: Attribute>(alloc: Global, bytes: &[u8]) -> Result<[u8; 8], ListError> {
    is::<bool>(&list_is_canonical::<T>(bytes));
    let values: Vec<T> = read_list(alloc, bytes)?;
    is::<Result<Vec<u8>, WriteError>>(&write_list(alloc, &values));
    let len: usize = list_len(&values);
    let mut buffer = [0; 8];
    if list_fits(&values) && len == 8 {
        emit_list(&values, &mut buffer);
    }
    Ok(buffer)
}

fn any_attribute(alloc: Global) -> DefaultNla {
    DefaultNla::new(1u16, Vec::new(alloc))
}

fn can(alloc: Global) -> Result<(), AllocError> {
    is::<CanBitTiming>(&CanBitTiming::new(1u32));
    is::<CanClock>(&CanClock::new(1u32));
    is::<CanBitTimingConst>(&CanBitTimingConst::empty(alloc));
    let limits: CanBitTimingConst = CanBitTimingConst::new(alloc, "a")?;
    is::<Result<CanBitTimingConst, AllocError>>(&limits.try_clone(alloc));
    is::<Vec<u8>>(&expand_buffer_if_small(alloc, &[], 1usize)?);
    Ok(())
}

fn bridges(payload: &[u8]) -> Result<(), DecodeError> {
    let id: BridgeId = BridgeId::parse(payload)?;
    let buffer: BridgeIdBuffer = BridgeIdBuffer::from(&id);
    is::<BridgeId>(&BridgeId::from(buffer));
    let info: BridgeVlanInfo = BridgeVlanInfo::try_from(payload)?;
    is::<[u8; 4]>(&<[u8; 4]>::from(&info));
    let options: BridgeBooleanOptions = BridgeBooleanOptions::parse(payload)?;
    structs(&id, &mut [0; 8]);
    structs(&options, &mut [0; 8]);
    is::<[usize; 2]>(&[BridgeVlanInfoFlags::LENGTH, BridgeVlanInfo::LENGTH]);
    is::<[usize; 2]>(&[BridgeFlag::LENGTH, BridgeMode::LENGTH]);
    Ok(())
}

fn structs<T: Emitable>(value: &T, buffer: &mut [u8]) {
    if buffer.len() >= value.buffer_len() {
        value.emit(buffer);
    }
}

fn lists_of_bridges(alloc: Global, bytes: &[u8]) -> Result<(), ListError> {
    let _af_spec: VecAfSpecBridge = VecAfSpecBridge::parse(alloc, bytes)?;
    let _protocol: VecLinkProtoInfoBridge = VecLinkProtoInfoBridge::parse(alloc, bytes)?;
    Ok(())
}

fn families(alloc: Global, name: &str, bytes: &[u8]) -> Result<u8, AllocError> {
    let family: Option<Family> = Family::from_name(name);
    let family = family.unwrap_or(Family::Dsa);
    is::<bool>(&is_canonical(family, bytes));
    is::<Result<Vec<u8>, RewriteError>>(&rewrite(alloc, family, bytes));
    let (_text, status): (String, u8) = report(alloc, family, bytes)?;
    Ok(status)
}

fn theorems<T: Attribute>() {
    laws::reads_back::<T>();
    laws::plain_back::<T>();
    laws::joined::<T>();
    laws::second_equal::<T>();
    laws::canonical_once::<T>();
    laws::plain_bytes::<T>();
    link_bridge::laws::profiles();
    link_vlan_can::laws::profiles();
}
