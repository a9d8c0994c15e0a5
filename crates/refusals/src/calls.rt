//! The calls, each between two marks. Each function has the contract of the function that it calls, or, for views, a
//! part of it.

ghost use Rattle.std.specs.Prelude.{◌≡◌, ◌≤◌, ◌++◌, ◌-◌, List, [], None, length, drop, map, replicate, string_bytes};
ghost use Rattle.std.specs.Prelude.{IfOk, IfNone, OnErr, IsTrue, MatchResult};
ghost use Rattle.link_vlan_can.specs.CanLimits.{limits_view, limits_with};
ghost use Rattle.netlink_packet_route.specs.AfSpecBridge.{af_spec_bridge_table, af_spec_bridge_means};
ghost use Rattle.netlink_packet_route.specs.Answers.{Answers, ListAnswers, WriteAnswers};
ghost use Rattle.netlink_packet_route.specs.Answers.{OnMemory, OnListMemory, OnRewriteMemory};
ghost use Rattle.netlink_packet_route.specs.Buffer.{kind_field_of, payload_of};
ghost use Rattle.netlink_packet_route.specs.Checked.{ListChecks};
ghost use Rattle.netlink_packet_route.specs.Family.{table_of};
ghost use Rattle.netlink_packet_route.specs.Frame.{Frame, Frames, pad, frame_fault};
ghost use Rattle.netlink_packet_route.specs.Held.{HoldsMemory};
ghost use Rattle.netlink_packet_route.specs.ProtoInfo.{proto_info_table, proto_info_means};
ghost use Rattle.netlink_packet_route.specs.Report.{Reports};
ghost use Rattle.netlink_packet_route.specs.Rewrite.{RewriteAnswers, RewriteStreamingAnswers, RewriteToSliceAnswers};
ghost use Rattle.netlink_packet_route.specs.Rewrite.{UnlessWritten};
ghost use Rattle.netlink_packet_route.specs.Rewritten.{NeedsMemory};
ghost use Rattle.netlink_packet_route.specs.Table.{Decodes, Gives, TakesMemory};
ghost use Rattle.netlink_packet_route.specs.Viewed.{bytes_in, seen, last_of};
ghost use Rattle.netlink_packet_route.specs.Wire.{FirstFault};
ghost use Rattle.netlink_packet_route.specs.FrameOffsets.{Finds};
ghost use Rattle.netlink_packet_route.specs.FrameTableParts.{walked_bytes, offsets_of, fault_of};

use netlink_packet_route::link::{
    Attribute, CanBitTiming, CanBitTimingConst, DecodeError, FrameTable, ListError, ListFault,
    NlaBuffer, TryClone, VecAfSpecBridge, VecLinkProtoInfoBridge, WriteError,
};
use netlink_packet_route::views::{Content, Value, View};
use netlink_packet_route::{Family, FamilySet, RewriteError, link, view_elements};
use std::alloc::{AllocError, Global};

/// The size in bytes of a block that nothing else allocates. By it, the `malloc` that the program runs under recognizes
/// where a call begins and ends.
const MARK: usize = 7_654_321;

/// Returns the result of `call`, made between two allocations of a block of `MARK` bytes.
fn marked<A, C: FnOnce() -> A>(alloc: Global, call: C) -> A
    requires { C.IsAlwaysCallable call }
    ensures { C.post call result }
{
    mark(alloc);
    let answer = call();
    mark(alloc);
    answer
}

/// Allocates the block, and frees it.
#[inline(never)]
fn mark(alloc: Global) {
    let _block: Result<Vec<u8>, AllocError> = Vec::with_capacity(alloc, MARK);
}

/// Calls `read_list`, which parses a list.
pub(crate) fn read_list<F: Attribute>(alloc: Global, bytes: &[u8]) -> Result<Vec<F>, ListError>
    ensures answer { ListAnswers (λ vs. map F.means vs.items) result (Gives F.table) bytes.now }
    ensures memory { OnListMemory result (frame_fault bytes.now ≡ None) }
{
    marked(alloc, || link::read_list(alloc, bytes))
}

/// Calls `parse`, which parses an attribute.
pub(crate) fn parse<F: Attribute>(alloc: Global, frame: &NlaBuffer<'_>) -> Result<F, DecodeError>
    ensures answer { Answers F.means result (Gives F.table (kind_field_of frame.now) (payload_of frame.now)) }
    ensures memory { OnMemory result (TakesMemory F.table (kind_field_of frame.now)) }
{
    marked(alloc, || F::parse(alloc, frame))
}

/// Calls `try_clone`, which returns an equal value.
pub(crate) fn try_clone<F: TryClone>(alloc: Global, value: &F) -> Result<F, AllocError>
    ensures copy { IfOk result (λ copy. F.means copy ≡ F.means value.now) }
    ensures equal { IfOk result (λ copy. IsTrue (F.PartialEq.eq copy value.now)) }
    ensures memory { OnErr result (HoldsMemory F.table (F.means value.now)) }
{
    marked(alloc, || value.try_clone(alloc))
}

/// Calls `write_list`, which serializes values, or reports the first one that does not fit.
pub(crate) fn write_list<F: Attribute>(alloc: Global, values: &[F]) -> Result<Vec<u8>, WriteError>
    ensures { WriteAnswers (map F.means values.now) result }
{
    marked(alloc, || link::write_list(alloc, values))
}

/// Calls `rewrite`, which re-encodes a list.
pub(crate) fn rewrite(alloc: Global, family: Family, bytes: &[u8]) -> Result<Vec<u8>, RewriteError>
    ensures answer { RewriteAnswers (table_of family) bytes.now result }
    ensures memory { OnRewriteMemory result (frame_fault bytes.now ≡ None) }
{
    marked(
        alloc,
        || netlink_packet_route::rewrite(alloc, family, bytes),
    )
}

/// Calls `rewrite_streaming`, which re-encodes a list into a buffer, one attribute at a time.
pub(crate) fn rewrite_streaming(
    alloc: Global,
    family: Family,
    bytes: &[u8],
    buffer: &mut [u8],
) -> Result<usize, RewriteError>
    requires { pad (length bytes.now) ≤ length buffer.old }
    ensures answer { RewriteStreamingAnswers (table_of family) bytes.now buffer.old buffer.new result }
    ensures behind { drop (pad (length bytes.now)) buffer.new ≡ drop (pad (length bytes.now)) buffer.old }
    ensures memory { OnRewriteMemory result (NeedsMemory (table_of family) bytes.now) }
{
    mark(alloc);
    let answer = netlink_packet_route::rewrite_streaming(alloc, family, bytes, buffer);
    mark(alloc);
    answer
}

/// Calls `rewrite_to_slice`, which re-encodes a list into a buffer, or returns `None` if the buffer is too small.
pub(crate) fn rewrite_to_slice(
    alloc: Global,
    family: Family,
    bytes: &[u8],
    buffer: &mut [u8],
) -> Result<Option<usize>, RewriteError>
    ensures answer { RewriteToSliceAnswers (table_of family) bytes.now buffer.old buffer.new result }
    ensures memory { OnRewriteMemory result (frame_fault bytes.now ≡ None) }
    ensures unchanged { UnlessWritten result (buffer.new ≡ buffer.old) }
{
    mark(alloc);
    let answer = netlink_packet_route::rewrite_to_slice(alloc, family, bytes, buffer);
    mark(alloc);
    answer
}

/// Calls `count_values`, which checks a list and counts its attributes.
pub(crate) fn count_values(alloc: Global, family: Family, bytes: &[u8]) -> Result<usize, ListFault>
    ensures answer { ListChecks (Gives (table_of family)) bytes.now result }
    ensures bounded { IfOk result (λ n. n ≤ length bytes.now) }
{
    marked(alloc, || netlink_packet_route::count_values(family, bytes))
}

/// Calls `view_list`, which checks a list and returns a view of its attributes, and walks the view. Returns what
/// `walked` returns.
pub(crate) fn view_list<'a>(
    alloc: Global,
    family: Family,
    bytes: &'a [u8],
) -> Result<(usize, u64, Option<Content<'a>>), ListFault>
    ensures { MatchResult result
        (λ walked. (xs : List Frame) → Frames bytes.now xs → walked.0 ≡ length xs)
        (λ e. FirstFault (Gives (table_of family)) bytes.now e.at e.fault) }
{
    mark(alloc);
    let answer = match netlink_packet_route::view_list(family, bytes) {
        Ok(view) => Ok(walked(&view)),
        Err(fault) => Err(fault),
    };
    mark(alloc);
    answer
}

/// Walks a view, and the views of its nested lists. Returns the number of attributes, the sum of all types with those
/// of elements, and the content that was read last.
fn walked<'a>(view: &View<'a, FamilySet>) -> (usize, u64, Option<Content<'a>>)
    ensures { (xs : List Frame) → Frames (bytes_in view.now) xs → result.0 ≡ length xs }
{
    let mut types = 0u64;
    let mut last = None;
    for value in *view {
        types = types.wrapping_add(u64::from(value.kind()));
        last = Some(value.content());
        if let Some(elements) = view_elements(&value) {
            for element in elements {
                types = types.wrapping_add(u64::from(element.kind()));
                last = Some(element.content());
            }
        }
    }
    (view.len(), types, last)
}

/// Calls `view_list`, and then `find`, which returns the last attribute of a type.
pub(crate) fn find<'a>(
    alloc: Global,
    family: Family,
    bytes: &'a [u8],
    kind: u16,
) -> Result<Option<Value<'a, FamilySet>>, ListFault>
    ensures { MatchResult result
        (λ found. (xs : List Frame) → Frames bytes.now xs → seen found ≡ last_of kind xs)
        (λ e. FirstFault (Gives (table_of family)) bytes.now e.at e.fault) }
{
    mark(alloc);
    let answer = match netlink_packet_route::view_list(family, bytes) {
        Ok(view) => Ok(view.find(kind)),
        Err(fault) => Err(fault),
    };
    mark(alloc);
    answer
}

/// Calls `view_list`, and looks up what is known of each attribute. Returns the number of labels, of names, of numbers,
/// and of bit timings.
pub(crate) fn known(alloc: Global, family: Family, bytes: &[u8]) -> Result<[usize; 4], ListFault>
    ensures { MatchResult result
        (λ known. Decodes (table_of family) bytes.now)
        (λ e. FirstFault (Gives (table_of family)) bytes.now e.at e.fault) }
{
    mark(alloc);
    let answer = match netlink_packet_route::view_list(family, bytes) {
        Ok(view) => Ok(counted(view)),
        Err(fault) => Err(fault),
    };
    mark(alloc);
    answer
}

fn counted(view: View<'_, FamilySet>) -> [usize; 4] {
    let [mut labels, mut names, mut numbers, mut timings] = [0usize; 4];
    for value in view {
        if let Some(label) = value.label() {
            labels = labels.wrapping_add(1);
            names = names.wrapping_add(usize::from(label.name_of(1).is_some()));
        }
        let is_number = value.as_u8().is_some()
            || value.as_u16().is_some()
            || value.as_u32().is_some()
            || value.as_u64().is_some();
        numbers = numbers.wrapping_add(usize::from(is_number));
        let timing: Option<CanBitTiming> = value.as_struct();
        timings = timings.wrapping_add(usize::from(timing.is_some()));
    }
    [labels, names, numbers, timings]
}

/// Calls `view_all`, which returns every attribute of a list, with its value or its error. Returns the type or the
/// error of the first one, and of the others the sum of the types and the last error.
pub(crate) fn view_all(
    alloc: Global,
    family: Family,
    bytes: &[u8],
) -> (Option<Result<u16, ListFault>>, u64, Option<ListFault>)
    ensures { IfNone result.0 (bytes.now ≡ []) }
{
    mark(alloc);
    let mut all = netlink_packet_route::view_all(family, bytes);
    let first = match all.next() {
        Some(Ok(value)) => Some(Ok(value.kind())),
        Some(Err(fault)) => Some(Err(fault)),
        None => None,
    };
    let mut types = 0u64;
    let mut last = None;
    for item in all {
        match item {
            Ok(value) => types = types.wrapping_add(u64::from(value.kind())),
            Err(fault) => last = Some(fault),
        }
    }
    mark(alloc);
    (first, types, last)
}

/// Calls `report`, which returns the output of `nlroute` for an input, and its status.
pub(crate) fn report(alloc: Global, family: Family, text: &[u8]) -> Result<(String, u8), AllocError>
    ensures { IfOk result (λ report. Reports (table_of family) text.now (string_bytes report.0) report.1) }
{
    marked(alloc, || netlink_packet_route::report(alloc, family, text))
}

/// Calls `FrameTable::walk`, which finds the frames in `bytes`.
pub(crate) fn walk(alloc: Global, bytes: &[u8]) -> Result<FrameTable<'_>, AllocError>
    ensures bytes { IfOk result (λ t. walked_bytes t ≡ bytes.now) }
    ensures finds { IfOk result (λ t. Finds bytes.now (offsets_of t) (fault_of t)) }
    ensures memory { OnErr result (frame_fault bytes.now ≡ None) }
{
    marked(alloc, || FrameTable::walk(alloc, bytes))
}

/// Calls `VecAfSpecBridge::parse`, which parses the list in an `IFLA_AF_SPEC`.
pub(crate) fn parse_af_spec(alloc: Global, bytes: &[u8]) -> Result<VecAfSpecBridge, ListError>
    ensures answer { ListAnswers (λ list. map af_spec_bridge_means list.0.items) result (Gives af_spec_bridge_table) bytes.now }
    ensures memory { OnListMemory result (frame_fault bytes.now ≡ None) }
{
    marked(alloc, || VecAfSpecBridge::parse(alloc, bytes))
}

/// Calls `VecLinkProtoInfoBridge::parse`, which parses the list in an `IFLA_PROTINFO`.
pub(crate) fn parse_proto_info(
    alloc: Global,
    bytes: &[u8],
) -> Result<VecLinkProtoInfoBridge, ListError>
    ensures answer { ListAnswers (λ list. map proto_info_means list.0.items) result (Gives proto_info_table) bytes.now }
    ensures memory { OnListMemory result (frame_fault bytes.now ≡ None) }
{
    marked(alloc, || VecLinkProtoInfoBridge::parse(alloc, bytes))
}

/// Calls `expand_buffer_if_small`, which pads `got` with zeros to `size` bytes if it is shorter.
pub(crate) fn expand(alloc: Global, got: &[u8], size: usize) -> Result<Vec<u8>, AllocError>
    ensures { IfOk result (λ bytes. bytes.items ≡ got.now ++ replicate (size - length got.now) 0) }
{
    marked(alloc, || link::expand_buffer_if_small(alloc, got, size))
}

/// Calls `CanBitTimingConst::new`, which returns the limits of a CAN controller with this name.
pub(crate) fn limits(alloc: Global, name: &str) -> Result<CanBitTimingConst, AllocError>
    ensures { IfOk result (λ limits. limits_view limits ≡ limits_with name.now) }
{
    marked(alloc, || CanBitTimingConst::new(alloc, name))
}

/// Calls `CanBitTimingConst::empty`, which returns the limits of a CAN controller without a name.
pub(crate) fn no_limits(alloc: Global) -> CanBitTimingConst
    ensures { limits_view result ≡ limits_with [] }
{
    marked(alloc, || CanBitTimingConst::empty(alloc))
}
