//! What is judged of a picture once all its slice segments are there (7.4.7.1, C.5.2.2).

ghost use Rattle.std.specs.Prelude.{◌≡◌, ◌-◌, ◌/◌, ◌≤◌, None, length, nat_lt, sum};
ghost use Rattle.header_types.specs.SequenceParameterSets.{highest_ordering};
ghost use Rattle.output_order.specs.SpecOutputOrder.{size_of};
ghost use Rattle.picture_headers.specs.Bounds.{IsWithinSize, KeepsFew};
ghost use Rattle.plan_types.specs.Segments.{address_of, begins_at};
ghost use Rattle.spec_picture_plan.specs.Closing.{
  broken_at,
  broken_at_closing,
  broken_from,
  broken_in,
  entry_points_fit,
  is_buffer_full,
  passes_row,
  row_before,
  segment_breaks,
  slice_start,
};

use hv_base::{Fault, FaultKind};
use output_order::{begins_anew, is_full_of_references};
use plan_types::{PicturePlan, SegmentPlan};
use slice_headers::data_size;

/// The first rule that a picture breaks as it is closed: of those on its slice segments, and then that the decoded
/// picture buffer has room for it (`DpbFull`), told at its first slice segment.
pub fn broken_at_closing(picture: &PicturePlan) -> Option<Fault>
    ensures value { result ≡ broken_at_closing picture.now }
    ensures room { KeepsFew picture.now → result ≡ None → IsWithinSize picture.now }
{
    match broken_in(picture) {
        Some(fault) => Some(fault),
        None if is_buffer_full(picture) => Some(Fault {
            kind: FaultKind::DpbFull,
            nal: picture.nal,
            ctu: None,
        }),
        None => None,
    }
}

/// Whether the decoded picture buffer has no room for a picture.
fn is_buffer_full(picture: &PicturePlan) -> bool
    ensures value { result ≡ is_buffer_full picture.now }
    ensures few { size_of (highest_ordering picture.now.sps.order.sub_layer_ordering) ≤ 16 }
{
    let ordering = picture.sps.highest_ordering();
    is_full_of_references(
        begins_anew(picture.kind),
        ordering,
        picture.rps.marks.as_slice(),
    )
}

/// The first rule that the slice segments of a picture break together: with entropy coding sync, a slice or a segment
/// that begins inside a row of coding tree units ends in it (`SliceOrder`), and there is an entry point for each row of
/// a segment but its first, inside the segment's data (`EntryPoints`).
#[tactic(auto, unfolding(spec_picture_plan::specs::Closing::broken_in))]
fn broken_in(picture: &PicturePlan) -> Option<Fault>
    ensures { result ≡ broken_in picture.now }
{
    if !picture
        .pps
        .fields()
        .prediction
        .entropy_coding_sync_enabled_flag
    {
        return None;
    }
    let width = picture.sps.width_in_ctbs();
    let size = picture.sps.size_in_ctbs();
    broken_from(width, size, picture.segments.as_slice())
}

/// The rule that the first of these segments breaks, the first ones of a picture.
fn broken_from(width: u32, size: u32, segments: &[SegmentPlan]) -> Option<Fault>
    requires { 1 ≤ width }
    ensures { result ≡ broken_from width size 0 segments.now }
{
    let mut start = 0;
    for i in 0..segments.len() {
        let segment = &segments[i];
        let end = begins_at(size, &segments[i + 1..]);
        start = slice_start(start, segment);
        if let Some(fault) = segment_breaks(width, start, end, segment) {
            return Some(fault);
        }
    }
    None
}

/// The place in decoding order where the first of these segments begins, or the picture's end.
fn begins_at(size: u32, later: &[SegmentPlan]) -> u32
    ensures { result ≡ begins_at size later.now }
{
    match later {
        [] => size,
        [next, ..] => address_of(next),
    }
}

/// A segment's first coding tree unit.
fn address_of(segment: &SegmentPlan) -> u32
    ensures { result ≡ address_of segment.now }
{
    segment.header.fields().segment.slice_segment_address
}

/// The first coding tree unit of a segment's slice, where the slice before begins at another.
fn slice_start(before: u32, segment: &SegmentPlan) -> u32
    ensures { result ≡ slice_start before segment.now }
{
    if segment.header.fields().segment.dependent_slice_segment_flag {
        before
    } else {
        address_of(segment)
    }
}

/// The rule that a segment breaks which ends before `end`, and whose slice begins at `start`.
fn segment_breaks(width: u32, start: u32, end: u32, segment: &SegmentPlan) -> Option<Fault>
    requires { 1 ≤ width }
    ensures { result ≡ segment_breaks width start end segment.now }
{
    if passes_row(width, address_of(segment), end) || passes_row(width, start, end) {
        Some(broken_at(FaultKind::SliceOrder, segment))
    } else if !entry_points_fit(width, end, segment) {
        Some(broken_at(FaultKind::EntryPoints, segment))
    } else {
        None
    }
}

/// A broken rule at a segment.
fn broken_at(kind: FaultKind, segment: &SegmentPlan) -> Fault
    ensures { Some result ≡ broken_at kind segment.now }
{
    Fault {
        kind,
        nal: segment.header.fields().nal,
        ctu: None,
    }
}

/// Whether coding tree units from one inside a row, and not its first, reach a later row.
fn passes_row(width: u32, first: u32, end: u32) -> bool
    requires { 1 ≤ width }
    ensures { result ≡ passes_row width first end }
{
    first % width != 0 && first / width < end.saturating_sub(1) / width
}

/// Whether there is an entry point for each row of a segment but its first, and all of them are inside its data.
fn entry_points_fit(width: u32, end: u32, segment: &SegmentPlan) -> bool
    requires { 1 ≤ width }
    ensures { result ≡ entry_points_fit width end segment.now }
{
    let header = segment.header.fields();
    let entry_points = header.entry_points.as_slice();
    let payload = segment.payload.as_slice();
    let size = data_size(payload, &segment.removed, header.data_place);
    entry_points.len() == later_rows(width, address_of(segment), end) as usize
        && sum_is_below(entry_points, size)
}

/// How many rows behind its first have coding tree units of a segment.
fn later_rows(width: u32, first: u32, end: u32) -> u32
    requires { 1 ≤ width }
    ensures { result ≡ row_before width end - first / width }
{
    (end.saturating_sub(1) / width).saturating_sub(first / width)
}

/// Whether the sum of these numbers is below a limit.
fn sum_is_below(numbers: &[u64], limit: usize) -> bool
    ensures { result ≡ nat_lt (sum numbers.now) limit }
{
    let mut left = limit as u64;
    for number in numbers {
        if *number >= left {
            return false;
        }
        left -= *number;
    }
    left > 0
}
