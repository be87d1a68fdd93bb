//! Whether a planned picture is in range.

ghost use Rattle.std.specs.Prelude.{◌≡◌, ◌+◌, ◌-◌, ◌/◌, ◌<◌, All, Decides, IfSome, Some, length, slice_get};
ghost use Rattle.header_types.specs.declared.reference_pictures.RefEntry.{RefEntry};
ghost use Rattle.header_types.specs.SequenceParameterSets.{IsSps, size_in_ctbs, width_in_ctbs};
ghost use Rattle.slice_types.specs.SliceHeaders.{IsSliceHeader};
ghost use Rattle.plan_types.specs.declared.segment_plan.SegmentPlan.{SegmentPlan};
ghost use Rattle.plan_types.specs.Segments.{address_of, begins_at};
ghost use Rattle.spec_picture_plan.specs.Closing.{row_before};
ghost use Rattle.plan_laws.specs.Plans.{AreReferences, IsPlan};
ghost use Rattle.flight_ranges.specs.Segments.{IsInPlace};

use header_types::{Lists, RefEntry, Sps};
use picture_layout::address_of;
use plan_types::{PicturePlan, SegmentPlan};

/// Whether a planned picture is in range: it has some slice segment, the first begins at the first coding tree unit and
/// each later one behind the one before, inside the picture; the slice of each begins at it or at one before it;
/// references are to pictures of the buffer; and with entropy coding sync each has a substream for each row that it has
/// a part of.
pub(crate) fn is_plan(plan: &PicturePlan) -> bool
    ensures { Decides result (IsPlan plan.now) }
{
    let _sps = plan.sps.fields();
    let _pps = plan.pps.fields();
    if begins_at(0, plan.segments.as_slice()) != 0 || plan.segments.len() == 0 {
        return false;
    }
    for place in 0..plan.segments.len() {
        if !is_in_place(plan, place) {
            return false;
        }
    }
    true
}

/// Whether a slice segment of a picture is in range there.
fn is_in_place(plan: &PicturePlan, place: usize) -> bool
    requires { place < length plan.now.segments }
    ensures { (s : SegmentPlan) → slice_get plan.now.segments place ≡ Some s
        → Decides result (IsInPlace plan.now place s) }
{
    let segments = plan.segments.as_slice();
    let segment = &segments[place];
    let behind = begins_at(unit_count(&plan.sps), &segments[place + 1..]);
    is_before(segment, behind)
        && segment.slice <= place
        && refers_inside(&segment.lists, plan.rps.marks.len())
        && (has_rows(segment, plan.sps.width_in_ctbs(), behind)
            || !plan
                .pps
                .fields()
                .prediction
                .entropy_coding_sync_enabled_flag)
}

/// Whether it begins before this place. Its header is in range.
fn is_before(segment: &SegmentPlan, behind: u32) -> bool
    ensures before { Decides result (address_of segment.now < behind) }
    ensures header { IsSliceHeader segment.now.header }
{
    let _header = segment.header.fields();
    address_of(segment) < behind
}

/// The place in which the first of these segments begins; where there is none the picture's end.
fn begins_at(size: u32, later: &[SegmentPlan]) -> u32
    ensures { result ≡ begins_at size later.now }
{
    match later {
        [] => size,
        [next, ..] => address_of(next),
    }
}

/// PicSizeInCtbsY.
fn unit_count(sps: &Sps) -> u32
    ensures value { result ≡ size_in_ctbs sps.now }
    ensures in_range { IsSps sps.now }
{
    let _fields = sps.fields();
    sps.width_in_ctbs() * sps.height_in_ctbs()
}

/// Whether a segment up to a place has one substream for each row that it has a part of.
fn has_rows(segment: &SegmentPlan, width: u32, behind: u32) -> bool
    requires { 0 < width }
    ensures { Decides result
        (length segment.now.substreams ≡ row_before width behind - address_of segment.now / width + 1) }
{
    let last = behind.saturating_sub(1) / width;
    let rows = last.saturating_sub(address_of(segment) / width);
    segment.substreams.len() == rows as usize + 1
}

/// Whether all entries of reference picture lists are for pictures of a buffer of this many.
fn refers_inside(lists: &Option<Lists>, size: usize) -> bool
    ensures { Decides result (IfSome lists.now (AreReferences size)) }
{
    match lists {
        Some(lists) => are_inside(lists.l0.as_slice(), size)
            && are_inside(lists.l1.as_slice(), size),
        None => true,
    }
}

/// Whether the places of all these entries are below a size.
fn are_inside(entries: &[RefEntry], size: usize) -> bool
    ensures { Decides result (All (λ (e : RefEntry). e.place < size) entries.now) }
{
    for place in 0..entries.len() {
        if size <= entries[place].place as usize {
            return false;
        }
    }
    true
}
