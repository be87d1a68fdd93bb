//! Slice segments as their picture holds them.

ghost use Rattle.std.specs.Prelude.{◌≡◌, IfOk};
ghost use Rattle.slice_headers.specs.SpecSliceHeaders.{substream_ranges};
ghost use Rattle.spec_nal_units.specs.Judged.{unit_of};
ghost use Rattle.slice_headers.specs.SpecSliceHeaders.{last_segment, slice_of};
ghost use Rattle.spec_picture_plan.specs.Steps.{lists_of, segment_of, slice_number};

use header_types::{DpbPicture, FieldList, Lists, Rps};
use hv_base::Nal;
use output_order::build_lists;
use plan_types::{Payload, SegmentPlan};
use slice_headers::substreams;
use slice_types::{SliceHeader, Substream};
use std::alloc::{AllocError, Global};

/// A slice segment behind these of its picture, before which the buffer has these pictures, and whose reference picture
/// set this is.
pub fn segment_of(
    alloc: Global,
    before: &[SegmentPlan],
    dpb: &[DpbPicture],
    rps: &Rps,
    nal: Nal,
    header: SliceHeader,
) -> Result<SegmentPlan, AllocError>
    ensures { IfOk result (λ s. s ≡ segment_of before.now dpb.now rps.now (unit_of nal) header) }
{
    let substreams = substreams_of(alloc, &nal, &header);
    substreams.map(|substreams| segment_with(before, dpb, rps, nal, header, substreams))
}

/// A slice segment behind these of its picture, as `segment_of` says, of which these are the substreams.
fn segment_with(
    before: &[SegmentPlan],
    dpb: &[DpbPicture],
    rps: &Rps,
    nal: Nal,
    header: SliceHeader,
    substreams: FieldList<Substream>,
) -> SegmentPlan
    ensures { result ≡ record (segment_of before.now dpb.now rps.now (unit_of nal) header) { substreams = substreams } }
{
    SegmentPlan {
        slice: slice_number(before, &header),
        lists: lists_of(dpb, &header, rps),
        header,
        payload: Payload::new(nal.rbsp),
        removed: nal.removed,
        substreams,
    }
}

/// The substreams of a segment's data.
fn substreams_of(
    alloc: Global,
    nal: &Nal,
    header: &SliceHeader,
) -> Result<FieldList<Substream>, AllocError>
    ensures { IfOk result
        (λ s. s ≡ substream_ranges nal.now.rbsp nal.now.removed header.now.data_place header.now.entry_points) }
{
    let fields = header.fields();
    substreams(
        alloc,
        nal.rbsp.as_slice(),
        &nal.removed,
        fields.data_place,
        fields.entry_points.as_slice(),
    )
}

/// The number of the segment that begins the slice of a segment behind these.
fn slice_number(before: &[SegmentPlan], header: &SliceHeader) -> usize
    ensures { result ≡ slice_number before.now header.now }
{
    if header.fields().segment.dependent_slice_segment_flag {
        last_slice(before)
    } else {
        before.len()
    }
}

/// The number of the segment that begins the slice of the last of these.
fn last_slice(segments: &[SegmentPlan]) -> usize
    ensures { result ≡ slice_of (last_segment segments.now) }
{
    match segments.last() {
        None => 0,
        Some(segment) => segment.slice,
    }
}

/// The reference picture lists of the slice that a segment begins.
fn lists_of(dpb: &[DpbPicture], header: &SliceHeader, rps: &Rps) -> Option<Lists>
    ensures { result ≡ lists_of dpb.now header.now rps.now }
{
    let fields = header.fields();
    if fields.segment.dependent_slice_segment_flag {
        None
    } else {
        Some(build_lists(&fields.slice, rps, dpb))
    }
}
