//! The slice segments that have the units of a row.

ghost use Rattle.std.specs.Prelude.{◌≡◌, ◌+◌, ◌*◌, ◌^◌, ◌<◌, ◌≤◌, None, IfSome, drop, length, true};
ghost use Rattle.std.specs.Option.{option_copied};
ghost use Rattle.plan_types.specs.declared.segment_plan.SegmentPlan.{SegmentPlan};
ghost use Rattle.header_types.specs.SequenceParameterSets.{IsSps, size_in_ctbs, width_in_ctbs};
ghost use Rattle.spec_slice_data.specs.Segment.{begins_row};
ghost use Rattle.spec_picture_trees.specs.Shapes.{end_of, picture_shape};
ghost use Rattle.unit_words.specs.PictureLayout.{IsShape};
ghost use Rattle.spec_known_units.specs.Known.{is_in, picture_segments, segment_having};
ghost use Rattle.row_trees.specs.Segments.{IsCurrent, IsReached, next_segment};

use header_types::Sps;
use plan_types::{PicturePlan, SegmentPlan};
use std::marker::Model;
use unit_words::{Layout, SegmentData, address_of};

/// A picture, and the slice segment that has the unit at which its reader stands. It goes on from segment to segment:
/// no segment is tried twice while the units go up.
#[derive(Drop)]
pub struct RowSegments<'a> {
    plan: &'a PicturePlan,
    layout: Layout,
    /// The current segment, where there is one.
    pub(crate) current: Option<SegmentData<'a>>,
}

impl<'a> Model for RowSegments<'a> {
    ghost use Rattle.std.specs.Prelude.{◌≡◌, IfSome};
    ghost use Rattle.spec_picture_trees.specs.Shapes.{picture_shape};
    ghost use Rattle.row_trees.specs.Segments.{IsCurrent, SegmentsOf};

    ghost Value = { SegmentsOf };

    ghost view = { λ s. record { plan = s.plan.now; current = s.current } };

    ghost invariant = { λ s. (s.layout ≡ picture_shape s.plan.now.sps s.plan.now.pps)
        × IfSome s.current (IsCurrent s.plan.now) };
}

impl<'a> RowSegments<'a> {
    /// Those of a picture, at no unit.
    pub fn new(plan: &'a PicturePlan) -> RowSegments<'a>
        ensures { result ≡ record { plan = plan.now; current = None } }
    {
        RowSegments {
            plan,
            layout: Layout::new(plan),
            current: None,
        }
    }

    /// The current segment.
    pub fn current(&self) -> Option<&SegmentData<'a>>
        ensures { option_copied result ≡ self.now.current }
    {
        match &self.current {
            Some(segment) => Some(segment),
            None => None,
        }
    }

    /// A coding tree unit's side in places.
    pub(crate) fn side(&self) -> u32
        ensures value { result ≡ 2 ^ (picture_shape self.now.plan.sps self.now.plan.pps).size }
        ensures some { 1 ≤ result }
        ensures small { result ≤ 16 }
        ensures shape { IsShape (picture_shape self.now.plan.sps self.now.plan.pps) }
    {
        self.layout.side() as u32
    }

    /// Whether a unit begins a row where each row has a substream of its own.
    pub(crate) fn begins_row(&self, address: u32) -> bool
        ensures value { result ≡ begins_row (picture_shape self.now.plan.sps self.now.plan.pps) address }
        ensures in_range { IsSps self.now.plan.sps }
    {
        let _sps = self.plan.sps.fields();
        self.layout.begins_row(address)
    }

    /// Goes to the segment that has the unit at an address: the current one, where it has it; else one behind it, or
    /// one before it, where the unit is. None where no segment has it.
    pub fn go_to(&mut self, address: u32)
        ensures plan { self.new.plan ≡ self.old.plan }
        ensures value { self.new.current ≡ segment_having (picture_segments self.old.plan) address }
    {
        if !self.has(address) {
            self.current = self.found(address);
        }
    }

    /// Whether the current segment has the unit at an address.
    fn has(&self, address: u32) -> bool
        ensures { result ≡ true → segment_having (picture_segments self.now.plan) address ≡ self.now.current }
    {
        match &self.current {
            Some(segment) => segment.first() <= address && address < segment.behind(),
            None => false,
        }
    }

    /// The segment that has the unit at an address, sought from the current one on, if it begins no later.
    fn found(&self, address: u32) -> Option<SegmentData<'a>>
        ensures value { result ≡ segment_having (picture_segments self.now.plan) address }
        ensures current { IfSome result (IsCurrent self.now.plan) }
    {
        match &self.current {
            Some(segment) if segment.first() <= address => {
                search(self.plan, segment.number(), segment.first(), address)
            }
            _ => search(self.plan, 0, 0, address),
        }
    }
}

/// The first segment that has the unit at an address, from the one with this number on, which begins at a place.
fn search<'a>(
    plan: &'a PicturePlan,
    least: usize,
    place: u32,
    address: u32,
) -> Option<SegmentData<'a>>
    requires reached { IsReached plan.now least place }
    requires behind { place ≤ address }
    ensures value { result ≡ segment_having (picture_segments plan.now) address }
    ensures current { IfSome result (IsCurrent plan.now) }
{
    let mut first = place;
    for number in least..plan.segments.len() {
        let segment = segment_data(plan, number, first);
        if address < segment.behind() {
            return Some(segment);
        }
        first = segment.behind();
    }
    None
}

/// The data of a picture's segment with this number, whose first unit stands at `first`.
fn segment_data(plan: &PicturePlan, number: usize, first: u32) -> SegmentData<'_>
    requires number { number < length plan.now.segments }
    requires first { first ≤ size_in_ctbs plan.now.sps }
    ensures value { (s : SegmentPlan) → result ≡ next_segment plan.now number first s }
    ensures number { result.number ≡ number }
    ensures first { result.shape.first ≡ first }
    ensures behind { result.shape.first + result.shape.count
        ≡ end_of (size_in_ctbs plan.now.sps) first (drop (number + 1) plan.now.segments) }
    ensures inside { result.shape.first + result.shape.count ≤ size_in_ctbs plan.now.sps }
{
    let segments = plan.segments.as_slice();
    let behind = end_of(unit_count(&plan.sps), first, &segments[number + 1..]);
    SegmentData::new(plan, number, &segments[number], first, behind)
}

/// PicSizeInCtbsY.
fn unit_count(sps: &Sps) -> u32
    ensures value { result ≡ size_in_ctbs sps.now }
    ensures few { result ≤ 262144 }
    ensures inside { result ≤ 512 * width_in_ctbs sps.now }
{
    sps.width_in_ctbs() * sps.height_in_ctbs()
}

/// The place behind the last unit of a segment that begins at `first`, in a picture of `size` units.
fn end_of(size: u32, first: u32, later: &[SegmentPlan]) -> u32
    requires { first ≤ size }
    ensures value { result ≡ end_of size first later.now }
    ensures order { first ≤ result }
    ensures inside { result ≤ size }
{
    match later {
        [] => first.max(size),
        [next, ..] => first.max(address_of(next).min(size)),
    }
}
