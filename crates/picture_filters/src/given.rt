//! What a coding tree unit gives the loop filters of its picture.

ghost use Rattle.std.specs.Prelude.{◌≡◌, ℕ, ◌<◌, ◌≤◌, Bool, slice_index_or};
ghost use Rattle.std.specs.List.{All};
ghost use Rattle.ctu_records.specs.Tree.{qp_at};
ghost use Rattle.picture_filters.specs.Filtering.{IsCodedAbove, IsCodedLeft, IsUnit};
ghost use Rattle.picture_filters.specs.Given.{IsGiven, no_deblocking};
ghost use Rattle.picture_filters.specs.Places.{first_read};
ghost use Rattle.picture_filters.specs.Units.{first_unit};
ghost use Rattle.picture_buffer.specs.SpecMotion.{IsPlacedItem};
ghost use Rattle.spec_picture_filters.specs.Units.{is_across, motion_near, offset_of};
ghost use Rattle.spec_picture_filters.specs.SpecPictureMotion.{Motions};

use crate::beside::unit_sides;
use crate::unit_rows::FIRST_UNIT;
use boundary_strengths::{PlaceMotions, UnitPlace, unit_places};
use ctu_records::{ComponentOffset, Records, Sao};
use picture_layout::CodingTreeUnit;
use plan_types::{PicturePlan, SegmentPlan};
use slice_types::SliceDeblocking;
use spec_sample_adaptive_offset::OffsetUnit;

/// Which places beside a unit are coded.
#[derive(Clone, Copy)]
pub struct CodedBeside {
    /// Those on its left, from the upper one down; `false` outside the picture.
    pub left: [bool; 16],
    /// Those above it, from the left one on.
    pub above: [bool; 16],
}

/// What a coding tree unit of a slice segment gives the loop filters of its picture (8.7).
#[derive(Clone, Copy)]
pub struct UnitFilters {
    /// Its places, in 16 rows of 16: as many of each row, and as many rows, as the unit has a side.
    pub places: [UnitPlace; 256],
    /// How its slice is deblocked.
    pub deblocking: SliceDeblocking,
    /// What sample adaptive offset asks of its components, luma, Cb and Cr.
    pub offsets: [OffsetUnit; 3],
}

impl UnitFilters {
    /// Nothing is told yet: no edge has a strength, and no offset is added.
    pub fn new() -> UnitFilters
        ensures places { (q : ℕ) → slice_index_or result.places q first_read ≡ first_read }
        ensures deblocking { result.deblocking ≡ no_deblocking }
        ensures offsets { (c : ℕ) → slice_index_or result.offsets c first_unit ≡ first_unit }
    {
        UnitFilters {
            places: [NO_PLACE; 256],
            deblocking: NO_DEBLOCKING,
            offsets: [FIRST_UNIT; 3],
        }
    }
}

/// A place of which nothing is read.
const NO_PLACE: UnitPlace = UnitPlace {
    left_strength: 0,
    top_strength: 0,
    coded: false,
    qp_y: 0,
    kept: false,
};

/// Deblocking with no offsets.
const NO_DEBLOCKING: SliceDeblocking = SliceDeblocking {
    deblocking_filter_override_flag: false,
    slice_deblocking_filter_disabled_flag: false,
    slice_beta_offset_div2: 0,
    slice_tc_offset_div2: 0,
};

/// What a unit gives, by what was read of it, the places beside it that are coded, and a view of its motion and of the
/// motion beside it.
pub fn unit_filters<V: PlaceMotions>(
    plan: &PicturePlan,
    segment: &SegmentPlan,
    unit: &CodingTreeUnit,
    records: &Records,
    coded: &CodedBeside,
    view: &V,
    given: &mut UnitFilters,
)
    requires { IsUnit plan.now segment.now unit.now }
    ensures { All IsPlacedItem records.now.items → ((i j : ℕ) → qp_at records.now.items i j ≤ 127)
        → (motions : Motions) (known : ℕ → ℕ → Bool)
        → V.motion_at view.now ≡ motion_near unit.now.layout unit.now.address motions
        → IsCodedLeft unit.now known coded.now.left → IsCodedAbove unit.now known coded.now.above
        → IsGiven plan.now segment.now unit.now.address records.now motions known given.new }
{
    let sides = unit_sides(plan, segment, unit, coded);
    let side = unit.layout.side();
    unit_places(records, &sides, view, side, &mut given.places);
    given.deblocking = segment.header.fields().slice.deblocking;
    given.offsets = unit_offsets(segment, unit, records.sao());
}

/// What sample adaptive offset asks of a unit's components.
fn unit_offsets(segment: &SegmentPlan, unit: &CodingTreeUnit, sao: Sao) -> [OffsetUnit; 3]
    ensures { (c : ℕ) → c < 3 → slice_index_or result c first_unit
        ≡ record { offset = offset_of sao c; slice = unit.now.slice; across = is_across segment.now } }
{
    [
        offset_unit(segment, unit, sao.luma),
        offset_unit(segment, unit, sao.cb),
        offset_unit(segment, unit, sao.cr),
    ]
}

/// The same of one component.
fn offset_unit(segment: &SegmentPlan, unit: &CodingTreeUnit, offset: ComponentOffset) -> OffsetUnit
    ensures { result ≡ record { offset = offset; slice = unit.now.slice; across = is_across segment.now } }
{
    let slice = &segment.header.fields().slice;
    OffsetUnit {
        offset,
        slice: unit.slice,
        across: slice.slice_loop_filter_across_slices_enabled_flag,
    }
}
