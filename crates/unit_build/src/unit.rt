//! A coding tree unit.

ghost use Rattle.std.specs.Prelude.{◌≡◌, ℕ, ◌<◌, ◌≤◌};
ghost use Rattle.std.specs.List.{All};
ghost use Rattle.ctu_build.specs.Held.{held};
ghost use Rattle.picture_motion.specs.CtuMotion.{held as motion_held};
ghost use Rattle.ctu_records.specs.Tree.{qp_at};
ghost use Rattle.ctu_build.specs.InterSamples.{AreSmall, inter_unit};
ghost use Rattle.picture_filters.specs.Filtering.{IsUnit};
ghost use Rattle.picture_filters.specs.Given.{IsGiven};
ghost use Rattle.picture_motion.specs.Deriving.{derived_over, known_over};
ghost use Rattle.spec_motion.specs.Units.{IsPlacedItem};
ghost use Rattle.spec_picture_build.specs.Border.{known_beside};
ghost use Rattle.spec_picture_build.specs.Weights.{slice_weighting};
ghost use Rattle.spec_picture_build.specs.SpecPictureMotion.{slice_motion};
ghost use Rattle.picture_filters.specs.SpecPictureTrees.{first_column, first_row};
ghost use Rattle.spec_picture_build.specs.SpecReconstruction.{AreSound, IsFormat};
ghost use Rattle.spec_picture_build.specs.SpecReconstruction.{unit_built};
ghost use Rattle.unit_build.specs.Near.{motion_behind};

use crate::built::BuiltUnit;
use crate::coded::coded_beside;
use crate::motion::derive_over;
use crate::near::UnitNear;
use crate::samples::{Standing, build_samples};
use crate::view::Beside;
use ctu_build::{RefWindow, Scratch};
use ctu_records::Records;
use picture_filters::{PicturePlan, SegmentPlan, UnitFilters, unit_filters};
use picture_motion::slice_motion;
use spec_picture_build::UnitFormat;

/// The slice segment of a unit.
#[derive(Clone, Copy)]
pub struct UnitSource<'a> {
    /// The picture.
    pub plan: &'a PicturePlan,
    /// The slice segment.
    pub segment: &'a SegmentPlan,
    /// What the samples of the slice's units depend on.
    pub format: &'a UnitFormat,
}

/// A unit's work, by what was read of it, what stands beside it and the pictures that it refers to: its motion, what it
/// gives the loop filters, and, where the picture has it, its samples before them. It takes no memory.
pub fn build_unit<B: Beside, R: RefWindow>(
    source: &UnitSource<'_>,
    records: &Records,
    beside: &B,
    references: &mut R,
    scratch: &mut Scratch,
    built: &mut BuiltUnit,
)
    requires unit { IsUnit source.now.plan.now source.now.segment.now (B.unit_of beside.now) }
    requires format { IsFormat source.now.format.now }
    requires small { AreSmall source.now.format.now (R.reference_at references.old) }
    ensures slice { built.new.slice
        ≡ slice_motion source.now.plan.now source.now.segment.now (B.unit_of beside.now).address }
    ensures motion { All IsPlacedItem records.now.items
        → motion_held built.new.motion
        ≡ known_over (B.collocated_at beside.now) source.now.plan.now source.now.segment.now
        (B.unit_of beside.now).address records.now.items (B.motion_at beside.now) }
    ensures filters { All IsPlacedItem records.now.items → ((i j : ℕ) → qp_at records.now.items i j ≤ 127)
        → IsGiven source.now.plan.now source.now.segment.now (B.unit_of beside.now).address records.now
        (derived_over (B.collocated_at beside.now) source.now.plan.now source.now.segment.now
        (B.unit_of beside.now).address records.now.items (B.motion_at beside.now))
        (B.coded_at beside.now) built.new.filters }
    ensures samples { first_row (B.unit_of beside.now).layout (B.unit_of beside.now).address
        < (B.unit_of beside.now).layout.down
        → AreSound source.now.format.now records.now.items
        → held built.new.samples
        ≡ unit_built source.now.format.now
        (inter_unit (motion_held built.new.motion) built.new.slice
        (slice_weighting source.now.segment.now.header.slice.inter) (R.reference_at references.old)
        (first_column (B.unit_of beside.now).layout (B.unit_of beside.now).address)
        (first_row (B.unit_of beside.now).layout (B.unit_of beside.now).address))
        records.now.items
        (known_beside (B.unit_of beside.now).layout (B.unit_of beside.now).slice (B.unit_of beside.now).address
        (B.sample_at beside.now)) }
    ensures same { R.reference_at references.new ≡ R.reference_at references.old }
{
    derive_unit(source, records, beside, built);
    fill_unit(source, records, beside, references, scratch, built);
}

/// The first half of a unit's work: its motion, and the pictures that its vectors point to. So it is known which rows
/// of other pictures its samples are predicted from.
pub fn derive_unit<B: Beside>(
    source: &UnitSource<'_>,
    records: &Records,
    beside: &B,
    built: &mut BuiltUnit,
)
    requires unit { IsUnit source.now.plan.now source.now.segment.now (B.unit_of beside.now) }
    ensures slice { built.new.slice
        ≡ slice_motion source.now.plan.now source.now.segment.now (B.unit_of beside.now).address }
    ensures motion { All IsPlacedItem records.now.items
        → motion_held built.new.motion
        ≡ known_over (B.collocated_at beside.now) source.now.plan.now source.now.segment.now
        (B.unit_of beside.now).address records.now.items (B.motion_at beside.now) }
{
    let unit = beside.unit();
    built.slice = slice_motion(&unit, source.plan, source.segment);
    derive_over(&unit, records, beside, &built.slice, &mut built.motion);
}

/// The second half of the work of a unit whose motion is derived: what it gives the loop filters, and, where the
/// picture has it, its samples before them.
pub fn fill_unit<B: Beside, R: RefWindow>(
    source: &UnitSource<'_>,
    records: &Records,
    beside: &B,
    references: &mut R,
    scratch: &mut Scratch,
    built: &mut BuiltUnit,
)
    requires unit { IsUnit source.now.plan.now source.now.segment.now (B.unit_of beside.now) }
    requires format { IsFormat source.now.format.now }
    requires small { AreSmall source.now.format.now (R.reference_at references.old) }
    requires slice { built.old.slice
        ≡ slice_motion source.now.plan.now source.now.segment.now (B.unit_of beside.now).address }
    requires motion { All IsPlacedItem records.now.items
        → motion_held built.old.motion
        ≡ known_over (B.collocated_at beside.now) source.now.plan.now source.now.segment.now
        (B.unit_of beside.now).address records.now.items (B.motion_at beside.now) }
    ensures slice { built.new.slice ≡ built.old.slice }
    ensures motion { built.new.motion ≡ built.old.motion }
    ensures filters { All IsPlacedItem records.now.items → ((i j : ℕ) → qp_at records.now.items i j ≤ 127)
        → IsGiven source.now.plan.now source.now.segment.now (B.unit_of beside.now).address records.now
        (derived_over (B.collocated_at beside.now) source.now.plan.now source.now.segment.now
        (B.unit_of beside.now).address records.now.items (B.motion_at beside.now))
        (B.coded_at beside.now) built.new.filters }
    ensures samples { first_row (B.unit_of beside.now).layout (B.unit_of beside.now).address
        < (B.unit_of beside.now).layout.down
        → AreSound source.now.format.now records.now.items
        → held built.new.samples
        ≡ unit_built source.now.format.now
        (inter_unit (motion_held built.old.motion) built.old.slice
        (slice_weighting source.now.segment.now.header.slice.inter) (R.reference_at references.old)
        (first_column (B.unit_of beside.now).layout (B.unit_of beside.now).address)
        (first_row (B.unit_of beside.now).layout (B.unit_of beside.now).address))
        records.now.items
        (known_beside (B.unit_of beside.now).layout (B.unit_of beside.now).slice (B.unit_of beside.now).address
        (B.sample_at beside.now)) }
    ensures same { R.reference_at references.new ≡ R.reference_at references.old }
{
    let unit = beside.unit();
    let near = UnitNear {
        unit: &unit,
        beside,
        slice: &built.slice,
        motion: &built.motion,
    };
    give_filters(source, records, &near, &mut built.filters);
    if let Some(row) = unit.first_row_there() {
        let standing = Standing { unit, row };
        build_samples(
            source, standing, records, beside, references, scratch, built,
        );
    }
}

/// What a unit whose motion is derived gives the loop filters.
fn give_filters<B: Beside>(
    source: &UnitSource<'_>,
    records: &Records,
    near: &UnitNear<'_, B>,
    filters: &mut UnitFilters,
)
    requires { IsUnit source.now.plan.now source.now.segment.now near.now.unit.now }
    ensures { All IsPlacedItem records.now.items → ((i j : ℕ) → qp_at records.now.items i j ≤ 127)
        → IsGiven source.now.plan.now source.now.segment.now near.now.unit.now.address records.now
        (motion_behind near.now.unit.now near.now.slice.now (motion_held near.now.motion.now)
        (B.motion_at near.now.beside.now))
        (B.coded_at near.now.beside.now) filters.new }
{
    let coded = coded_beside(near.unit, near.beside);
    unit_filters(
        source.plan,
        source.segment,
        near.unit,
        records,
        &coded,
        near,
        filters,
    );
}
