//! The samples of a coding tree unit by its motion and by what is known beside it (8.4.4.1, 8.5.3.3, 8.6.5).

ghost use Rattle.std.specs.Prelude.{◌≡◌, ◌≤◌};
ghost use Rattle.ctu_build.specs.Held.{held};
ghost use Rattle.picture_motion.specs.CtuMotion.{held as motion_held};
ghost use Rattle.ctu_build.specs.InterSamples.{AreSmall, inter_unit};
ghost use Rattle.spec_picture_build.specs.Border.{known_beside};
ghost use Rattle.spec_picture_build.specs.Weights.{slice_weighting};
ghost use Rattle.picture_filters.specs.SpecPictureTrees.{first_column, first_row};
ghost use Rattle.spec_picture_build.specs.SpecReconstruction.{AreSound, IsFormat};
ghost use Rattle.spec_picture_build.specs.SpecReconstruction.{unit_built};

use crate::beside::gather;
use crate::built::BuiltUnit;
use crate::unit::UnitSource;
use crate::view::Beside;
use crate::weights::slice_weighting;
use ctu_build::{RefWindow, Scratch, UnitInter, build_ctu};
use ctu_records::Records;
use picture_motion::CodingTreeUnit;

/// Where a unit stands that the picture has.
#[derive(Clone, Copy)]
pub(crate) struct Standing {
    /// The unit's place.
    pub(crate) unit: CodingTreeUnit,
    /// The row of its first place of 4x4 luma samples.
    pub(crate) row: u32,
}

/// Builds the samples of a unit whose motion is derived, over those that are known beside it.
pub(crate) fn build_samples<B: Beside, R: RefWindow>(
    source: &UnitSource<'_>,
    standing: Standing,
    records: &Records,
    beside: &B,
    references: &mut R,
    scratch: &mut Scratch,
    built: &mut BuiltUnit,
)
    requires stands { B.unit_of beside.now ≡ standing.unit }
    requires row { (standing.row ≡ first_row standing.unit.layout standing.unit.address) × (standing.row ≤ 8192) }
    requires format { IsFormat source.now.format.now }
    requires small { AreSmall source.now.format.now (R.reference_at references.old) }
    ensures value { AreSound source.now.format.now records.now.items
        → held built.new.samples
        ≡ unit_built source.now.format.now
        (inter_unit (motion_held built.old.motion) built.old.slice
        (slice_weighting source.now.segment.now.header.slice.inter) (R.reference_at references.old)
        (first_column standing.unit.layout standing.unit.address)
        (first_row standing.unit.layout standing.unit.address))
        records.now.items
        (known_beside standing.unit.layout standing.unit.slice standing.unit.address (B.sample_at beside.now)) }
    ensures motion { built.new.motion ≡ built.old.motion }
    ensures slice { built.new.slice ≡ built.old.slice }
    ensures filters { built.new.filters ≡ built.old.filters }
    ensures same { R.reference_at references.new ≡ R.reference_at references.old }
{
    gather(&standing.unit, beside, &mut built.samples);
    let weighting = slice_weighting(&source.segment.header.fields().slice.inter);
    let inter = UnitInter {
        motion: &built.motion,
        slice: &built.slice,
        weighting: &weighting,
        column: standing.unit.first_column() as u32,
        row: standing.row,
    };
    let samples = &mut built.samples;
    build_ctu(records, source.format, &inter, references, scratch, samples);
}
