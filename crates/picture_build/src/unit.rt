//! A coding tree unit of a picture that is built (8.4.4.1, 8.5.3, 8.6, 8.7.2).

ghost use Rattle.std.specs.Prelude.{◌≡◌, ℕ, ◌<◌, ◌≤◌};
ghost use Rattle.std.specs.List.{All};
ghost use Rattle.unit_build.specs.CtuBuild.{held};
ghost use Rattle.unit_build.specs.CtuMotion.{held as motion_held};
ghost use Rattle.ctu_records.specs.Tree.{qp_at};
ghost use Rattle.picture_build.specs.Formats.{HasDepths};
ghost use Rattle.picture_build.specs.Pictures.{buffer_of};
ghost use Rattle.picture_buffer.specs.Motion.{motions_of};
ghost use Rattle.picture_buffer.specs.Planes.{samples_of};
ghost use Rattle.unit_build.specs.PictureFilters.{IsUnit, data_of};
ghost use Rattle.unit_build.specs.PictureFilters.{IsGiven};
ghost use Rattle.picture_trees.specs.Given.{tree_unit};
ghost use Rattle.spec_motion.specs.Units.{IsPlacedItem};
ghost use Rattle.spec_picture_build.specs.Border.{known_beside};
ghost use Rattle.spec_picture_build.specs.Built.{unit_inter};
ghost use Rattle.spec_picture_build.specs.References.{motions_of as motions_at};
ghost use Rattle.spec_picture_motion.specs.Derived.{known_of_unit, unit_added};
ghost use Rattle.spec_picture_motion.specs.Slices.{slice_motion};
ghost use Rattle.picture_trees.specs.SpecPictureTrees.{first_row};
ghost use Rattle.spec_reconstruction.specs.Sound.{AreSound, IsFormat};
ghost use Rattle.spec_reconstruction.specs.Unit.{unit_built};

use crate::beside::{Built, PictureBeside};
use crate::references::References;
use ctu_records::Records;
use picture_trees::{CodingTreeUnit, slice_of};
use unit_build::{BuiltUnit, Scratch, UnitSource, build_unit, collocated_entry};

/// A unit's work over what is built beside it, and over the pictures of the decoded picture buffer.
pub(crate) fn build_beside(
    source: &UnitSource<'_>,
    unit: &CodingTreeUnit,
    built: Built<'_>,
    records: &Records,
    scratch: &mut Scratch,
    work: &mut BuiltUnit,
)
    requires unit { IsUnit source.now.plan.now source.now.segment.now unit.now }
    requires format { IsFormat source.now.format.now }
    requires depths { HasDepths source.now.plan.now.sps source.now.format.now }
    requires picture { built.planes.now.picture ≡ unit.now.layout }
    requires order { unit.now.address ≤ built.planes.now.laid }
    ensures slice { work.new.slice ≡ slice_motion source.now.plan.now source.now.segment.now unit.now.address }
    ensures motion { (number : ℕ) → All IsPlacedItem records.now.items
        → motion_held work.new.motion
        ≡ known_of_unit (motions_at (buffer_of built.entry.bases.now)) source.now.plan.now source.now.segment.now
        (tree_unit number unit.now.address records.now) (motions_of built.entry.field.now) }
    ensures filters { (number : ℕ) → All IsPlacedItem records.now.items
        → ((i j : ℕ) → qp_at records.now.items i j ≤ 127)
        → IsGiven source.now.plan.now source.now.segment.now unit.now.address records.now
        (unit_added (motions_at (buffer_of built.entry.bases.now)) source.now.plan.now source.now.segment.now
        (tree_unit number unit.now.address records.now) (motions_of built.entry.field.now))
        (data_of built.entry.filters.now).coded work.new.filters }
    ensures samples { (number : ℕ) → first_row unit.now.layout unit.now.address < unit.now.layout.down
        → AreSound source.now.format.now records.now.items
        → held work.new.samples
        ≡ unit_built source.now.format.now
        (unit_inter (buffer_of built.entry.bases.now) source.now.plan.now source.now.segment.now
        (tree_unit number unit.now.address records.now) (motions_of built.entry.field.now))
        records.now.items
        (known_beside unit.now.layout unit.now.slice unit.now.address (samples_of built.entry.planes.now.planes)) }
{
    let slice = &source.segment.header.fields().slice;
    let lists = &slice_of(source.plan, source.segment).lists;
    let beside = PictureBeside::new(*unit, built, collocated_entry(slice, lists));
    let mut references = References::new(built.bases, &source.plan.sps);
    build_unit(source, records, &beside, &mut references, scratch, work);
}
