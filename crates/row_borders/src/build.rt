//! A coding tree unit's work over a row's border, in two halves.

ghost use Rattle.std.specs.Prelude.{◌≡◌, ℕ, List};
ghost use Rattle.std.specs.List.{All};
ghost use Rattle.ctu_motion.specs.Held.{held};
ghost use Rattle.unit_build.specs.InterSamples.{AreSmall};
ghost use Rattle.unit_build.specs.PictureFilters.{IsUnit};
ghost use Rattle.picture_layout.specs.Shape.{IsShape};
ghost use Rattle.row_borders.specs.Building.{HoldsUnit, IsBeneath, IsBeside, IsDerived, tree_unit};
ghost use Rattle.known_picture_laws.specs.SpecDecodedPictures.{DecodedUnits, unit_decoded};
ghost use Rattle.spec_motion.specs.Units.{IsPlacedItem};
ghost use Rattle.spec_picture_build.specs.Format.{unit_format};
ghost use Rattle.spec_picture_build.specs.References.{DecodedPicture, motions_of, pictures_of};
ghost use Rattle.spec_picture_motion.specs.Derived.{collocated_motions, known_of_unit};
ghost use Rattle.spec_picture_motion.specs.Slices.{collocated_entry};
ghost use Rattle.spec_picture_trees.specs.Shapes.{slice_start};
ghost use Rattle.spec_reconstruction.specs.Sound.{AreSound, IsFormat};

use crate::border::RowBorder;
use ctu_records::Records;
use inter_pred::RefWindow;
use unit_build::{BuiltUnit, Scratch, UnitSource, derive_unit, fill_unit};

/// The first half of the work of the unit that a border stands at: its motion, and the pictures that its vectors point
/// to, by what was read of it. So it is known which rows of these its samples are predicted from. Where the border has
/// what units make of the picture beside it, and the collocated picture's motion beneath, that is the unit's motion in
/// the picture. It takes no memory.
pub fn derive_in_row(
    source: &UnitSource<'_>,
    records: &Records,
    border: &RowBorder,
    built: &mut BuiltUnit,
)
    requires unit { IsUnit source.now.plan.now source.now.segment.now border.now.unit }
    ensures derived { IsDerived source.now.plan.now source.now.segment.now border.now records.now built.new }
    ensures value { (number : ℕ) (others : List DecodedPicture) (units : DecodedUnits)
        → All IsPlacedItem records.now.items
        → IsBeside border.now units
        → IsBeneath border.now
        (collocated_motions (motions_of others)
        (collocated_entry source.now.segment.now.header.slice
        (slice_start source.now.plan.now source.now.segment.now).lists))
        → held built.new.motion
        ≡ known_of_unit (motions_of others) source.now.plan.now source.now.segment.now
        (tree_unit number border.now.unit.address records.now) units.motions }
{
    derive_unit(source, records, border, built);
}

/// The second half: what the unit gives the loop filters, and its samples before them, over the pictures that it
/// refers to. Where the border has what units make of the picture beside it, and the pictures that it refers to are
/// these, what is built is what the unit makes of the picture. It takes no memory.
pub fn fill_in_row<R: RefWindow>(
    source: &UnitSource<'_>,
    records: &Records,
    border: &RowBorder,
    references: &mut R,
    scratch: &mut Scratch,
    built: &mut BuiltUnit,
)
    requires unit { IsUnit source.now.plan.now source.now.segment.now border.now.unit }
    requires depths { IsFormat source.now.format.now }
    requires format { source.now.format.now
        ≡ unit_format source.now.plan.now.sps source.now.plan.now.pps source.now.segment.now.header.slice }
    requires small { AreSmall source.now.format.now (R.reference_at references.old) }
    requires derived { IsDerived source.now.plan.now source.now.segment.now border.now records.now built.old }
    ensures value { (number : ℕ) (others : List DecodedPicture) (units : DecodedUnits)
        → AreSound source.now.format.now records.now.items
        → R.reference_at references.old ≡ pictures_of source.now.plan.now.sps.format others
        → IsBeside border.now units
        → IsBeneath border.now
        (collocated_motions (motions_of others)
        (collocated_entry source.now.segment.now.header.slice
        (slice_start source.now.plan.now source.now.segment.now).lists))
        → HoldsUnit source.now.plan.now border.now.unit.address built.new
        (unit_decoded others source.now.plan.now source.now.segment.now
        (tree_unit number border.now.unit.address records.now) units) }
    ensures same { R.reference_at references.new ≡ R.reference_at references.old }
{
    has_shape(border);
    fill_unit(source, records, border, references, scratch, built);
}

/// The picture of a border has the sides of one, by the type of its layout. It does nothing.
fn has_shape(border: &RowBorder)
    ensures { IsShape border.now.unit.layout }
{
    let _side = border.unit.layout.side();
}
