//! What follows from the definitions.

ghost use Rattle.std.specs.Prelude.{◌≡◌, ℕ, Some, slice_get};
ghost use Rattle.std.specs.List.{flat_map};
ghost use Rattle.hv_base.specs.declared.line.Phase.TheVariants.{B};
ghost use Rattle.plan_types.specs.declared.picture_plan.PicturePlan.{PicturePlan};
ghost use Rattle.plan_types.specs.declared.segment_plan.SegmentPlan.{SegmentPlan};
ghost use Rattle.spec_picture_trees.specs.Places.{first_row};
ghost use Rattle.spec_picture_trees.specs.Shapes.{picture_shape};
ghost use Rattle.spec_picture_motion.specs.Derived.{known_of_unit};
ghost use Rattle.spec_picture_motion.specs.Slices.{slice_motion};
ghost use Rattle.spec_picture_build.specs.References.{motions_of};
ghost use Rattle.ctu_motion.specs.Held.{held};
ghost use Rattle.flight_value_laws.specs.SpecDecodedPictures.{DecodedUnits};
ghost use Rattle.row_borders.specs.KnownPictureLaws.{AgreeOnUnit};
ghost use Rattle.unit_words.specs.UnitBuild.{BuiltUnit};
ghost use Rattle.row_borders.specs.Building.{HoldsUnit, tree_unit};
ghost use Rattle.spec_known_units.specs.Known.{KnownUnit, units_known};
ghost use Rattle.sample_words.specs.Words.{unit_word};
ghost use Rattle.unit_words.specs.Work.{HasWord, HoldsValues, IsPackable};
ghost use Rattle.unit_words.specs.declared.done_unit.DoneUnit.{DoneUnit};
ghost use Rattle.row_borders.specs.SpecFlights.{PlannedFlight, folded_at, known_folded, pictures_before};
ghost use Rattle.row_borders.specs.SpecFlights.{blocks_at, item_blocks, names_before};
ghost use Rattle.row_borders.specs.SpecFlights.{expected, values_in};
ghost use Rattle.flight_value_laws.specs.Ranges.{IsInRange};
ghost use Rattle.flight_packing_laws.specs.Done.{IsDone};

/// A unit that was built for one picture is the unit of each picture that agrees with that at its samples and places.
/// So by `known_units_are_built_from_what_they_use` of flight_unit_laws what `fill_in_row` of row_borders builds, over
/// borders that agree with a flight's picture, is the unit of that picture.
pub fn built_units_hold_what_agrees()
    ensures { (p : PicturePlan) (address : ℕ) (built : BuiltUnit) (whole made : DecodedUnits)
        → AgreeOnUnit p address whole made → HoldsUnit p address built made → HoldsUnit p address built whole }
{}

/// In a flight that is in range, a unit whose work is done holds the values of its picture: its samples, motion, modes
/// and offsets, the contexts behind a row's second unit, and what its last one carries on (`holds`). They fit words
/// (`packable`). So each word that the unit is packed into is what the word is to hold (`words`).
pub fn built_units_hold_the_values_of_their_flight()
    ensures holds { (f : PlannedFlight) (k : ℕ) (p : PicturePlan) (known : KnownUnit) (d : DoneUnit) → IsInRange f
        → IsDone f k p known d → HoldsValues (values_in p (folded_at f k)) d }
    ensures packable { (f : PlannedFlight) (k : ℕ) (p : PicturePlan) (known : KnownUnit) (d : DoneUnit) → IsInRange f
        → IsDone f k p known d → IsPackable d }
    ensures words { (f : PlannedFlight) (k : ℕ) (p : PicturePlan) (known : KnownUnit) (d : DoneUnit)
        (index word : ℕ) → IsInRange f → IsDone f k p known d → HasWord d index word
        → word ≡ expected f (unit_word B k d.row d.column index) }
{}

/// The blocks of a unit whose motion is derived are those that the flight has for it. So the rows that `item_reach` of
/// unit_reach tells are those that its samples are predicted from.
pub fn derived_units_tell_their_blocks()
    ensures { (f : PlannedFlight) (k address : ℕ) (p : PicturePlan) (known : KnownUnit) (s : SegmentPlan)
        (built : BuiltUnit)
        → slice_get f.pictures k ≡ Some p → units_known p address ≡ Some known
        → slice_get p.segments known.segment ≡ Some s → built.slice ≡ slice_motion p s address
        → held built.motion
        ≡ known_of_unit (motions_of (pictures_before f k)) p s (tree_unit known.segment address known.read)
        (known_folded (pictures_before f k) p).motions
        → flat_map
        (item_blocks (names_before f k) built.slice (first_row (picture_shape p.sps p.pps) address)
        (held built.motion))
        known.read.items
        ≡ blocks_at f k address }
{}
