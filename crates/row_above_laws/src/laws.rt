//! What follows from the definitions.

ghost use Rattle.std.specs.Prelude.{◌≡◌, ◌+◌, ◌-◌, ◌*◌, ◌/◌, ◌<◌, ◌≤◌, ℕ, List, Some, is_none, length, slice_get};
ghost use Rattle.std.specs.Prelude.{true};
ghost use Rattle.header_types.specs.SequenceParameterSets.{height_in_ctbs, size_in_ctbs, width_in_ctbs};
ghost use Rattle.plan_types.specs.declared.picture_plan.PicturePlan.{PicturePlan};
ghost use Rattle.ctu_records.specs.Tree.{no_side};
ghost use Rattle.spec_slice_data.specs.Segment.{side_of};
ghost use Rattle.spec_picture_trees.specs.Places.{is_of_unit, unit_places};
ghost use Rattle.spec_picture_trees.specs.Shapes.{picture_shape};
ghost use Rattle.spec_known_units.specs.Known.{KnownUnit, ctu_of, units_known};
ghost use Rattle.spec_picture_motion.specs.Field.{motion_of};
ghost use Rattle.sample_words.specs.declared.unit_content.UnitContent.TheVariants.{Modes, Offsets, Vectors};
ghost use Rattle.sample_words.specs.Offsets.{first_word, second_word};
ghost use Rattle.sample_words.specs.Sizes.{height_of, width_of};
ghost use Rattle.sample_words.specs.Values.{modes_word, vectors_word};
ghost use Rattle.unit_words.specs.Above.{AreBottom, ArePlace};
ghost use Rattle.flight_value_laws.specs.SpecFlights.{PlannedFlight, folded_at};
ghost use Rattle.flight_value_laws.specs.SpecFlights.{flight_sizes, values_in};
ghost use Rattle.flight_value_laws.specs.Ranges.{IsInRange};
ghost use Rattle.row_above_laws.specs.Above.{AreAbove, AreExpectedAbove, expected_content, places_across};

/// In a flight that is in range, of a unit in a column of a row: nothing is read of places that the picture hasn't
/// (`nothing`); and a place that the picture has is predicted in intra mode exactly where it has no motion (`intra`).
pub fn places_are_intra_or_have_motion()
    ensures nothing { (f : PlannedFlight) (k row x i j : ℕ) (p : PicturePlan) → IsInRange f
        → slice_get f.pictures k ≡ Some p → row < height_in_ctbs p.sps → x < width_in_ctbs p.sps
        → places_across (picture_shape p.sps p.pps) x ≤ i
        → side_of (ctu_of (picture_shape p.sps p.pps) (units_known p (row * width_in_ctbs p.sps + x))) i j
        ≡ no_side }
    ensures intra { (f : PlannedFlight) (k address x y : ℕ) (p : PicturePlan) (known : KnownUnit) → IsInRange f
        → slice_get f.pictures k ≡ Some p → address < size_in_ctbs p.sps → units_known p address ≡ Some known
        → is_of_unit (picture_shape p.sps p.pps) address x y ≡ true
        → ((values_in p (folded_at f k)).modes x y).side.intra
        ≡ is_none (motion_of ((folded_at f k).motions x y)) }
{}

/// The words that a flight in range expects of the row above are as `unpack_bottom` and `unpack_place` of unit_words
/// ask for them: those of the lowest places of the unit above, as many as the picture has, and of its offset, are of
/// what the unit leaves to the one below (`bottom`); the two of a place of a known unit are of the motion that the
/// picture keeps there, and of its modes (`place`).
pub fn words_above_are_of_their_units()
    ensures bottom { (f : PlannedFlight) (k row x : ℕ) (p : PicturePlan) (modes offsets : List ℕ) → IsInRange f
        → slice_get f.pictures k ≡ Some p → 0 < row → row < height_in_ctbs p.sps → x < width_in_ctbs p.sps
        → AreAbove (picture_shape p.sps p.pps) (values_in p (folded_at f k)) row x modes offsets
        → AreBottom (unit_places (picture_shape p.sps p.pps))
        (ctu_of (picture_shape p.sps p.pps) (units_known p ((row - 1) * width_in_ctbs p.sps + x))) modes offsets }
    ensures place { (f : PlannedFlight) (k address x y first second : ℕ) (p : PicturePlan) (known : KnownUnit)
        → IsInRange f → slice_get f.pictures k ≡ Some p → address < size_in_ctbs p.sps
        → units_known p address ≡ Some known → is_of_unit (picture_shape p.sps p.pps) address x y ≡ true
        → first ≡ vectors_word ((values_in p (folded_at f k)).motion x y)
        → second
        ≡ modes_word ((values_in p (folded_at f k)).modes x y) ((values_in p (folded_at f k)).motion x y)
        → ArePlace (motion_of ((folded_at f k).motions x y)) ((values_in p (folded_at f k)).modes x y) first second }
{}

/// The words that a flight expects of a unit, by content, are those of the places of the picture: of the vectors and
/// the modes of each of its places (`vectors`, `modes`), and of its sample adaptive offset (`first`, `second`). A unit
/// has as many places across as the picture has there (`across`), and one that isn't in the last row has all down
/// (`above`). Each is one of the unit in the picture (`mine`). So the words that are expected of the lowest places of
/// the unit above, and of its offset, are `AreAbove` (`lowest`).
pub fn expected_words_are_of_their_places()
    ensures vectors { (f : PlannedFlight) (k row x i j : ℕ) (p : PicturePlan) → IsInRange f
        → slice_get f.pictures k ≡ Some p → i < width_of (flight_sizes p.sps (length f.pictures)) x / 4
        → j < height_of (flight_sizes p.sps (length f.pictures)) row / 4
        → expected_content f k p row x (Vectors i j)
        ≡ vectors_word ((values_in p (folded_at f k)).motion (unit_places (picture_shape p.sps p.pps) * x + i)
        (unit_places (picture_shape p.sps p.pps) * row + j)) }
    ensures modes { (f : PlannedFlight) (k row x i j : ℕ) (p : PicturePlan) → IsInRange f
        → slice_get f.pictures k ≡ Some p → i < width_of (flight_sizes p.sps (length f.pictures)) x / 4
        → j < height_of (flight_sizes p.sps (length f.pictures)) row / 4
        → expected_content f k p row x (Modes i j)
        ≡ modes_word ((values_in p (folded_at f k)).modes (unit_places (picture_shape p.sps p.pps) * x + i)
        (unit_places (picture_shape p.sps p.pps) * row + j))
        ((values_in p (folded_at f k)).motion (unit_places (picture_shape p.sps p.pps) * x + i)
        (unit_places (picture_shape p.sps p.pps) * row + j)) }
    ensures first { (f : PlannedFlight) (k row x : ℕ) (p : PicturePlan) → IsInRange f
        → slice_get f.pictures k ≡ Some p
        → expected_content f k p row x (Offsets 0) ≡ first_word ((values_in p (folded_at f k)).offsets x row) }
    ensures second { (f : PlannedFlight) (k row x : ℕ) (p : PicturePlan) → IsInRange f
        → slice_get f.pictures k ≡ Some p
        → expected_content f k p row x (Offsets 1) ≡ second_word ((values_in p (folded_at f k)).offsets x row) }
    ensures across { (f : PlannedFlight) (k x : ℕ) (p : PicturePlan) → IsInRange f → slice_get f.pictures k ≡ Some p
        → width_of (flight_sizes p.sps (length f.pictures)) x / 4 ≡ places_across (picture_shape p.sps p.pps) x }
    ensures above { (f : PlannedFlight) (k row : ℕ) (p : PicturePlan) → IsInRange f
        → slice_get f.pictures k ≡ Some p → 0 < row → row < height_in_ctbs p.sps
        → height_of (flight_sizes p.sps (length f.pictures)) (row - 1) / 4 ≡ unit_places (picture_shape p.sps p.pps) }
    ensures mine { (f : PlannedFlight) (k row x i j : ℕ) (p : PicturePlan) → IsInRange f
        → slice_get f.pictures k ≡ Some p → x < width_in_ctbs p.sps
        → i < width_of (flight_sizes p.sps (length f.pictures)) x / 4
        → j < height_of (flight_sizes p.sps (length f.pictures)) row / 4
        → is_of_unit (picture_shape p.sps p.pps) (row * width_in_ctbs p.sps + x)
        (unit_places (picture_shape p.sps p.pps) * x + i) (unit_places (picture_shape p.sps p.pps) * row + j)
        ≡ true }
    ensures lowest { (f : PlannedFlight) (k row x : ℕ) (p : PicturePlan) (modes offsets : List ℕ) → IsInRange f
        → slice_get f.pictures k ≡ Some p → 0 < row → row < height_in_ctbs p.sps
        → AreExpectedAbove f k p row x modes offsets
        → AreAbove (picture_shape p.sps p.pps) (values_in p (folded_at f k)) row x modes offsets }
{}
