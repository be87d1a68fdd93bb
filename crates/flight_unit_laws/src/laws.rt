//! What follows from the definitions.

ghost use Rattle.std.specs.Prelude.{◌≡◌, ◌<◌, ◌≤◌, ◌+◌, ◌*◌, ℕ, List, Some, None, map, slice_get};
ghost use Rattle.header_types.specs.SequenceParameterSets.{height_in_ctbs, width_in_ctbs};
ghost use Rattle.hv_base.specs.declared.line.Phase.TheVariants.{B, H, S, V};
ghost use Rattle.plan_types.specs.declared.picture_plan.PicturePlan.{PicturePlan};
ghost use Rattle.plan_types.specs.declared.segment_plan.SegmentPlan.{SegmentPlan};
ghost use Rattle.known_picture_laws.specs.SpecKnownUnits.{KnownUnit, units_known};
ghost use Rattle.known_picture_laws.specs.SpecLoopFilters.{height_of, width_of};
ghost use Rattle.known_picture_laws.specs.FilterLocalityLaws.{IsOfRow};
ghost use Rattle.known_picture_laws.specs.SpecPictureFilters.{filter_format};
ghost use Rattle.known_picture_laws.specs.SpecPictureBuild.{Samples};
ghost use Rattle.known_picture_laws.specs.SpecPictureBuild.{DecodedPicture};
ghost use Rattle.known_picture_laws.specs.SpecDecodedPictures.{DecodedUnits, unit_decoded};
ghost use Rattle.flight_plan.specs.Flight.{IsFlight};
ghost use Rattle.board_core.specs.Places.{line_of};
ghost use Rattle.board_core.specs.Reach.{TellsMotion};
ghost use Rattle.board_core.specs.Runs.{IsLeastBad};
ghost use Rattle.board_core.specs.SoundUnits.{IsSoundness};
ghost use Rattle.known_picture_laws.specs.SpecFlights.{PlannedFlight, buffer_before, folded_at};
ghost use Rattle.known_picture_laws.specs.SpecFlights.{horizontal_samples, offset_samples, phase_samples};
ghost use Rattle.known_picture_laws.specs.SpecFlights.{vertical_samples};
ghost use Rattle.known_picture_laws.specs.SpecFlights.{given_at, names_before, picture_named};
ghost use Rattle.known_picture_laws.specs.SpecFlights.{flight_motion, flight_rows, is_sound};
ghost use Rattle.known_picture_laws.specs.Steps.{AgreeOnUnit};
ghost use Rattle.flight_unit_laws.specs.Planned.{IsPlanned};
ghost use Rattle.flight_unit_laws.specs.Stops.{HaveSegments, IsDecodedAt, StopsDecoding};
ghost use Rattle.flight_unit_laws.specs.Uses.{AgreeWhereUsed, AreOfSameSlice, BuffersAgree, SamplesAgreeWhereUsed};

/// A unit of a flight is sound where it isn't bad, and what it needs and the earlier units of its line are sound.
pub fn units_are_sound_where_needs_are()
    ensures { (f : PlannedFlight) → HaveSegments f → IsSoundness (flight_rows f) (is_sound f) }
{}

/// The least bad unit of a flight is where sequential decoding stops; where no unit is bad, all pictures are decoded.
pub fn least_bad_units_stop_decoding()
    ensures none { (f : PlannedFlight) → IsLeastBad (flight_rows f) None
        → (k : ℕ) (p : PicturePlan) → slice_get f.pictures k ≡ Some p → IsDecodedAt f k p }
    ensures some { (f : PlannedFlight) (u : ℕ) → HaveSegments f → IsLeastBad (flight_rows f) (Some u)
        → StopsDecoding f u }
{}

/// The pictures of the buffer before each picture of a flight are those that their names stand for.
pub fn names_stand_for_the_pictures_of_the_buffer()
    ensures { (f : PlannedFlight) (k : ℕ)
        → map (picture_named f) (names_before f k) ≡ map Some (buffer_before f k) }
{}

/// A flight as it is planned is one that the core of row scheduling takes, and tells the rows that its vectors reach.
pub fn planned_flights_are_in_range()
    ensures flight { (f : PlannedFlight) → IsPlanned f → IsFlight (flight_rows f) }
    ensures motion { (f : PlannedFlight) → IsPlanned f → TellsMotion (flight_rows f) (flight_motion f) }
{}

/// A known unit is in its picture what its step makes of anything that agrees with the flight's pictures at the units
/// that building it uses: of its own picture, of the collocated one and of those that its vectors reach.
pub fn known_units_are_built_from_what_they_use()
    ensures { (f : PlannedFlight) → IsPlanned f → (k row x : ℕ) (p : PicturePlan) → slice_get f.pictures k ≡ Some p
        → row < height_in_ctbs p.sps → x < width_in_ctbs p.sps
        → (known : KnownUnit) (s : SegmentPlan) (g : DecodedUnits) (others : List DecodedPicture)
        → units_known p (row * width_in_ctbs p.sps + x) ≡ Some known → slice_get p.segments known.segment ≡ Some s
        → AgreeWhereUsed f (line_of B k row) x k p (folded_at f k) g
        → BuffersAgree f (line_of B k row) x k p others
        → AgreeOnUnit p (row * width_in_ctbs p.sps + x) (folded_at f k)
        (unit_decoded others p s (given_at (row * width_in_ctbs p.sps + x) known) g) }
{}

/// A row of a loop filter is in its picture what its step makes of anything that agrees with the flight's pictures at
/// the units that filtering it uses: behind vertical edges (`vertical`), behind horizontal ones (`horizontal`), and
/// behind sample adaptive offset (`offset`), which asks besides which slices the units of the rows beside it are of.
pub fn filter_rows_are_made_from_what_they_use()
    ensures vertical { (f : PlannedFlight) → IsPlanned f → (k row : ℕ) (p : PicturePlan)
        → slice_get f.pictures k ≡ Some p → (g : DecodedUnits)
        → AgreeWhereUsed f (line_of V k row) 0 k p (folded_at f k) g
        → (c y z : ℕ) → y < width_of (filter_format p) c → IsOfRow (filter_format p) c row 0 z
        → phase_samples p (folded_at f k) V c y z ≡ vertical_samples p g.filters g.samples c y z }
    ensures horizontal { (f : PlannedFlight) → IsPlanned f → (k row : ℕ) (p : PicturePlan)
        → slice_get f.pictures k ≡ Some p → (g : DecodedUnits)
        → AgreeWhereUsed f (line_of H k row) 0 k p (folded_at f k) g → (v : Samples)
        → SamplesAgreeWhereUsed f (line_of H k row) V k p (phase_samples p (folded_at f k) V) v
        → (c y z : ℕ) → y < width_of (filter_format p) c → z < height_of (filter_format p) c
        → IsOfRow (filter_format p) c row 0 z
        → phase_samples p (folded_at f k) H c y z ≡ horizontal_samples p g.filters v c y z }
    ensures offset { (f : PlannedFlight) → IsPlanned f → (k row : ℕ) (p : PicturePlan)
        → slice_get f.pictures k ≡ Some p → (g : DecodedUnits)
        → AgreeWhereUsed f (line_of S k row) 0 k p (folded_at f k) g → (v : Samples)
        → SamplesAgreeWhereUsed f (line_of S k row) H k p (phase_samples p (folded_at f k) H) v
        → ((c column u : ℕ) → row ≤ u + 1 → u ≤ row + 1
        → AreOfSameSlice ((folded_at f k).filters.units c column u) (g.filters.units c column u))
        → (c y z : ℕ) → y < width_of (filter_format p) c → z < height_of (filter_format p) c
        → IsOfRow (filter_format p) c row 0 z
        → phase_samples p (folded_at f k) S c y z ≡ offset_samples p g.filters v c y z }
{}
