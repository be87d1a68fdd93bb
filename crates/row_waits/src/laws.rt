//! What follows from the definitions.

ghost use Rattle.std.specs.Prelude.{◌≡◌, ◌+◌, ◌*◌, ◌<◌, ◌≤◌, ℕ, All, List, Some, slice_get, true};
ghost use Rattle.std.specs.List.{flat_map};
ghost use Rattle.hv_base.specs.declared.line.Line.{Line};
ghost use Rattle.hv_base.specs.declared.line.Phase.TheVariants.{B, S};
ghost use Rattle.header_types.specs.SequenceParameterSets.{height_in_ctbs, width_in_ctbs};
ghost use Rattle.plan_types.specs.declared.picture_plan.PicturePlan.{PicturePlan};
ghost use Rattle.plan_types.specs.declared.segment_plan.SegmentPlan.{SegmentPlan};
ghost use Rattle.ctu_records.specs.declared.item.Item.{Item};
ghost use Rattle.spec_known_units.specs.Known.{KnownUnit, units_known};
ghost use Rattle.board_core.specs.Needs.{collocated_of, read_needs, row_needs, unit_needs};
ghost use Rattle.board_core.specs.Places.{line_of};
ghost use Rattle.board_core.specs.Reach.{told_reach};
ghost use Rattle.board_core.specs.Uses.{UnitUses};
ghost use Rattle.flight_plan.specs.Flight.{IsNoneOrEarlier};
ghost use Rattle.flight_plan.specs.declared.row_range.Reference.TheVariants.{Flight};
ghost use Rattle.sample_words.specs.declared.sizes.FlightSizes.{FlightSizes};
ghost use Rattle.sample_words.specs.Sizes.{columns};
ghost use Rattle.sample_words.specs.Words.{IsLine, line_number};
ghost use Rattle.unit_reach.specs.SpecFlights.{PlannedFlight};
ghost use Rattle.unit_reach.specs.SpecFlights.{collocated_by, names_before, segment_of};
ghost use Rattle.unit_reach.specs.SpecFlights.{flight_rows, is_sound};
ghost use Rattle.flight_waits.specs.FactsOfFlights.{IsPlanned};
ghost use Rattle.unit_reach.specs.declared.reach.ReachSource.{ReachSource};
ghost use Rattle.progress_words.specs.declared.view.View.{View};
ghost use Rattle.progress_words.specs.Views.{seen_of};
ghost use Rattle.flight_waits.specs.FactsOfFlights.{FlightFacts};
ghost use Rattle.flight_waits.specs.FactsOfFlights.{flight_in};
ghost use Rattle.flight_waits.specs.FactsOfFlights.{IsOfFlight};
ghost use Rattle.flight_waits.specs.Waits.{AreAllKnown, AreSeen};
ghost use Rattle.flight_windows.specs.Seen.{SeenFlags, is_seen};
ghost use Rattle.row_waits.specs.Seen.{HasSeenFlags, HasReach, ReachesEarlier, reach_in};
ghost use Rattle.row_waits.specs.Told.{IsSourceOf};

/// The ranges of rows that the items of a known unit reach, by its derived motion, are those that its flight tells of
/// the unit (`told`), and are of pictures before its own (`earlier`).
pub fn items_reach_what_their_flight_tells()
    ensures told { (f : PlannedFlight) → IsPlanned f → (k row x : ℕ) (p : PicturePlan)
        → slice_get f.pictures k ≡ Some p → row < height_in_ctbs p.sps → x < width_in_ctbs p.sps
        → (known : KnownUnit) (s : SegmentPlan) → units_known p (row * width_in_ctbs p.sps + x) ≡ Some known
        → slice_get p.segments known.segment ≡ Some s → (source : ReachSource)
        → IsSourceOf f k p (row * width_in_ctbs p.sps + x) s known source
        → flat_map (reach_in source) known.read.items ≡ told_reach (flight_rows f) (line_of B k row) x }
    ensures earlier { (f : PlannedFlight) → IsPlanned f → (k row x : ℕ) (p : PicturePlan)
        → slice_get f.pictures k ≡ Some p → row < height_in_ctbs p.sps → x < width_in_ctbs p.sps
        → (known : KnownUnit) (s : SegmentPlan) → units_known p (row * width_in_ctbs p.sps + x) ≡ Some known
        → slice_get p.segments known.segment ≡ Some s → (source : ReachSource)
        → IsSourceOf f k p (row * width_in_ctbs p.sps + x) s known source
        → All (ReachesEarlier k source) known.read.items }
{}

/// Where the rows that the items of a coding tree unit reach are seen, with what reading it needs and the collocated
/// picture's row, what counting it needs is met (`needs`), and each final row that it uses is seen (`rows`).
pub fn seen_reach_meets_the_needs_of_a_unit()
    ensures needs { (facts : FlightFacts) (s : FlightSizes) → IsOfFlight facts s → (v : View FlightFacts)
        (seen : SeenFlags) → HasSeenFlags s v seen → (source : ReachSource) (items : List Item) (l : Line) (x : ℕ)
        → flat_map (reach_in source) items ≡ told_reach (flight_rows (flight_in facts)) l x
        → All (HasReach s seen source) items → l.phase ≡ B
        → AreSeen facts s v (read_needs (flight_rows (flight_in facts)) l x)
        → AreSeen facts s v
        (row_needs (flight_rows (flight_in facts)) (collocated_of (flight_rows (flight_in facts)) l x) l.row)
        → AreSeen facts s v (unit_needs (flight_rows (flight_in facts)) l x) }
    ensures rows { (facts : FlightFacts) (s : FlightSizes) → IsOfFlight facts s → (v : View FlightFacts)
        (seen : SeenFlags) → HasSeenFlags s v seen → (source : ReachSource) (items : List Item) (l : Line) (x : ℕ)
        → flat_map (reach_in source) items ≡ told_reach (flight_rows (flight_in facts)) l x
        → All (HasReach s seen source) items → (j row : ℕ) → l.phase ≡ B
        → UnitUses (flight_rows (flight_in facts)) l x (line_of S j row) 0 → is_seen seen j row ≡ true }
{}

/// The collocated picture that a flight tells of a unit is that of the slice of the unit's segment (`picture`), and is
/// before its own (`earlier`). Where its row as it is built, which the unit needs, is seen, all units of that row are
/// counted (`counted`) and sound (`sound`).
pub fn collocated_rows_are_told()
    ensures picture { (f : PlannedFlight) (k row x : ℕ) (p : PicturePlan) → slice_get f.pictures k ≡ Some p
        → row < height_in_ctbs p.sps → x < width_in_ctbs p.sps → (s : SegmentPlan)
        → segment_of p (row * width_in_ctbs p.sps + x) ≡ Some s
        → collocated_of (flight_rows f) (line_of B k row) x ≡ collocated_by (names_before f k) p s }
    ensures earlier { (f : PlannedFlight) (k row x : ℕ) (p : PicturePlan) → slice_get f.pictures k ≡ Some p
        → row < height_in_ctbs p.sps → x < width_in_ctbs p.sps → (s : SegmentPlan)
        → segment_of p (row * width_in_ctbs p.sps + x) ≡ Some s → IsPlanned f
        → IsNoneOrEarlier k (collocated_by (names_before f k) p s) }
    ensures counted { (facts : FlightFacts) (s : FlightSizes) → IsOfFlight facts s → (v : View FlightFacts) (j row : ℕ)
        → IsLine s (line_of B j row)
        → AreSeen facts s v (row_needs (flight_rows (flight_in facts)) (Some (Flight j)) row)
        → columns s ≤ seen_of v (line_number s (line_of B j row)) }
    ensures sound { (facts : FlightFacts) (s : FlightSizes) → IsOfFlight facts s → (v : View FlightFacts) (j row : ℕ)
        → IsLine s (line_of B j row)
        → AreSeen facts s v (row_needs (flight_rows (flight_in facts)) (Some (Flight j)) row)
        → AreAllKnown facts v → (x : ℕ) → x < columns s
        → is_sound (flight_in facts) (line_of B j row) x ≡ true }
{}
