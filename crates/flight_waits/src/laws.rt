//! What follows from the definitions.

ghost use Rattle.std.specs.Prelude.{◌≡◌, ℕ, All};
ghost use Rattle.hv_base.specs.declared.line.Line.{Line};
ghost use Rattle.hv_base.specs.declared.line.Phase.{Phase};
ghost use Rattle.hv_base.specs.declared.line.Phase.TheVariants.{B};
ghost use Rattle.flight_plan.specs.Flight.{FlightRows};
ghost use Rattle.flight_plan.specs.declared.row_range.RowRange.{RowRange};
ghost use Rattle.board_core.specs.Needs.{collocated_of, filter_needs, range_needs, read_needs, row_needs, rows_needs};
ghost use Rattle.board_core.specs.Needs.{unit_needs};
ghost use Rattle.board_core.specs.Reach.{told_reach};
ghost use Rattle.sample_words.specs.declared.sizes.FlightSizes.{FlightSizes};
ghost use Rattle.flight_lines.specs.Numbers.{numbered_needs};
ghost use Rattle.progress_words.specs.Core.{AreMet};
ghost use Rattle.progress_words.specs.Meanings.{Meaning};
ghost use Rattle.flight_facts.specs.SpecFlights.{PlannedFlight};
ghost use Rattle.flight_facts.specs.SpecFlights.{flight_rows};
ghost use Rattle.flight_waits.specs.Frames.{frame_rows};

/// The rows of a flight as its plans tell them need what the flight needs, but for what coding tree units refer to:
/// to be read (`read`), and to be filtered (`filter`); and so do a row of another picture (`rows`) and a range of rows
/// (`range`).
pub fn frames_need_what_their_flights_need()
    ensures read { (f : PlannedFlight) (l : Line) (x : ℕ)
        → read_needs (frame_rows f.pictures) l x ≡ read_needs (flight_rows f) l x }
    ensures filter { (f : PlannedFlight) (l : Line)
        → filter_needs (frame_rows f.pictures) l ≡ filter_needs (flight_rows f) l }
    ensures rows { (f : PlannedFlight) (phase : Phase) (k first last : ℕ)
        → rows_needs (frame_rows f.pictures) phase k first last ≡ rows_needs (flight_rows f) phase k first last }
    ensures range { (f : PlannedFlight) (range : RowRange)
        → range_needs (frame_rows f.pictures) range ≡ range_needs (flight_rows f) range }
{}

/// What a coding tree unit needs to be counted is met where what it needs to be read is, and the row of the collocated
/// picture of its slice, and each range of rows that it reaches.
pub fn needs_of_coding_tree_units_are_seen()
    ensures { (m : Meaning) (count : ℕ → ℕ) (s : FlightSizes) (plan : FlightRows) (l : Line) (x : ℕ) → l.phase ≡ B
        → AreMet m count (numbered_needs s (read_needs plan l x))
        → AreMet m count (numbered_needs s (row_needs plan (collocated_of plan l x) l.row))
        → All (λ range. AreMet m count (numbered_needs s (range_needs plan range))) (told_reach plan l x)
        → AreMet m count (numbered_needs s (unit_needs plan l x)) }
{}
