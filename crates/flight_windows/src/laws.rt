//! What follows from the definitions.

ghost use Rattle.std.specs.Prelude.{◌≡◌, ◌≤◌, ◌==◌, ◌&&◌, ◌||◌, ℕ, true, false, Some, slice_get};
ghost use Rattle.header_types.specs.declared.sps.PictureFormat.{PictureFormat};
ghost use Rattle.hv_base.specs.declared.line.Line.{Line};
ghost use Rattle.hv_base.specs.declared.line.Phase.TheVariants.{S};
ghost use Rattle.plan_types.specs.declared.picture_plan.PicturePlan.{PicturePlan};
ghost use Rattle.sample_lines.specs.FactsOfFlights.{buffer_of};
ghost use Rattle.progress_words.specs.declared.view.View.{View};
ghost use Rattle.progress_words.specs.Views.{seen_of};
ghost use Rattle.sample_words.specs.declared.sizes.FlightSizes.{FlightSizes};
ghost use Rattle.sample_words.specs.Words.{IsLine, line_number};
ghost use Rattle.spec_picture_build.specs.References.{motions_of, pictures_of};
ghost use Rattle.board_core.specs.Places.{line_of};
ghost use Rattle.board_core.specs.Uses.{UnitUses};
ghost use Rattle.sample_lines.specs.SpecFlights.{PlannedFlight, pictures_before};
ghost use Rattle.sample_lines.specs.SpecFlights.{flight_rows};
ghost use Rattle.sample_lines.specs.FactsOfFlights.{FlightFacts};
ghost use Rattle.sample_lines.specs.FactsOfFlights.{IsPlanned};
ghost use Rattle.sample_lines.specs.FactsOfFlights.{BuffersAgree};
ghost use Rattle.flight_windows.specs.Pictures.{seen_pictures};
ghost use Rattle.flight_windows.specs.Seen.{AreFlagsSeen, SeenFlags, has_row, is_seen};
ghost use Rattle.flight_windows.specs.Windows.{bases_in};

/// Where all final rows are seen that a unit of a picture of a flight uses, the pictures with the rows that are seen
/// agree for it with those of the buffer before the picture (`agree`). They have the motion of these anyway
/// (`motions`).
pub fn seen_pictures_agree()
    ensures agree { (f : PlannedFlight) → IsPlanned f → (k : ℕ) (p : PicturePlan) → slice_get f.pictures k ≡ Some p
        → (l : Line) (x : ℕ) (seen : SeenFlags)
        → ((j row : ℕ) → UnitUses (flight_rows f) l x (line_of S j row) 0 → is_seen seen j row ≡ true)
        → BuffersAgree f l x k p (seen_pictures f k seen) }
    ensures motions { (f : PlannedFlight) (k : ℕ) (seen : SeenFlags)
        → motions_of (seen_pictures f k seen) ≡ motions_of (pictures_before f k) }
{}

/// A pass has seen rows counted where none are told as seen (`none`); so it has where it has seen no less since
/// (`later`), and where one more is told that it has seen, as `SeenRows::add` does (`more`).
pub fn seen_rows_stay_seen()
    ensures none { (s : FlightSizes) (v : View FlightFacts) (seen : SeenFlags)
        → ((j row : ℕ) → is_seen seen j row ≡ false) → AreFlagsSeen s v seen }
    ensures later { (s : FlightSizes) (v w : View FlightFacts) (seen : SeenFlags)
        → ((l : ℕ) → seen_of v l ≤ seen_of w l) → AreFlagsSeen s v seen → AreFlagsSeen s w seen }
    ensures more { (s : FlightSizes) (v : View FlightFacts) (seen now : SeenFlags) (j row : ℕ)
        → AreFlagsSeen s v seen → IsLine s (line_of S j row) → 1 ≤ seen_of v (line_number s (line_of S j row))
        → ((i r : ℕ) → is_seen now i r ≡ (is_seen seen i r || (has_row seen j row && (i == j && r == row))))
        → AreFlagsSeen s v now }
{}

/// The pictures of the buffer before a flight are those that its bases hold, to any picture that refers to them.
pub fn bases_are_held_pictures()
    ensures { (format : PictureFormat) (facts : FlightFacts)
        → bases_in format facts ≡ pictures_of format (buffer_of facts.bases.value) }
{}
