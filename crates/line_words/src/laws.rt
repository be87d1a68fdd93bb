//! What follows from the definitions.

ghost use Rattle.std.specs.Prelude.{ℕ, ◌≤◌, List};
ghost use Rattle.hv_base.specs.declared.line.Line.{Line};
ghost use Rattle.flight_plan.specs.Flight.{FlightRows};
ghost use Rattle.board_core.specs.Needs.{read_needs, unit_needs};
ghost use Rattle.board_core.specs.Places.{IsLine};
ghost use Rattle.sample_words.specs.declared.sizes.FlightSizes.{FlightSizes};
ghost use Rattle.sample_words.specs.Words.{line_number};
ghost use Rattle.progress_words.specs.Core.{AreMet};
ghost use Rattle.progress_words.specs.declared.view.View.{View};
ghost use Rattle.progress_words.specs.Meanings.{Meaning};
ghost use Rattle.flight_lines.specs.Flights.{IsSized};
ghost use Rattle.flight_lines.specs.Numbers.{numbered_needs};
ghost use Rattle.line_words.specs.Passes.{AreAllSound, AreSound, HasGone, NameOthers};

use crate::row_facts::RowFacts;

/// Needs that are met stay met where counts are no less.
pub fn needs_stay_met()
    ensures { (m : Meaning) (count later : ℕ → ℕ) (needs : List (ℕ × ℕ)) → ((l : ℕ) → count l ≤ later l)
        → AreMet m count needs → AreMet m later needs }
{}

/// A unit of a line needs other lines alone, to be counted (`unit`) and to be read (`read`).
pub fn needs_name_other_lines()
    ensures unit { (plan : FlightRows) (s : FlightSizes) (l : Line) (x : ℕ) → IsSized plan s → IsLine plan l
        → NameOthers (line_number s l) (numbered_needs s (unit_needs plan l x)) }
    ensures read { (plan : FlightRows) (s : FlightSizes) (l : Line) (x : ℕ) → IsSized plan s → IsLine plan l
        → NameOthers (line_number s l) (numbered_needs s (read_needs plan l x)) }
{}

/// Where all units that a pass has seen counted are sound, so are those that it has seen behind a wait.
pub fn waits_keep_units_sound<F: RowFacts>()
    ensures { (m : Meaning) (v w : View F) (needs : List (ℕ × ℕ)) → AreAllSound m v → HasGone v needs w
        → AreSound m v w → AreAllSound m w }
{}
