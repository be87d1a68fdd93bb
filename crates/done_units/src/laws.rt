//! What follows from the definitions.

ghost use Rattle.std.specs.Prelude.{ℕ, ◌≡◌, true};
ghost use Rattle.hv_base.specs.declared.line.Line.{Line};
ghost use Rattle.hv_base.specs.declared.line.Phase.TheVariants.{B};
ghost use Rattle.board_core.specs.Needs.{read_needs, unit_needs};
ghost use Rattle.board_core.specs.Uses.{ReadingUses, UnitUses};
ghost use Rattle.flight_packing_laws.specs.SpecFlights.{flight_rows, is_sound};
ghost use Rattle.flight_waits.specs.FactsOfFlights.{AreUsesSound};
ghost use Rattle.progress_words.specs.declared.view.View.{View};
ghost use Rattle.line_words.specs.Places.{UnitAt};
ghost use Rattle.flight_waits.specs.FactsOfFlights.{FlightFacts};
ghost use Rattle.flight_waits.specs.FactsOfFlights.{flight_in};
ghost use Rattle.flight_waits.specs.Waits.{AreAllKnown, AreSeen};
ghost use Rattle.done_units.specs.Seen.{HasReached, IsSeenUnit};

/// A pass that has come to a unit, and has met what reading it needs, has seen each unit counted that reading it uses
/// (`read`); where it has met what counting it needs, each that making it uses (`unit`).
pub fn met_needs_are_seen_uses()
    ensures read { (facts : FlightFacts) (v : View FlightFacts) (u : UnitAt) → HasReached facts v u → u.line.phase ≡ B
        → AreSeen facts u.sizes v (read_needs (flight_rows (flight_in facts)) u.line u.unit)
        → (m : Line) (y : ℕ) → ReadingUses (flight_rows (flight_in facts)) u.line u.unit m y
        → IsSeenUnit u.sizes v m y }
    ensures unit { (facts : FlightFacts) (v : View FlightFacts) (u : UnitAt) → HasReached facts v u
        → AreSeen facts u.sizes v (unit_needs (flight_rows (flight_in facts)) u.line u.unit)
        → (m : Line) (y : ℕ) → UnitUses (flight_rows (flight_in facts)) u.line u.unit m y
        → IsSeenUnit u.sizes v m y }
{}

/// So these are sound, where all units are that the pass has seen counted.
pub fn met_needs_are_sound_uses()
    ensures read { (facts : FlightFacts) (v : View FlightFacts) (u : UnitAt) → HasReached facts v u → u.line.phase ≡ B
        → AreAllKnown facts v
        → AreSeen facts u.sizes v (read_needs (flight_rows (flight_in facts)) u.line u.unit)
        → AreUsesSound (flight_in facts) u.line.picture u.line.row u.unit }
    ensures unit { (facts : FlightFacts) (v : View FlightFacts) (u : UnitAt) → HasReached facts v u
        → AreAllKnown facts v
        → AreSeen facts u.sizes v (unit_needs (flight_rows (flight_in facts)) u.line u.unit)
        → (m : Line) (y : ℕ) → UnitUses (flight_rows (flight_in facts)) u.line u.unit m y
        → is_sound (flight_in facts) m y ≡ true }
{}
