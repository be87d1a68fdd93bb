//! What holds of every list of events.

ghost use Rattle.std.specs.Prelude.{◌≡◌, ◌<◌, ◌↔◌, ℕ, Bool, true, List, IfSome};
ghost use Rattle.std.specs.List.{Contains};
ghost use Rattle.flight_plan.specs.Flight.{FlightRows, IsFlight};
ghost use Rattle.flight_plan.specs.declared.row_range.Reference.TheVariants.{Flight};
ghost use Rattle.board_core.specs.declared.event.Event.{Event};
ghost use Rattle.board_core.specs.declared.event.Event.TheVariants.{Build, Fault};
ghost use Rattle.hv_base.specs.declared.line.Line.{Line};
ghost use Rattle.hv_base.specs.declared.line.Phase.TheVariants.{S};
ghost use Rattle.board_core.specs.declared.predicted_blocks.PredictedBlock.{PredictedBlock};
ghost use Rattle.board_core.specs.Places.{full_count, line_of, IsDrawnBefore, IsLine, lines_of, ticket_of, unit_of};
ghost use Rattle.board_core.specs.Places.{width_of};
ghost use Rattle.board_core.specs.States.{IsBefore, IsReady, count_of, opening};
ghost use Rattle.board_core.specs.Runs.{AllReady, IsEnded, IsLeastBad, IsSound, run};
ghost use Rattle.board_core.specs.Reach.{FlightMotion, ReadsRow, TellsMotion, blocks_of};
ghost use Rattle.board_core.specs.SoundUnits.{IsFirstBad, IsSoundness};
ghost use Rattle.board_core.specs.Uses.{IsCounted, UnitUses, Uses};

/// The tickets are in the order in which lines are drawn, and each is one of the flight's.
pub fn lines_are_drawn_in_order()
    ensures order { (plan : FlightRows) (l m : Line) → IsLine plan l → IsLine plan m
        → (ticket_of plan l < ticket_of plan m) ↔ IsDrawnBefore l m }
    ensures inside { (plan : FlightRows) (l : Line) → IsLine plan l → ticket_of plan l < lines_of plan }
{}

/// Whatever list of events is taken from the opening state, each ready when it is taken, the state that it leads to is
/// sound.
pub fn every_run_is_sound()
    ensures { (plan : FlightRows) → IsFlight plan → (events : List Event) → AllReady plan (opening plan) events
        → IsSound plan (run plan (opening plan) events) }
{}

/// A list of events that ends leaves the least bad unit as the least fault, or none where no unit is bad, and two lists
/// that end leave the same least fault and the same units before it counted: all of them.
pub fn ending_runs_agree()
    ensures least { (plan : FlightRows) → IsFlight plan → (events : List Event) → AllReady plan (opening plan) events
        → IsEnded plan (run plan (opening plan) events)
        → IsLeastBad plan (run plan (opening plan) events).least }
    ensures same { (plan : FlightRows) → IsFlight plan → (events : List Event) → AllReady plan (opening plan) events
        → IsEnded plan (run plan (opening plan) events)
        → (others : List Event) → AllReady plan (opening plan) others → IsEnded plan (run plan (opening plan) others)
        → (run plan (opening plan) events).least ≡ (run plan (opening plan) others).least }
    ensures counted { (plan : FlightRows) → IsFlight plan → (events : List Event) → AllReady plan (opening plan) events
        → IsEnded plan (run plan (opening plan) events)
        → (others : List Event) → AllReady plan (opening plan) others → IsEnded plan (run plan (opening plan) others)
        → (l : Line) (x : ℕ) → IsLine plan l → x < full_count plan l
        → IsBefore (unit_of plan l x) (run plan (opening plan) events).least
        → (x < count_of plan (run plan (opening plan) events) l)
        × (x < count_of plan (run plan (opening plan) others) l) }
{}

/// Where an event is ready in a state that a list of events leads to, each unit that it uses is counted, and so is each
/// that a counted unit was made from. What the filters of inter prediction read for the blocks of a unit is among what
/// building it uses.
pub fn ready_events_use_counted_units()
    ensures ready { (plan : FlightRows) → IsFlight plan → (events : List Event) → AllReady plan (opening plan) events
        → (event : Event) → IsReady plan (run plan (opening plan) events) event
        → (m : Line) (y : ℕ) → Uses plan event m y → IsCounted plan (run plan (opening plan) events) m y }
    ensures counted { (plan : FlightRows) → IsFlight plan → (events : List Event) → AllReady plan (opening plan) events
        → (l : Line) (x : ℕ) → IsLine plan l → x < count_of plan (run plan (opening plan) events) l
        → (m : Line) (y : ℕ) → UnitUses plan l x m y → IsCounted plan (run plan (opening plan) events) m y }
    ensures taps { (plan : FlightRows) → IsFlight plan → (motion : FlightMotion) → TellsMotion plan motion
        → (l : Line) (x : ℕ) → IsLine plan l → x < width_of plan l
        → (block : PredictedBlock) → Contains (blocks_of plan motion l x) block
        → (picture row : ℕ) → block.reference ≡ Flight picture → ReadsRow motion.lines block row
        → Uses plan (Build l x) (line_of S picture row) 0 }
{}

/// Each unit that is counted in a state that a list of events leads to is sound, and a unit that may be found to be bad
/// there is the first of its line at which a rule is broken, where what reading it needs and the units before it are
/// sound. So is the least fault.
pub fn counted_units_are_sound()
    ensures counted { (plan : FlightRows) → IsFlight plan → (sound : Line → ℕ → Bool) → IsSoundness plan sound
        → (events : List Event) → AllReady plan (opening plan) events
        → (l : Line) (x : ℕ) → IsLine plan l → x < count_of plan (run plan (opening plan) events) l
        → sound l x ≡ true }
    ensures found { (plan : FlightRows) → IsFlight plan → (sound : Line → ℕ → Bool) → IsSoundness plan sound
        → (events : List Event) → AllReady plan (opening plan) events
        → (u : ℕ) → IsReady plan (run plan (opening plan) events) (Fault u) → IsFirstBad plan sound u }
    ensures least { (plan : FlightRows) → IsFlight plan → (sound : Line → ℕ → Bool) → IsSoundness plan sound
        → (events : List Event) → AllReady plan (opening plan) events
        → IfSome (run plan (opening plan) events).least (λ u. IsFirstBad plan sound u) }
{}
