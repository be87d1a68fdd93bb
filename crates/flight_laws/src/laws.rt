//! Laws of what a planner gives over a stream of units.

ghost use Rattle.std.specs.Prelude.{◌≡◌, ℕ, ◌≤◌, All, Bool, true, false, List, ◌++◌, Some, Ok, Err};
ghost use Rattle.hv_base.specs.declared.refusal.Stop.{Stop};
ghost use Rattle.plan_types.specs.declared.between.Between.{Between};
ghost use Rattle.spec_nal_units.specs.Judged.{Told, told_of};
ghost use Rattle.nal_stream.specs.declared.answer.Next.{Next};
ghost use Rattle.nal_stream.specs.Framing.{History, IsNext};
ghost use Rattle.spec_picture_plan.specs.Pictures.{beginning};
ghost use Rattle.spec_picture_plan.specs.Planned.{planned_from, planned_of};
ghost use Rattle.plan_laws.specs.Plans.{IsPlan};
ghost use Rattle.flight_laws.specs.Calls.{AreAllGiven, AreGiven, AreMaximal, over, planned_behind, still, with_pending};
ghost use Rattle.picture_plan.specs.Flights.{pictures_of};
ghost use Rattle.picture_plan.specs.Plans.{Plans, at_end, halted};
ghost use Rattle.flight_laws.specs.Runs.{AreFlights, ArePlanned, new_plans, run};
ghost use Rattle.flight_laws.specs.Stops.{Answers, AreCalls, FramerCall, GiveNothing, IsStop, IsStopped, PlannerCall};
ghost use Rattle.flight_laws.specs.Stops.{given_by, has_stopped};

/// The flights over units that have come so far, and the pictures that then wait, hold the pictures that waited before
/// and then those that are planned, in the same order; and the same stops the stream.
pub fn flights_so_far_are_the_pictures()
    ensures { (p : Plans) (told : List Told)
        → AreGiven p.pending (over still p told) (planned_behind false p.next told) }
{}

/// The flights over all units of an input hold the pictures that are planned, in the same order, the same pictures go
/// out at the end, and the same stops the stream: over a whole input (`whole`), and behind pictures that already waited
/// (`behind`).
pub fn flights_are_the_pictures()
    ensures whole { (ahead : ℕ) (told : List Told)
        → ArePlanned (run (new_plans ahead) told) (planned_from true beginning told) }
    ensures behind { (p : Plans) (told : List Told)
        → AreAllGiven p.pending (over at_end p told) (planned_behind true p.next told) }
{}

/// Where no more units come though the input hasn't ended, the flights hold the pictures that waited before and then
/// those that are over, in the same order; and the same stops the stream.
pub fn halted_flights_are_the_pictures()
    ensures { (p : Plans) (told : List Told)
        → AreAllGiven p.pending (over halted p told) (planned_behind false p.next told) }
{}

/// No flight could have taken the next picture: it is full, or that picture is of another sequence parameter set. So it
/// is of all flights over a stream of units and of the pictures that wait behind them.
pub fn flights_are_maximal()
    ensures so_far { (p : Plans) (told : List Told) → AreMaximal p.ahead (with_pending (over still p told)) }
    ensures finished { (p : Plans) (told : List Told) → AreMaximal p.ahead (with_pending (over at_end p told)) }
    ensures halted { (p : Plans) (told : List Told) → AreMaximal p.ahead (with_pending (over halted p told)) }
{}

/// Each flight has one to `ahead` pictures, all of one sequence parameter set.
pub fn flights_are_of_one_set()
    ensures { (ahead : ℕ) (told : List Told) → 1 ≤ ahead → AreFlights ahead (run (new_plans ahead) told).flights }
{}

/// Each picture of the flights is in range.
pub fn flights_are_in_range()
    ensures { (ahead : ℕ) (told : List Told) → All IsPlan (pictures_of (run (new_plans ahead) told).flights) }
{}

/// Stops are for good: once a rule is broken or a limit met, no later byte, unit or end of the input changes that.
///
/// - `framing`: what the front of an input is told as up to a broken rule or a limit is what the whole input is told
///   as.
/// - `framer`: once a framer's next answer is a fault or a limit, `feed`, `finish` and `next` in any order leave it so:
///   each later answer of `next` is that one.
/// - `planning`, `units`: what stops planning in the front of an input, or behind some units, stops it in the whole
///   input, behind the same pictures, and nothing goes out at the end.
/// - `stops`: where a call stops a planner, no picture waits for its flight's end.
/// - `planner`: each later call of `unit`, `finish` and `halt` gives nothing then, and leaves the planner as it was,
///   with the same stop, which is what it tells.
pub fn stops_are_for_good()
    ensures framing { (front rest : List ℕ) (ended : Bool) → has_stopped (told_of false front) ≡ true
        → told_of ended (front ++ rest) ≡ told_of false front }
    ensures framer { (h : History) (n : Next) (calls : List FramerCall) → IsStop n → IsNext h n → AreCalls h calls
        → All (Answers n) calls }
    ensures planning { (front rest : List ℕ) (ended : Bool) (e : Stop) → (planned_of false front).stop ≡ Some e
        → planned_of ended (front ++ rest) ≡ planned_of false front }
    ensures units { (s : Between) (told later : List Told) (ended : Bool) (e : Stop)
        → (planned_from false s told).stop ≡ Some e
        → planned_from ended s (told ++ later) ≡ planned_from false s told }
    ensures stops { (p : Plans) (call : PlannerCall) (s : Between) (e : Stop) → p.next ≡ Ok s
        → (given_by p call).left.next ≡ Err e → IsStopped e (given_by p call).left }
    ensures planner { (p : Plans) (e : Stop) (calls : List PlannerCall) → IsStopped e p → GiveNothing p calls }
{}
