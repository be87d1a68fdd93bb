//! What a flight still has to do: whether it has ended, and an event that is ready where it hasn't.

ghost use Rattle.std.specs.Prelude.{◌≡◌, ◌<◌, ◌↔◌, IsTrue, IfSome, None, Some};
ghost use Rattle.flight_plan.specs.Flight.{IsFlight};
ghost use Rattle.hv_base.specs.declared.line.Line.{Line};
ghost use Rattle.board_core.specs.Places.{IsLine, lines_of, ticket_of};
ghost use Rattle.board_core.specs.States.{count_of, IsBefore, IsReady};
ghost use Rattle.board_core.specs.Runs.{IsBeforeFault, IsEnded, IsUnfinished};
ghost use Rattle.board_core.specs.Progress.{AreDone, IsLeft};

use super::Core;
use crate::event::Event;
use hv_base::{Line, Phase, UnitNumber};

impl<'a> Core<'a> {
    /// Whether the list of events has ended: no unit before the least fault is uncounted.
    #[tactic(auto, using(crate::proofs::Progress::ended_done, crate::proofs::Progress::left_not_ended))]
    pub fn done(&self) -> bool
        ensures { IsTrue result ↔ IsEnded self.now.plan self.now.state }
    {
        self.first_left().is_none()
    }

    /// An event that may be taken: of the line with the earliest ticket that has a unit to count before the least
    /// fault. `None` exactly where no such line is left.
    pub fn some_ready(&self) -> Option<Event>
        ensures ready { IfSome result (λ e. IsReady self.now.plan self.now.state e) }
        ensures before { IfSome result (λ e. IsBeforeFault self.now.plan self.now.state e) }
        ensures draw { result ≡ Some Event.Draw → (l : Line) → ¬ IsUnfinished self.now.plan self.now.state l }
        ensures none { result ≡ None ↔ IsEnded self.now.plan self.now.state }
    {
        match self.first_left() {
            Some(line) => Some(self.next_event(line)),
            None => None,
        }
    }

    /// The next event of the first line that is left: the line is drawn, its next unit parsed or built, or the line
    /// filtered.
    fn next_event(&self, line: Line) -> Event
        requires line { IsLine self.now.plan line }
        requires left { IsLeft self.now.plan self.now.state line }
        requires earlier { AreDone self.now.plan self.now.state (ticket_of self.now.plan line) }
        ensures ready { IsReady self.now.plan self.now.state result }
        ensures before { IsBeforeFault self.now.plan self.now.state result }
        ensures draw { result ≡ Event.Draw → (l : Line) → ¬ IsUnfinished self.now.plan self.now.state l }
    {
        if self.places.ticket(line) >= self.drawn {
            Event::Draw
        } else if line.phase == Phase::B {
            self.unit_event(line)
        } else {
            self.filter_event(line)
        }
    }

    /// The event of a drawn filter line.
    #[tactic(auto, using(crate::proofs::Progress::filter_before))]
    fn filter_event(&self, line: Line) -> Event
        requires line { IsLine self.now.plan line }
        requires phase { ¬ (line.phase ≡ Phase.B) }
        requires drawn { ticket_of self.now.plan line < self.now.state.drawn }
        requires left { IsLeft self.now.plan self.now.state line }
        requires earlier { AreDone self.now.plan self.now.state (ticket_of self.now.plan line) }
        ensures ready { IsReady self.now.plan self.now.state result }
        ensures before { IsBeforeFault self.now.plan self.now.state result }
        ensures unit { ¬ (result ≡ Event.Draw) }
    {
        Event::Filter(line)
    }

    /// The next event of a drawn B line.
    fn unit_event(&self, line: Line) -> Event
        requires line { IsLine self.now.plan line }
        requires phase { line.phase ≡ Phase.B }
        requires drawn { ticket_of self.now.plan line < self.now.state.drawn }
        requires left { IsLeft self.now.plan self.now.state line }
        requires earlier { AreDone self.now.plan self.now.state (ticket_of self.now.plan line) }
        ensures ready { IsReady self.now.plan self.now.state result }
        ensures before { IsBeforeFault self.now.plan self.now.state result }
        ensures unit { ¬ (result ≡ Event.Draw) }
    {
        let x = self.count(line);
        let unit = self.places.unit(line, x);
        let _pictures = self.plan().pictures();
        if self.is_flagged(line) {
            Event::Build(line, x)
        } else if self.is_bad(unit) {
            Event::Fault(unit)
        } else {
            Event::Read(line, x)
        }
    }

    /// The line with the earliest ticket that has a unit to count before the least fault.
    fn first_left(&self) -> Option<Line>
        ensures line { IfSome result (λ l. IsLine self.now.plan l) }
        ensures left { IfSome result (λ l. IsLeft self.now.plan self.now.state l) }
        ensures earlier { IfSome result (λ l. AreDone self.now.plan self.now.state (ticket_of self.now.plan l)) }
        ensures none { result ≡ None → AreDone self.now.plan self.now.state (lines_of self.now.plan) }
    {
        for ticket in 0..self.lines() {
            let line = self.line_at(ticket);
            if self.is_left(line) {
                return Some(line);
            }
        }
        None
    }

    fn lines(&self) -> usize
        ensures { result ≡ lines_of self.now.plan }
    {
        self.places.lines()
    }

    fn line_at(&self, ticket: usize) -> Line
        requires { ticket < lines_of self.now.plan }
        ensures line { IsLine self.now.plan result }
        ensures value { ticket_of self.now.plan result ≡ ticket }
    {
        self.places.line_at(ticket)
    }

    /// Whether the line has a unit to count before the least fault.
    fn is_left(&self, line: Line) -> bool
        requires { IsLine self.now.plan line }
        ensures { IsTrue result ↔ IsLeft self.now.plan self.now.state line }
    {
        let x = self.count(line);
        x < self.places.full_count(line) && self.is_before_fault(self.places.unit(line, x))
    }

    fn is_before_fault(&self, unit: UnitNumber) -> bool
        ensures { IsTrue result ↔ IsBefore unit self.now.state.least }
    {
        match self.least {
            Some(fault) => unit < fault,
            None => true,
        }
    }
}
