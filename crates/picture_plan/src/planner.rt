//! Plans the pictures of a stream, unit by unit.

ghost use Rattle.std.specs.Prelude.{◌≡◌, ◌≤◌, ◌++◌, [], Ok, Some, OnErr, IfOk, length};
ghost use Rattle.spec_picture_plan.specs.Pictures.{beginning};
ghost use Rattle.nal_stream.specs.Answers.{told_by};
ghost use Rattle.picture_plan.specs.Flights.{some_flight};
ghost use Rattle.picture_plan.specs.Plans.{at_end, behind_unit, halted, stop_of};
ghost use Rattle.picture_plan.specs.Taken.{ended_by};

use crate::flight::{Flight, Flights};
use crate::state::State;
use crate::step::Step;
use header_types::FieldList;
use hv_base::Stop;
use nal_stream::Next;
use std::alloc::{AllocError, Global};
use std::marker::Model;

/// What a call of a planner gives.
#[derive(Debug, Drop)]
pub struct Planned {
    /// The flights that ended, in decoding order.
    pub flights: Flights,
    /// Where the input ended and nothing stopped it, the pictures that go out then, in output order: each by its place
    /// in the decoded picture buffer behind the last picture. None in other calls.
    pub last: FieldList<u32>,
    /// What stops the stream behind them, where something does.
    pub stop: Option<Stop>,
}

/// The pictures of a stream as its units come. Contracts see what it holds.
#[derive(Drop)]
pub struct Planner {
    state: State,
    stopped: Option<Stop>,
}

impl Model for Planner {
    ghost use Rattle.picture_plan.specs.Plans.{Plans};
    ghost use Rattle.picture_plan.specs.Taken.{held};

    ghost Value = { Plans };

    ghost view = { λ p. held p.stopped p.state };
}

impl Planner {
    /// A planner of flights of at most `ahead` pictures, before the first unit. Whether stated picture hashes are to be
    /// compared changes nothing: they are planned, and not judged.
    pub fn new(alloc: Global, ahead: u32, _hash: bool) -> Result<Planner, AllocError>
        requires some { 1 ≤ ahead }
        requires few { ahead ≤ 16 }
        ensures { IfOk result (λ p. p ≡ record { ahead = ahead; pending = []; next = Ok beginning }) }
    {
        Ok(Planner {
            state: State::new(alloc, ahead)?,
            stopped: None,
        })
    }

    /// How many pictures wait for their flight's end.
    pub fn waiting(&self) -> usize
        ensures { result ≡ length self.now.pending }
    {
        self.state.pending.len()
    }

    /// Plans the next unit, or what the framer answers in its place: the flights that end so, and what stops the
    /// stream. Behind a stop each call gives no flight and the same stop. After want of memory the planner is as
    /// before.
    #[tactic(auto, unfolding(crate::specs::Plans::behind_unit))]
    pub fn unit(&mut self, next: Next) -> Result<Planned, AllocError>
        ensures value { IfOk result (λ planned. behind_unit self.old (told_by next)
            ≡ record { flights = planned.flights; last = planned.last; left = self.new }) }
        ensures stop { IfOk result (λ planned. planned.stop ≡ stop_of self.new.next) }
        ensures err { OnErr result (self.new ≡ self.old) }
    {
        let last = FieldList::new(self.state.alloc);
        if self.stopped.is_some() {
            return Ok(given(Step::only(self.stopped), None, last));
        }
        let step = self.state.plan_next(next)?;
        self.stopped = step.stop;
        let pending = match step.stop {
            None => None,
            Some(_) => self.state.cut(),
        };
        Ok(given(step, pending, last))
    }

    /// The input ends: the open picture is closed, all flights end, and the pictures that wait go out.
    #[tactic(auto, unfolding(crate::specs::Plans::at_end, crate::specs::Plans::halted))]
    pub fn finish(&mut self) -> Result<Planned, AllocError>
        ensures value { IfOk result
            (λ planned. at_end self.old ≡ record { flights = planned.flights; last = planned.last; left = self.new }) }
        ensures stop { IfOk result (λ planned. planned.stop ≡ stop_of self.new.next) }
        ensures err { OnErr result (self.new ≡ self.old) }
    {
        if self.stopped.is_some() {
            return Ok(self.halt());
        }
        let ending = self.state.end_input()?;
        self.stopped = ending.step.stop;
        let pending = self.state.cut();
        Ok(given(ending.step, pending, ending.last))
    }

    /// No more units come, though the input hasn't ended: the pending flight ends, and no picture is closed.
    #[tactic(auto, unfolding(crate::specs::Plans::halted))]
    pub fn halt(&mut self) -> Planned
        ensures value { halted self.old ≡ record { flights = result.flights; last = result.last; left = self.new } }
        ensures stop { result.stop ≡ stop_of self.new.next }
    {
        let last = FieldList::new(self.state.alloc);
        let pending = self.state.cut();
        given(Step::only(self.stopped), pending, last)
    }
}

/// What a step ended and the pending flight, if it ends too, and the pictures that go out at the end.
fn given(step: Step, pending: Option<Flight>, last: FieldList<u32>) -> Planned
    ensures flights { result.flights ≡ ended_by step.ended ++ some_flight pending }
    ensures last { result.last ≡ last }
    ensures stop { result.stop ≡ step.stop }
{
    let stop = step.stop;
    Planned {
        flights: Flights::new(step.ended, pending),
        last,
        stop,
    }
}
