//! Which pictures are decoded together.

ghost use Rattle.std.specs.Prelude.{◌≡◌, [], OnOk, OnErr, IfErr, IfOk};
ghost use Rattle.picture_plan.specs.Flights.{cut, cut_full, goes_on_with, joined_with, some_flight, waiting};
ghost use Rattle.picture_plan.specs.Flights.{with_picture};
ghost use Rattle.picture_plan.specs.Taken.{ended_by};

use crate::flight::{Ended, Flight};
use crate::state::State;
use header_types::SpsFields;
use plan_types::PicturePlan;
use std::alloc::Global;
use std::mem;

impl Flight {
    /// Adds a picture to those that wait for their flight's end, and gives the flights that end so. Where there is no
    /// memory for it the picture comes back, and nothing has changed.
    #[tactic(auto, unfolding(crate::specs::Flights::with_picture))]
    pub(crate) fn add(
        &mut self,
        alloc: Global,
        ahead: u32,
        picture: PicturePlan,
    ) -> Result<Ended, PicturePlan>
        ensures flights { IfOk result
            (λ ended. ended_by ended ≡ (with_picture ahead (waiting self.old) picture).flights) }
        ensures pending { OnOk result (self.new ≡ (with_picture ahead (waiting self.old) picture).pending) }
        ensures err { OnErr result (self.new ≡ self.old) }
        ensures back { IfErr result (λ p. p ≡ picture) }
    {
        let changed = self.join(alloc, picture)?;
        let full = self.cut_full(alloc, ahead);
        Ok(Ended { changed, full })
    }

    /// Puts a picture behind the pending ones, and ends their flight before it where it is of another sequence
    /// parameter set.
    #[tactic(auto, unfolding(crate::specs::Flights::joined_with))]
    fn join(&mut self, alloc: Global, picture: PicturePlan) -> Result<Option<Flight>, PicturePlan>
        ensures flights { IfOk result
            (λ changed. some_flight changed ≡ (joined_with (waiting self.old) picture).flights) }
        ensures pending { OnOk result (self.new ≡ (joined_with (waiting self.old) picture).pending) }
        ensures err { OnErr result (self.new ≡ self.old) }
        ensures back { IfErr result (λ p. p ≡ picture) }
    {
        if goes_on_with(self, picture.sps.fields()) {
            self.push(picture)?;
            return Ok(None);
        }
        let mut pending = Flight::new(alloc);
        pending.push(picture)?;
        let changed = self.cut(alloc);
        *self = pending;
        Ok(changed)
    }

    /// Ends the pending flight where it has as many pictures as a flight may have.
    fn cut_full(&mut self, alloc: Global, ahead: u32) -> Option<Flight>
        ensures flight { some_flight result ≡ (cut_full ahead (waiting self.old)).flights }
        ensures pending { self.new ≡ (cut_full ahead (waiting self.old)).pending }
    {
        if self.len() >= ahead as usize {
            self.cut(alloc)
        } else {
            None
        }
    }

    /// Ends the flight that is pending, if one is.
    pub(crate) fn cut(&mut self, alloc: Global) -> Option<Flight>
        ensures flight { some_flight result ≡ (cut (waiting self.old)).flights }
        ensures pending { self.new ≡ (cut (waiting self.old)).pending }
        ensures none { self.new ≡ [] }
    {
        match self.as_slice() {
            [] => None,
            [_, ..] => Some(mem::replace(self, Flight::new(alloc))),
        }
    }
}

impl State {
    /// Ends the flight that is pending, if one is.
    pub(crate) fn cut(&mut self) -> Option<Flight>
        ensures flight { some_flight result ≡ (cut (waiting self.old.pending)).flights }
        ensures left { self.new ≡ record self.old { pending = [] } }
    {
        self.pending.cut(self.alloc)
    }
}

/// Whether a picture of this sequence parameter set goes on with these pictures.
fn goes_on_with(pending: &Flight, sps: &SpsFields) -> bool
    ensures { result ≡ goes_on_with pending.now sps.now }
{
    match pending.as_slice() {
        [] => true,
        [first, ..] => *first.sps.fields() == *sps,
    }
}
