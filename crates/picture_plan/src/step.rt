//! Closes the open picture, and changes what is known behind it.

ghost use Rattle.std.specs.Prelude.{◌≡◌, None, Ok, Result, IfOk, OnErr, OnOk};
ghost use Rattle.hv_base.specs.declared.refusal.Stop.{Stop};
ghost use Rattle.plan_types.specs.declared.between.Between.{Between};
ghost use Rattle.spec_picture_plan.specs.Steps.{close, closing};
ghost use Rattle.picture_plan.specs.declared.change.Closing.TheVariants as kind;
ghost use Rattle.picture_plan.specs.Bounds.{ChangesFew};
ghost use Rattle.picture_plan.specs.Changes.{Closes, applied, pictures_in};
ghost use Rattle.picture_plan.specs.Flights.{waiting, with_pictures};
ghost use Rattle.picture_plan.specs.Taken.{changed_behind, ended_by, left_by, taken};

use crate::change::{Change, Closing, apply};
use crate::flight::{Ended, Flight};
use crate::former::former_after;
use crate::state::State;
use header_types::Former;
use hv_base::Stop;
use picture_headers::broken_at_closing;
use plan_types::PicturePlan;
use std::alloc::{AllocError, Global};

/// The flights that a step ends, and what stops the stream behind it.
#[derive(Drop)]
pub(crate) struct Step {
    /// The flights that it ends.
    pub ended: Ended,
    /// What stops the stream behind it.
    pub stop: Option<Stop>,
}

impl Step {
    /// A step that ends no flight.
    pub(crate) fn only(stop: Option<Stop>) -> Step
        ensures { result ≡ record { ended = record { changed = None; full = None }; stop = stop } }
    {
        Step {
            ended: Ended {
                changed: None,
                full: None,
            },
            stop,
        }
    }
}

impl State {
    /// How the open picture is closed.
    #[tactic(auto, unfolding(spec_picture_plan::specs::Steps::close, spec_picture_plan::specs::Pictures::former_after))]
    pub(crate) fn closing(&self) -> Result<Closing, AllocError>
        ensures { IfOk result (λ how. Closes how self.now.between) }
    {
        let between = &self.between;
        match &between.picture {
            None => Ok(Closing::Nothing),
            Some(picture) => match broken_at_closing(picture) {
                Some(fault) => Ok(Closing::Broken(fault)),
                None => {
                    let former = former_after(self.alloc, &between.former, picture)?;
                    Ok(Closing::Over(former))
                }
            },
        }
    }

    /// The open picture is over, and leaves this to the next one. After want of memory all is as before.
    fn end_picture(&mut self, former: Former) -> Result<Ended, AllocError>
        requires { Closes (kind.Over former) self.old.between }
        ensures value { IfOk result (λ ended. left_by (record { ended = ended; stop = None }) self.new
            ≡ taken self.old (close self.old.between)) }
        ensures err { OnErr result (self.new ≡ self.old) }
    {
        let (alloc, ahead) = (self.alloc, self.ahead);
        let ended = end_open(alloc, ahead, &mut self.pending, &mut self.between.picture)?;
        self.between.former = former;
        Ok(ended)
    }

    /// Closes the open picture so, and changes nothing else. What may lack memory comes first, and then all is as
    /// before.
    pub(crate) fn close_as(&mut self, how: Closing) -> Result<Step, AllocError>
        requires { Closes how self.old.between }
        ensures value { IfOk result (λ step. left_by step self.new ≡ taken self.old (close self.old.between)) }
        ensures err { OnErr result (self.new ≡ self.old) }
    {
        match how {
            Closing::Nothing => Ok(Step::only(None)),
            Closing::Broken(fault) => Ok(Step::only(Some(Stop::Fault(fault)))),
            Closing::Over(former) => {
                let ended = self.end_picture(former)?;
                Ok(Step { ended, stop: None })
            }
        }
    }

    /// Changes what was judged behind a step, where that didn't stop the stream.
    fn change_behind(&mut self, step: Step, change: Change) -> Step
        requires { ChangesFew change }
        ensures { left_by result self.new ≡ changed_behind (left_by step self.old) change }
    {
        match step.stop {
            Some(_) => step,
            None => Step {
                ended: step.ended,
                stop: apply(&mut self.between, change),
            },
        }
    }

    /// Closes the open picture so, and then changes what was judged, or stops.
    pub(crate) fn close_by(&mut self, how: Closing, change: Change) -> Result<Step, AllocError>
        requires closes { Closes how self.old.between }
        requires few { ChangesFew change }
        ensures value { (f : Between → Result Between Stop)
            → ((t : Between) → (close self.old.between).next ≡ Ok t → applied t change ≡ f t)
            → IfOk result (λ step. left_by step self.new ≡ taken self.old (closing self.old.between f)) }
        ensures err { OnErr result (self.new ≡ self.old) }
    {
        let step = self.close_as(how)?;
        Ok(self.change_behind(step, change))
    }

    /// Closes the open picture, and then changes what was judged, or stops.
    pub(crate) fn close_then(&mut self, change: Change) -> Result<Step, AllocError>
        requires { ChangesFew change }
        ensures value { (f : Between → Result Between Stop)
            → ((t : Between) → (close self.old.between).next ≡ Ok t → applied t change ≡ f t)
            → IfOk result (λ step. left_by step self.new ≡ taken self.old (closing self.old.between f)) }
        ensures err { OnErr result (self.new ≡ self.old) }
    {
        let how = self.closing()?;
        self.close_by(how, change)
    }

    /// Closes the open picture alone.
    pub(crate) fn close(&mut self) -> Result<Step, AllocError>
        ensures value { IfOk result (λ step. left_by step self.new ≡ taken self.old (close self.old.between)) }
        ensures err { OnErr result (self.new ≡ self.old) }
    {
        let how = self.closing()?;
        self.close_as(how)
    }
}

/// Adds the open picture, if there is one, to those that wait for their flight's end, and gives the flights that end
/// so. After want of memory all is as before.
fn end_open(
    alloc: Global,
    ahead: u32,
    pending: &mut Flight,
    last: &mut Option<PicturePlan>,
) -> Result<Ended, AllocError>
    ensures flights { IfOk result
        (λ ended. ended_by ended ≡ (with_pictures ahead (waiting pending.old) (pictures_in last.old)).flights) }
    ensures pending { OnOk result
        (pending.new ≡ (with_pictures ahead (waiting pending.old) (pictures_in last.old)).pending) }
    ensures none { OnOk result (last.new ≡ None) }
    ensures err { OnErr result (pending.new ≡ pending.old) }
    ensures back { OnErr result (last.new ≡ last.old) }
{
    let Some(picture) = last.take() else {
        return Ok(Step::only(None).ended);
    };
    match pending.add(alloc, ahead, picture) {
        Ok(ended) => Ok(ended),
        Err(picture) => {
            *last = Some(picture);
            Err(AllocError)
        }
    }
}
