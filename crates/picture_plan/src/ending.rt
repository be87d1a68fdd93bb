//! What the end of the input gives.

ghost use Rattle.std.specs.Prelude.{◌≡◌, IfOk, OnErr};
ghost use Rattle.spec_picture_plan.specs.Planned.{last_of};
ghost use Rattle.spec_picture_plan.specs.Steps.{close};
ghost use Rattle.picture_plan.specs.Changes.{Closes};
ghost use Rattle.picture_plan.specs.Taken.{left_by, taken};

use crate::change::Closing;
use crate::state::State;
use crate::step::Step;
use header_types::FieldList;
use picture_headers::last_outputs;
use std::alloc::AllocError;

/// What closing the open picture gives at the end of the input, and which pictures go out then.
#[derive(Drop)]
pub(crate) struct Ending {
    /// The flights that end, and what stops the stream.
    pub step: Step,
    /// The pictures that go out, in output order, by their places in the buffer.
    pub last: FieldList<u32>,
}

impl State {
    /// Closes the open picture at the end of the input. After want of memory all is as before.
    pub(crate) fn end_input(&mut self) -> Result<Ending, AllocError>
        ensures value { IfOk result (λ e. left_by e.step self.new ≡ taken self.old (close self.old.between)) }
        ensures last { IfOk result (λ e. e.last ≡ last_of (close self.old.between).next) }
        ensures err { OnErr result (self.new ≡ self.old) }
    {
        let how = self.closing()?;
        let last = self.last_behind(&how)?;
        let step = self.close_as(how)?;
        Ok(Ending { step, last })
    }

    /// The pictures that go out where the input ends and the open picture is closed so.
    fn last_behind(&self, how: &Closing) -> Result<FieldList<u32>, AllocError>
        requires { Closes how.now self.now.between }
        ensures { IfOk result (λ last. last ≡ last_of (close self.now.between).next) }
    {
        match how {
            Closing::Nothing => last_outputs(self.alloc, self.between.former.dpb.as_slice()),
            Closing::Broken(_) => Ok(FieldList::new(self.alloc)),
            Closing::Over(former) => last_outputs(self.alloc, former.dpb.as_slice()),
        }
    }
}
