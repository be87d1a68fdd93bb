//! Slice segments.

ghost use Rattle.std.specs.Prelude.{◌≡◌, ◌≤◌, [], None, Some, IfSome, Ok, IfOk, OnOk, OnErr, length};
ghost use Rattle.plan_types.specs.declared.picture_plan.PicturePlan.{PicturePlan};
ghost use Rattle.spec_nal_units.specs.Judged.{unit_of};
ghost use Rattle.plan_types.specs.declared.between.Between.{Between};
ghost use Rattle.spec_picture_plan.specs.Steps.{close, closing, first_flag, goes_on, slice_judged, slice_step};
ghost use Rattle.picture_headers.specs.Bounds.{KeepsFew};
ghost use Rattle.picture_plan.specs.Bounds.{ChangesFew};
ghost use Rattle.picture_plan.specs.Changes.{Closes, IsNextSegment, applied, one_more};
ghost use Rattle.picture_plan.specs.Taken.{left_by, taken};

use crate::change::{Change, Closing, stop_at};
use crate::state::State;
use crate::step::Step;
use crate::unit_kinds::is_rasl;
use header_types::Former;
use hv_base::{Nal, Refusal};
use picture_headers::{first_flag, judge_header, open_picture, segment_of};
use plan_types::{PicturePlan, SegmentPlan};
use std::alloc::AllocError;

impl State {
    /// Plans a slice segment: of a dropped picture it closes the open one and isn't read; one that begins a picture
    /// closes the open one first.
    #[tactic(auto, unfolding(spec_picture_plan::specs::Steps::slice_step))]
    pub(crate) fn plan_slice(&mut self, nal: Nal) -> Result<Step, AllocError>
        ensures value { IfOk result
            (λ step. left_by step self.new ≡ taken self.old (slice_step self.old.between (unit_of nal))) }
        ensures err { OnErr result (self.new ≡ self.old) }
    {
        let dropped = is_rasl(nal.nal_type) & self.between.drops_rasl;
        if dropped {
            self.close()
        } else if goes_on(first_flag(nal.rbsp.as_slice())) {
            self.go_on_or_open(nal)
        } else {
            self.open_slice(nal)
        }
    }

    /// Plans a slice segment that goes on with a picture, if one is open.
    #[tactic(auto, unfolding(spec_picture_plan::specs::Steps::close))]
    fn go_on_or_open(&mut self, nal: Nal) -> Result<Step, AllocError>
        ensures value { IfOk result (λ step. left_by step self.new
            ≡ taken self.old (record { closed = []; next = slice_judged (unit_of nal) self.old.between })) }
        ensures err { OnErr result (self.new ≡ self.old) }
    {
        match &self.between.picture {
            None => self.open_slice(nal),
            Some(_) => self.go_on(nal),
        }
    }

    /// Plans a slice segment that goes on with the open picture.
    fn go_on(&mut self, nal: Nal) -> Result<Step, AllocError>
        requires open { self.old.between.picture ≡ None → ⊥ }
        ensures value { IfOk result (λ step. left_by step self.new
            ≡ taken self.old (record { closed = []; next = slice_judged (unit_of nal) self.old.between })) }
        ensures err { OnErr result (self.new ≡ self.old) }
    {
        let index = nal.index;
        match self.next_segment(nal) {
            Ok(segment) => {
                add_segment(&mut self.between.picture, segment)?;
                Ok(Step::only(None))
            }
            Err(refusal) => Ok(Step::only(Some(stop_at(index, refusal)?))),
        }
    }

    /// A slice segment behind those of the open picture.
    #[tactic(auto, unfolding(spec_picture_plan::specs::Steps::continuing))]
    fn next_segment(&self, nal: Nal) -> Result<SegmentPlan, Refusal>
        requires open { self.now.between.picture ≡ None → ⊥ }
        ensures { IsNextSegment result self.now.between (unit_of nal) }
    {
        let (alloc, between) = (self.alloc, &self.between);
        let picture = between.picture.as_ref().unwrap();
        let segments = picture.segments.as_slice();
        let header = judge_header(alloc, &between.sets, &between.former, segments, &nal)?;
        let dpb = between.former.dpb.as_slice();
        Ok(segment_of(alloc, segments, dpb, &picture.rps, nal, header)?)
    }

    /// Plans a slice segment that begins a picture, or has none to go on with.
    fn open_slice(&mut self, nal: Nal) -> Result<Step, AllocError>
        ensures value { IfOk result
            (λ step. left_by step self.new ≡ taken self.old (closing self.old.between (slice_judged (unit_of nal)))) }
        ensures err { OnErr result (self.new ≡ self.old) }
    {
        let how = self.closing()?;
        let change = self.judge_behind(&how, nal)?;
        self.close_by(how, change)
    }

    /// Judges a slice segment as it stands once the open picture is closed so.
    fn judge_behind(&self, how: &Closing, nal: Nal) -> Result<Change, AllocError>
        requires { Closes how.now self.now.between }
        ensures value { IfOk result (λ change. (t : Between) → (close self.now.between).next ≡ Ok t
            → applied t change ≡ slice_judged (unit_of nal) t) }
        ensures few { IfOk result ChangesFew }
    {
        match how {
            Closing::Nothing => self.judge_opening(&self.between.former, nal),
            Closing::Broken(_) => Ok(Change::Nothing),
            Closing::Over(former) => self.judge_opening(former, nal),
        }
    }

    /// Judges a slice segment while no picture is open, and this is left to its picture.
    #[tactic(auto, unfolding(spec_picture_plan::specs::Steps::slice_judged))]
    pub(crate) fn judge_opening(&self, former: &Former, nal: Nal) -> Result<Change, AllocError>
        requires few { length former.now.dpb ≤ 16 }
        ensures value { IfOk result (λ change. (t : Between) → t.sets ≡ self.now.between.sets → t.former ≡ former.now
            → t.picture ≡ None → applied t change ≡ slice_judged (unit_of nal) t) }
        ensures few { IfOk result ChangesFew }
    {
        let index = nal.index;
        match open_picture(self.alloc, &self.between.sets, former, nal) {
            Ok(picture) => Ok(Change::Opened(picture)),
            Err(refusal) => Ok(Change::Stop(stop_at(index, refusal)?)),
        }
    }
}

/// Whether a slice segment goes on with the open picture: its first bit is 0.
fn goes_on(flag: Option<bool>) -> bool
    ensures { result ≡ goes_on flag }
{
    flag == Some(false)
}

/// Adds a segment to a picture. After want of memory it is as before.
fn add_segment(picture: &mut Option<PicturePlan>, segment: SegmentPlan) -> Result<(), AllocError>
    ensures ok { (p : PicturePlan) → picture.old ≡ Some p → OnOk result (picture.new ≡ Some (one_more p segment)) }
    ensures kept { IfSome picture.old KeepsFew → IfSome picture.new KeepsFew }
    ensures err { OnErr result (picture.new ≡ picture.old) }
{
    match picture {
        None => Ok(()),
        Some(picture) => picture.segments.push(segment),
    }
}
