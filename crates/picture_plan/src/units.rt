//! Plans one unit after the other.

ghost use Rattle.std.specs.Prelude.{◌≡◌, IfOk, OnErr};
ghost use Rattle.spec_nal_units.specs.Judged.{unit_of};
ghost use Rattle.spec_picture_plan.specs.SpecParameterSets.{picture_parameter_set_of};
ghost use Rattle.spec_picture_plan.specs.SpecParameterSets.{sequence_parameter_set_of};
ghost use Rattle.plan_types.specs.declared.between.Between.{Between};
ghost use Rattle.spec_picture_plan.specs.declared.unit_kind.UnitKind.TheVariants as unit;
ghost use Rattle.spec_picture_plan.specs.Steps.{behind_read, kind_step, put_pps, put_sps, unit_step};
ghost use Rattle.nal_stream.specs.Answers.{told_by};
ghost use Rattle.picture_plan.specs.Bounds.{ChangesFew};
ghost use Rattle.picture_plan.specs.Changes.{applied};
ghost use Rattle.picture_plan.specs.Taken.{left_by, taken};
ghost use Rattle.picture_plan.specs.Plans.{stepped};

use crate::change::{Change, stop_at};
use crate::state::State;
use crate::step::Step;
use crate::unit_kinds::kind_of_type;
use header_types::Shared;
use hv_base::{Nal, Stop};
use nal_stream::Next;
use picture_headers::{read_pps, read_sps};
use spec_picture_plan::UnitKind;
use std::alloc::{AllocError, Global};

impl State {
    /// Plans what the framer answers: a unit, or what stops the stream behind the open picture. After want of memory
    /// all is as before.
    #[tactic(auto, unfolding(spec_picture_plan::specs::Steps::step))]
    pub(crate) fn plan_next(&mut self, next: Next) -> Result<Step, AllocError>
        ensures value { IfOk result
            (λ step. left_by step self.new ≡ taken self.old (stepped self.old.between (told_by next))) }
        ensures err { OnErr result (self.new ≡ self.old) }
    {
        match next {
            Next::Unit(nal) => self.plan_unit(nal),
            Next::Fault(fault) => self.close_then(Change::Stop(Stop::Fault(fault))),
            Next::Limit(limit) => self.close_then(Change::Stop(Stop::Limit(limit))),
            Next::More | Next::End => Ok(Step::only(None)),
        }
    }

    /// Plans a unit: those of a layer above the base are passed over.
    #[tactic(auto, unfolding(spec_picture_plan::specs::Steps::unit_step))]
    fn plan_unit(&mut self, nal: Nal) -> Result<Step, AllocError>
        ensures value { IfOk result
            (λ step. left_by step self.new ≡ taken self.old (unit_step self.old.between (unit_of nal))) }
        ensures err { OnErr result (self.new ≡ self.old) }
    {
        if nal.layer > 0 {
            return Ok(Step::only(None));
        }
        let kind = kind_of_type(nal.nal_type);
        self.plan_kind(nal, kind)
    }

    /// Plans a unit of a kind.
    fn plan_kind(&mut self, nal: Nal, kind: UnitKind) -> Result<Step, AllocError>
        ensures value { IfOk result
            (λ step. left_by step self.new ≡ taken self.old (kind_step self.old.between (unit_of nal) kind)) }
        ensures err { OnErr result (self.new ≡ self.old) }
    {
        match kind {
            UnitKind::Slice => self.plan_slice(nal),
            UnitKind::SequenceSet => self.plan_sps(&nal),
            UnitKind::PictureSet => self.plan_pps(&nal),
            UnitKind::SequenceEnd => self.close_then(Change::SequenceEnd),
            UnitKind::Border => self.close(),
            UnitKind::SuffixInformation => self.plan_suffix(&nal),
            UnitKind::Other => Ok(Step::only(None)),
        }
    }

    /// Plans a sequence parameter set.
    fn plan_sps(&mut self, nal: &Nal) -> Result<Step, AllocError>
        ensures value { IfOk result (λ step. left_by step self.new
            ≡ taken self.old (kind_step self.old.between (unit_of nal.now) unit.SequenceSet)) }
        ensures err { OnErr result (self.new ≡ self.old) }
    {
        let change = judge_sps(self.alloc, nal)?;
        self.close_then(change)
    }

    /// Plans a picture parameter set.
    fn plan_pps(&mut self, nal: &Nal) -> Result<Step, AllocError>
        ensures value { IfOk result (λ step. left_by step self.new
            ≡ taken self.old (kind_step self.old.between (unit_of nal.now) unit.PictureSet)) }
        ensures err { OnErr result (self.new ≡ self.old) }
    {
        let change = judge_pps(self.alloc, nal)?;
        self.close_then(change)
    }
}

/// Judges a sequence parameter set, wherever it stands.
fn judge_sps(alloc: Global, nal: &Nal) -> Result<Change, AllocError>
    ensures value { IfOk result (λ change. (t : Between)
        → applied t change ≡ behind_read nal.now.index (sequence_parameter_set_of nal.now.rbsp) (put_sps t)) }
    ensures few { IfOk result ChangesFew }
{
    match read_sps(alloc, nal.rbsp.as_slice()) {
        Ok(sps) => Ok(Change::SequenceSet(Shared::new(alloc, sps)?)),
        Err(refusal) => Ok(Change::Stop(stop_at(nal.index, refusal)?)),
    }
}

/// Judges a picture parameter set, wherever it stands.
fn judge_pps(alloc: Global, nal: &Nal) -> Result<Change, AllocError>
    ensures value { IfOk result (λ change. (t : Between)
        → applied t change ≡ behind_read nal.now.index (picture_parameter_set_of nal.now.rbsp) (put_pps t)) }
    ensures few { IfOk result ChangesFew }
{
    match read_pps(alloc, nal.rbsp.as_slice()) {
        Ok(pps) => Ok(Change::PictureSet(Shared::new(alloc, pps)?)),
        Err(refusal) => Ok(Change::Stop(stop_at(nal.index, refusal)?)),
    }
}
