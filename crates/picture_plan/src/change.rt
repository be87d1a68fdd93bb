//! What judging a unit finds, before anything is changed.

ghost use Rattle.std.specs.Prelude.{◌≡◌, IfOk};
ghost use Rattle.spec_picture_plan.specs.Steps.{begun, drops_after};
ghost use Rattle.picture_plan.specs.Bounds.{ChangesFew, IsBetween};
ghost use Rattle.picture_plan.specs.Changes.{Stops, applied, next_of};

use header_types::{Former, Pps, Shared, Sps};
use hv_base::{Fault, Limit, Refusal, Stop};
use picture_headers::is_irap;
use plan_types::{Between, PicturePlan};
use slice_types::PictureKind;
use std::alloc::AllocError;

/// How a unit closes the open picture.
#[derive(Drop)]
pub(crate) enum Closing {
    /// No picture is open.
    Nothing,
    /// It breaks a rule that is judged once all its slice segments are there.
    Broken(Fault),
    /// It is over, and leaves this to the next one.
    Over(Former),
}

/// What a unit changes once it has closed the open picture, or that the stream stops there.
#[derive(Drop)]
pub(crate) enum Change {
    /// Nothing.
    Nothing,
    /// A sequence parameter set is accepted.
    SequenceSet(Shared<Sps>),
    /// A picture parameter set is accepted.
    PictureSet(Shared<Pps>),
    /// The sequence ends.
    SequenceEnd,
    /// A picture begins, with the unit as its first slice segment.
    Opened(PicturePlan),
    /// The stream stops.
    Stop(Stop),
}

/// What stops the stream where the unit of this number is refused so.
pub(crate) fn stop_at(nal: u32, refusal: Refusal) -> Result<Stop, AllocError>
    ensures { IfOk result (λ stop. Stops nal refusal stop) }
{
    match refusal {
        Refusal::Memory => Err(AllocError),
        Refusal::Fault(kind) => Ok(Stop::Fault(Fault {
            kind,
            nal,
            ctu: None,
        })),
        Refusal::Limit(kind) => Ok(Stop::Limit(Limit { kind, nal })),
    }
}

/// Changes what is known between two units, or tells what stops the stream.
pub(crate) fn apply(between: &mut Between, change: Change) -> Option<Stop>
    ensures value { next_of result between.new ≡ applied between.old change }
    ensures kept { IsBetween between.old → ChangesFew change → IsBetween between.new }
{
    match change {
        Change::Nothing => {}
        Change::SequenceSet(sps) => between.sets.put_sps(sps),
        Change::PictureSet(pps) => between.sets.put_pps(pps),
        Change::SequenceEnd => {
            between.former.first_in_sequence = true;
            between.drops_rasl = false;
        }
        Change::Opened(picture) => open(between, picture),
        Change::Stop(stop) => return Some(stop),
    }
    None
}

/// Goes on behind the first slice segment of a picture.
fn open(between: &mut Between, picture: PicturePlan)
    ensures { between.new ≡ begun between.old picture }
{
    between.drops_rasl = drops_after(between.drops_rasl, picture.kind);
    between.picture = Some(picture);
}

/// Whether random access skipped leading pictures are dropped behind a picture of this kind.
fn drops_after(before: bool, kind: PictureKind) -> bool
    ensures { result ≡ drops_after before kind }
{
    if is_irap(kind.nal_type) {
        kind.no_rasl_output_flag
    } else {
        before
    }
}
