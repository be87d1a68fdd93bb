//! The headers of slice segments, in the place where they are judged.

ghost use Rattle.std.specs.Prelude.{◌≡◌, ◌<◌, ◌≤◌, [], length, IfOk};
ghost use Rattle.spec_bits.specs.Bits.{bits};
ghost use Rattle.spec_formats.specs.Fields.{Parses};
ghost use Rattle.spec_nal_units.specs.Judged.{unit_of};
ghost use Rattle.spec_picture_plan.specs.Steps.{first_flag, judged_header};

use header_types::{Former, Sets};
use hv_base::{FaultKind, LimitKind, Nal, Refusal};
use output_order::is_irap;
use plan_types::SegmentPlan;
use slice_headers::read_slice_header;
use slice_types::SliceHeader;
use std::alloc::Global;

/// How many slice segments a picture has at most.
const MAX_SEGMENTS: usize = 4096;

/// first_slice_segment_in_pic_flag, where the payload has it.
pub fn first_flag(payload: &[u8]) -> Option<bool>
    ensures { result ≡ first_flag (bits payload.now) }
{
    match payload {
        [] => None,
        [first, ..] => Some(*first >= 128),
    }
}

/// The header of a slice segment behind these of its picture: `HeaderSyntax` where its first bit is missing,
/// `FirstPicture` where a sequence doesn't begin with an intra random access point, the limit `Segments` where the
/// picture is full, and else as `read_slice_header` says.
#[tactic(auto, unfolding(spec_picture_plan::specs::Steps::judged_header))]
pub fn judge_header(
    alloc: Global,
    sets: &Sets,
    former: &Former,
    segments: &[SegmentPlan],
    nal: &Nal,
) -> Result<SliceHeader, Refusal>
    requires { length former.now.dpb ≤ 16 }
    ensures value { Parses (λ x. x) result (judged_header sets.now former.now segments.now (unit_of nal.now)) }
    ensures first { segments.now ≡ [] → IfOk result (λ h. h.slice.references.slice_pic_order_cnt_lsb < h.kind.max_lsb) }
{
    if first_flag(nal.rbsp.as_slice()).is_none() {
        return Err(Refusal::Fault(FaultKind::HeaderSyntax));
    }
    if former.first_in_sequence && !(is_irap(nal.nal_type) || !segments.is_empty()) {
        return Err(Refusal::Fault(FaultKind::FirstPicture));
    }
    if segments.len() >= MAX_SEGMENTS {
        return Err(Refusal::Limit(LimitKind::Segments));
    }
    read_slice_header(alloc, nal, sets, former, segments)
}
