//! The rules on what a slice refers to, behind the last field that says it (7.4.7.1, 8.3.1, 8.3.2).

ghost use Rattle.std.specs.Prelude.{◌≡◌, ◌<◌, ◌≤◌, ◌^◌, true, length};
ghost use Rattle.std.specs.Option.{option_copied};
ghost use Rattle.spec_formats.specs.Fields.{Parses};
ghost use Rattle.spec_slice_headers.specs.ReferenceRules.{references_found, judged_references, is_i};
ghost use Rattle.slice_fields.specs.Ranges.{AreReferences};
ghost use Rattle.slice_fields.specs.Views.{context_of};

use crate::context::SegmentContext;
use hv_base::{FaultKind, Refusal};
use ref_picture_sets::{derive_rps, num_pic_total_curr, poc_of};
use slice_types::{PictureKind, ReferenceFields, SliceHeaderFields, SliceType};
use std::alloc::Global;

/// What is read of a slice up to its reference fields.
#[derive(Drop)]
pub struct FrontFields {
    /// How the coding units of the slice may be predicted.
    pub slice_type: SliceType,
    /// Whether the picture may go out: true where it isn't coded.
    pub pic_output_flag: bool,
    /// The picture's order count, and the pictures kept for reference.
    pub references: ReferenceFields,
}

/// Whether a slice is an I slice.
pub fn is_i(slice_type: SliceType) -> bool
    ensures { result ≡ is_i slice_type }
{
    matches!(slice_type, SliceType::I)
}

/// In the picture's first segment its reference pictures have to be in the decoded picture buffer.
fn find_references<'a>(
    alloc: Global,
    context: SegmentContext<'a>,
    is_first: bool,
    kind: PictureKind,
    references: &ReferenceFields,
    poc: i32,
) -> Result<(), Refusal>
    requires max_lsb_low { 16 ≤ kind.max_lsb }
    requires max_lsb_high { kind.max_lsb ≤ 65536 }
    requires references { AreReferences kind.max_lsb references.now }
    requires few { length context.former.now.dpb < 2 ^ 32 }
    ensures { Parses (λ _. true) result (references_found (context_of context.entry) is_first kind references.now poc) }
{
    if is_first {
        derive_rps(alloc, kind, references, poc, context.former.dpb.as_slice())?;
    }
    Ok(())
}

/// The rules on what a slice refers to: the picture order count is in range; the fields are those of the picture's
/// first segment; its reference pictures are there; a P or B slice has some.
#[tactic(auto, unfolding(spec_slice_headers::specs::ReferenceRules::judged_references))]
pub fn judge_references<'a>(
    alloc: Global,
    context: SegmentContext<'a>,
    former: Option<&SliceHeaderFields>,
    kind: PictureKind,
    front: &FrontFields,
) -> Result<(), Refusal>
    requires max_lsb_low { 16 ≤ kind.max_lsb }
    requires max_lsb_high { kind.max_lsb ≤ 65536 }
    requires references { AreReferences kind.max_lsb front.now.references }
    requires few { length context.former.now.dpb < 2 ^ 32 }
    ensures { Parses (λ _. true) result
        (judged_references (context_of context.entry) (option_copied former.entry) kind front.now.slice_type
        front.now.pic_output_flag front.now.references) }
{
    let references = &front.references;
    let prev = context.former.prev_tid0_pic_order_cnt;
    let poc = match poc_of(kind, references, prev) {
        Ok(poc) => poc,
        Err(rule) => return Err(Refusal::Fault(rule)),
    };
    if !former.is_none_or(|h| h.slice.pic_output_flag == front.pic_output_flag) {
        return Err(Refusal::Fault(FaultKind::SliceMismatch));
    }
    if !former.is_none_or(|h| h.slice.references == *references) {
        return Err(Refusal::Fault(FaultKind::SliceMismatch));
    }
    find_references(alloc, context, former.is_none(), kind, references, poc)?;
    if !is_i(front.slice_type) && num_pic_total_curr(references) == 0 {
        return Err(Refusal::Fault(FaultKind::HeaderRange));
    }
    Ok(())
}
