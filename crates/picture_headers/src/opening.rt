//! The picture that a first slice segment opens (8.3).

ghost use Rattle.std.specs.Prelude.{◌≡◌, ◌<◌, ◌≤◌, ◌∷◌, [], None, Ok, true, length, IfOk};
ghost use Rattle.std.specs.List.{count_by};
ghost use Rattle.slice_types.specs.SliceHeaders.{IsReferenceFields};
ghost use Rattle.spec_formats.specs.Fields.{Parses};
ghost use Rattle.output_order.specs.SpecOutputOrder.{current_picture};
ghost use Rattle.output_order.specs.SpecOutputOrder.{outputs_of};
ghost use Rattle.spec_picture_plan.specs.Steps.{opening, picture_of, segment_of, with_order};
ghost use Rattle.spec_reference_pictures.specs.PictureOrderCount.{begins_anew, pic_order_cnt_val};
ghost use Rattle.spec_reference_pictures.specs.ReferencePictureSet.{GivesSet, is_reference, reference_picture_set};
ghost use Rattle.spec_nal_units.specs.Judged.{NalUnit, unit_of};
ghost use Rattle.picture_headers.specs.Bounds.{Fits, KeepsFew};
ghost use Rattle.picture_headers.specs.Parts.{begun_by};

use crate::headers::judge_header;
use crate::outputs::outputs_at;
use crate::segments::segment_of;
use header_types::{DpbPicture, FieldList, Former, Pps, Rps, Sets, Shared, Sps};
use hv_base::{FaultKind, Nal, Refusal};
use output_order::{derive_rps, poc_of};
use plan_types::{Outputs, PicturePlan, SegmentPlan};
use slice_types::{PictureKind, ReferenceFields, SliceHeader};
use std::alloc::{AllocError, Global};

/// The parameter sets that a slice names.
#[derive(Clone, Copy)]
struct Named<'a> {
    sps: &'a Shared<Sps>,
    pps: &'a Shared<Pps>,
}

/// The reference picture set of a picture, which marks none as reference where it begins anew.
#[tactic(auto, using(crate::proofs::KeptPictures::set_begins_anew))]
fn reference_set(
    alloc: Global,
    former: &Former,
    kind: PictureKind,
    references: &ReferenceFields,
    poc: i32,
) -> Result<Rps, Refusal>
    requires few { length former.now.dpb ≤ 16 }
    requires low { 16 ≤ kind.max_lsb }
    requires high { kind.max_lsb ≤ 65536 }
    requires references { IsReferenceFields references.now }
    ensures value { GivesSet result (reference_picture_set kind references.now poc former.now.dpb) }
    ensures anew { IfOk result (λ rps. begins_anew kind ≡ true → count_by is_reference rps.marks ≡ 0) }
{
    derive_rps(alloc, kind, references, poc, former.dpb.as_slice())
}

/// A list of one segment, the first of a picture with this reference picture set, before which the buffer has these
/// pictures.
fn only_segment(
    alloc: Global,
    dpb: &[DpbPicture],
    rps: &Rps,
    nal: Nal,
    header: SliceHeader,
) -> Result<FieldList<SegmentPlan>, AllocError>
    ensures { IfOk result (λ segments. segments ≡ segment_of [] dpb.now rps.now (unit_of nal) header ∷ []) }
{
    let segment = segment_of(alloc, &[], dpb, rps, nal, header)?;
    let mut segments = FieldList::new(alloc);
    segments.push(segment)?;
    Ok(segments)
}

/// What a picture has beside its first slice segment's unit and header.
#[derive(Drop)]
pub(crate) struct Parts {
    /// The active sequence parameter set.
    pub sps: Shared<Sps>,
    /// The picture parameter set that its slices name.
    pub pps: Shared<Pps>,
    /// PicOrderCntVal.
    pub poc: i32,
    /// The reference picture set.
    pub rps: Rps,
    /// What goes out of the decoded picture buffer at the picture, and what stays there.
    pub outputs: Outputs,
}

/// One more owner of each of these sets.
fn owned<'a>(named: Named<'a>) -> Result<(Shared<Sps>, Shared<Pps>), AllocError>
    ensures { IfOk result (λ sets. sets ≡ (named.entry.sps.now, named.entry.pps.now)) }
{
    let sps = named.sps.clone()?;
    let pps = named.pps.clone()?;
    Ok((sps, pps))
}

/// The parts of a picture of this header that has these sets, order count and reference picture set.
fn parts_with(
    alloc: Global,
    former: &Former,
    header: &SliceHeader,
    sets: (Shared<Sps>, Shared<Pps>),
    poc: i32,
    rps: Rps,
) -> Result<Parts, AllocError>
    requires few { length former.now.dpb ≤ 16 }
    requires anew { begins_anew header.now.kind ≡ true → count_by is_reference rps.marks ≡ 0 }
    ensures value { IfOk result (λ parts. parts ≡ record {
      sps = sets.0;
      pps = sets.1;
      poc = poc;
      rps = rps;
      outputs = outputs_of (current_picture header.now sets.0 poc) former.now.dpb rps.marks;
    }) }
    ensures fits { IfOk result (λ parts. Fits header.now.kind parts.sps parts.rps.marks parts.outputs.dpb) }
{
    let (sps, pps) = sets;
    outputs_at(alloc, former, header, &sps, poc, &rps).map(|outputs| Parts {
        sps,
        pps,
        poc,
        rps,
        outputs,
    })
}

/// The parts of a picture under the parameter sets that its first slice segment names.
fn parts_under<'a>(
    alloc: Global,
    former: &Former,
    named: Named<'a>,
    header: &SliceHeader,
) -> Result<Parts, Refusal>
    requires few { length former.now.dpb ≤ 16 }
    requires lsb { header.now.slice.references.slice_pic_order_cnt_lsb < header.now.kind.max_lsb }
    ensures value { (u : NalUnit) → Parses (begun_by former.now.dpb u header.now) result
        (with_order former.now u header.now (record { pps = named.entry.pps.now; sps = named.entry.sps.now })
        (pic_order_cnt_val header.now.kind header.now.slice.references.slice_pic_order_cnt_lsb
        former.now.prev_tid0_pic_order_cnt)) }
    ensures fits { IfOk result (λ parts. Fits header.now.kind parts.sps parts.rps.marks parts.outputs.dpb) }
{
    let fields = header.fields();
    let references = &fields.slice.references;
    let poc = match poc_of(fields.kind, references, former.prev_tid0_pic_order_cnt) {
        Ok(poc) => poc,
        Err(rule) => return Err(Refusal::Fault(rule)),
    };
    let sets = owned(named)?;
    let rps = reference_set(alloc, former, fields.kind, references, poc)?;
    Ok(parts_with(alloc, former, header, sets, poc, rps)?)
}

/// The parts of the picture that a first slice segment of this header opens.
#[tactic(auto, unfolding(spec_picture_plan::specs::Steps::picture_of))]
fn parts_of(
    alloc: Global,
    sets: &Sets,
    former: &Former,
    header: &SliceHeader,
) -> Result<Parts, Refusal>
    requires few { length former.now.dpb ≤ 16 }
    requires lsb { header.now.slice.references.slice_pic_order_cnt_lsb < header.now.kind.max_lsb }
    ensures value { (u : NalUnit)
        → Parses (begun_by former.now.dpb u header.now) result (picture_of sets.now former.now u header.now) }
    ensures fits { IfOk result (λ parts. Fits header.now.kind parts.sps parts.rps.marks parts.outputs.dpb) }
{
    let Some(pps) = sets.pps(header.fields().segment.slice_pic_parameter_set_id) else {
        return Err(Refusal::Fault(FaultKind::MissingSet));
    };
    let Some(sps) = sets.sps(pps.fields().identity.pps_seq_parameter_set_id) else {
        return Err(Refusal::Fault(FaultKind::MissingSet));
    };
    parts_under(alloc, former, Named { sps, pps }, header)
}

impl Parts {
    /// The picture of these parts and segments.
    fn into_picture(
        self,
        alloc: Global,
        nal: u32,
        kind: PictureKind,
        segments: FieldList<SegmentPlan>,
    ) -> PicturePlan
        ensures { result
            ≡ record {
              nal = nal;
              kind = kind;
              sps = self.sps;
              pps = self.pps;
              poc = self.poc;
              rps = self.rps;
              outputs = self.outputs;
              segments = segments;
              hashes = [];
            } }
    {
        PicturePlan {
            nal,
            kind,
            sps: self.sps,
            pps: self.pps,
            poc: self.poc,
            rps: self.rps,
            outputs: self.outputs,
            segments,
            hashes: FieldList::new(alloc),
        }
    }
}

/// The picture that has these parts, and this unit and header as its first slice segment. Before it the buffer has
/// these pictures.
fn picture_with(
    alloc: Global,
    dpb: &[DpbPicture],
    nal: Nal,
    header: SliceHeader,
    parts: Parts,
) -> Result<PicturePlan, Refusal>
    ensures { Parses (λ p. p) result (Ok (begun_by dpb.now (unit_of nal) header parts)) }
{
    let index = nal.index;
    let kind = header.fields().kind;
    let segments = only_segment(alloc, dpb, &parts.rps, nal, header);
    Ok(segments.map(|segments| parts.into_picture(alloc, index, kind, segments))?)
}

/// The picture of a first slice segment.
fn picture_of(
    alloc: Global,
    sets: &Sets,
    former: &Former,
    nal: Nal,
    header: SliceHeader,
) -> Result<PicturePlan, Refusal>
    requires few { length former.now.dpb ≤ 16 }
    requires lsb { header.slice.references.slice_pic_order_cnt_lsb < header.kind.max_lsb }
    ensures value { Parses (λ x. x) result (picture_of sets.now former.now (unit_of nal) header) }
    ensures few { IfOk result KeepsFew }
{
    let dpb = former.dpb.as_slice();
    let parts = parts_of(alloc, sets, former, &header);
    parts.and_then(|parts| picture_with(alloc, dpb, nal, header, parts))
}

/// The picture that a slice segment opens while none is open, under the accepted parameter sets and what the pictures
/// before left (8.1, 8.3). The error is the first rule that it breaks or limit that it meets, or want of memory.
#[tactic(auto, unfolding(spec_picture_plan::specs::Steps::opening))]
pub fn open_picture(
    alloc: Global,
    sets: &Sets,
    former: &Former,
    nal: Nal,
) -> Result<PicturePlan, Refusal>
    requires { length former.now.dpb ≤ 16 }
    ensures value { Parses (λ x. x) result (opening sets.now former.now (unit_of nal)) }
    ensures few { IfOk result KeepsFew }
{
    let header = judge_header(alloc, sets, former, &[], &nal)?;
    picture_of(alloc, sets, former, nal, header)
}
