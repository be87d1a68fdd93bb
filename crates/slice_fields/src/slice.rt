//! The fields of a slice, from slice_reserved_flag to slice_loop_filter_across_slices_enabled_flag (7.3.6.1, 7.4.7.1).

ghost use Rattle.std.specs.Prelude.{◌≡◌, ◌<◌, ◌≤◌, ◌^◌, ◌+ℤ◌, length};
ghost use Rattle.std.specs.Option.{option_copied};
ghost use Rattle.header_types.specs.SequenceParameterSets.{max_lsb, qp_bd_offset_y};
ghost use Rattle.header_fields.specs.Takes.{Takes};
ghost use Rattle.spec_formats.specs.Fields.{is_within};
ghost use Rattle.spec_slice_headers.specs.SliceFields.{kind_of, type_of, slice_type, temporal_flag, slice_qp, qp_delta};
ghost use Rattle.spec_slice_headers.specs.SliceFields.{chroma_offset, control_of, pps_deblocking, own_deblocking};
ghost use Rattle.spec_slice_headers.specs.SliceFields.{deblocking, across_slices, filter_fields, later_fields};
ghost use Rattle.spec_slice_headers.specs.SliceFields.{slice_fields};
ghost use Rattle.slice_fields.specs.Ranges.{AreReferences};
ghost use Rattle.slice_fields.specs.Views.{context_of, filters_of, joined, named_of};

use crate::context::{SegmentContext, SliceSets, flag_or, no_rasl_output_flag};
use crate::inter_fields::read_inter_fields;
use crate::reference_rules::{FrontFields, judge_references};
use crate::references::read_references;
use header_fields::FieldReader;
use header_types::{DeblockingControl, Pps, Sps};
use hv_base::{FaultKind, Refusal};
use ref_picture_sets::{is_idr, is_irap, num_pic_total_curr};
use slice_types::{
    InterFields, PictureKind, SliceDeblocking, SliceFields, SliceHeaderFields, SliceType,
};
use std::alloc::Global;

/// What is known of the picture before its slices are read: the fields of its NAL unit header (7.4.2.2),
/// NoRaslOutputFlag (8.1) and MaxPicOrderCntLsb (7.4.3.2).
pub fn kind_of<'a>(context: SegmentContext<'a>, sps: &Sps) -> PictureKind
    ensures value { result ≡ kind_of (context_of context.entry) sps.now }
    ensures low { 16 ≤ result.max_lsb }
    ensures high { result.max_lsb ≤ 65536 }
{
    PictureKind {
        nal_type: context.nal_type,
        temporal_id: context.temporal_id,
        no_rasl_output_flag: no_rasl_output_flag(
            context.nal_type,
            context.former.first_in_sequence,
        ),
        max_lsb: sps.max_lsb(),
    }
}

/// slice_type: an intra random access point has I slices alone.
#[tactic(auto, unfolding(spec_slice_headers::specs::SliceFields::slice_type))]
fn read_slice_type<'a, 'b>(
    reader: &mut FieldReader<'a>,
    context: SegmentContext<'b>,
) -> Result<SliceType, Refusal>
    ensures { Takes (λ x. x) result reader.old reader.new (slice_type (context_of context.entry)) }
{
    let code = reader.ue_to(2)?;
    if is_irap(context.nal_type) && code != 2 {
        return Err(Refusal::Fault(FaultKind::SliceType));
    }
    Ok(match code {
        0 => SliceType::B,
        1 => SliceType::P,
        _ => SliceType::I,
    })
}

/// SliceQpY (7-40).
fn slice_qp(pps: &Pps, slice_qp_delta: i32) -> i64
    ensures { result ≡ slice_qp pps.now slice_qp_delta }
{
    26 + i64::from(pps.fields().quantization.init_qp_minus26) + i64::from(slice_qp_delta)
}

/// Whether SliceQpY is from -QpBdOffsetY to 51.
fn is_slice_qp(sps: &Sps, qp: i64) -> bool
    ensures { result ≡ is_within (qp_bd_offset_y sps.now) 51 qp }
{
    let offset = 6 * i64::from(sps.fields().format.bit_depth_luma_minus8);
    -offset <= qp && qp <= 51
}

/// slice_qp_delta, with which SliceQpY is from -QpBdOffsetY to 51.
#[tactic(auto, unfolding(spec_slice_headers::specs::SliceFields::qp_delta))]
fn read_qp_delta<'a>(reader: &mut FieldReader<'a>, sps: &Sps, pps: &Pps) -> Result<i32, Refusal>
    ensures { Takes (λ x. x) result reader.old reader.new (qp_delta sps.now pps.now) }
{
    let slice_qp_delta = reader.se()?;
    let qp = slice_qp(pps, slice_qp_delta);
    reader.ranged(is_slice_qp(sps, qp))?;
    Ok(slice_qp_delta)
}

/// Whether an offset for Cb or Cr of the picture parameter set and that of a slice are from -12 to 12 together.
#[tactic(auto, using(crate::proofs::Offsets::abs_is_within))]
fn is_chroma_offset(offset: i32, slice_offset: i32) -> bool
    ensures { result ≡ is_within 12 12 (offset +ℤ slice_offset) }
{
    (i64::from(offset) + i64::from(slice_offset)).unsigned_abs() <= 12
}

/// slice_cb_qp_offset or slice_cr_qp_offset: `offset` is that of the picture parameter set.
#[tactic(auto, unfolding(spec_slice_headers::specs::SliceFields::chroma_offset))]
fn read_chroma_offset<'a>(
    reader: &mut FieldReader<'a>,
    is_coded: bool,
    offset: i32,
) -> Result<i32, Refusal>
    ensures { Takes (λ x. x) result reader.old reader.new (chroma_offset is_coded offset) }
{
    if !is_coded {
        return Ok(0);
    }
    let slice_offset = reader.se_within(12, 12)?;
    reader.ranged(is_chroma_offset(offset, slice_offset))?;
    Ok(slice_offset)
}

/// The deblocking of the picture parameter set: the filter is on where it tells nothing.
fn control_of(control: Option<DeblockingControl>) -> DeblockingControl
    ensures { result ≡ control_of control }
{
    control.unwrap_or(DeblockingControl {
        deblocking_filter_override_enabled_flag: false,
        pps_deblocking_filter_disabled_flag: false,
        pps_beta_offset_div2: 0,
        pps_tc_offset_div2: 0,
    })
}

/// The same as that of a slice.
fn pps_deblocking(is_overridden: bool, control: DeblockingControl) -> SliceDeblocking
    ensures { result ≡ pps_deblocking is_overridden control }
{
    SliceDeblocking {
        deblocking_filter_override_flag: is_overridden,
        slice_deblocking_filter_disabled_flag: control.pps_deblocking_filter_disabled_flag,
        slice_beta_offset_div2: control.pps_beta_offset_div2,
        slice_tc_offset_div2: control.pps_tc_offset_div2,
    }
}

/// The deblocking of a slice that overrides that of the picture parameter set.
#[tactic(auto, unfolding(spec_slice_headers::specs::SliceFields::own_deblocking))]
fn read_own_deblocking<'a>(
    reader: &mut FieldReader<'a>,
    control: DeblockingControl,
) -> Result<SliceDeblocking, Refusal>
    ensures { Takes (λ x. x) result reader.old reader.new (own_deblocking control) }
{
    if reader.flag()? {
        return Ok(SliceDeblocking {
            slice_deblocking_filter_disabled_flag: true,
            ..pps_deblocking(true, control)
        });
    }
    Ok(SliceDeblocking {
        deblocking_filter_override_flag: true,
        slice_deblocking_filter_disabled_flag: false,
        slice_beta_offset_div2: reader.se_within(6, 6)?,
        slice_tc_offset_div2: reader.se_within(6, 6)?,
    })
}

/// How the slice is deblocked.
#[tactic(auto, unfolding(spec_slice_headers::specs::SliceFields::deblocking))]
fn read_deblocking<'a>(
    reader: &mut FieldReader<'a>,
    control: DeblockingControl,
) -> Result<SliceDeblocking, Refusal>
    ensures { Takes (λ x. x) result reader.old reader.new (deblocking control) }
{
    let deblocking_filter_override_flag = flag_or(
        reader,
        control.deblocking_filter_override_enabled_flag,
        false,
    )?;
    if deblocking_filter_override_flag {
        return read_own_deblocking(reader, control);
    }
    Ok(pps_deblocking(false, control))
}

/// slice_loop_filter_across_slices_enabled_flag, which is coded where some filter may pass the slice's edges.
fn read_across_slices<'a>(
    reader: &mut FieldReader<'a>,
    pps: &Pps,
    has_sao: bool,
    deblocking: SliceDeblocking,
) -> Result<bool, Refusal>
    ensures { Takes (λ x. x) result reader.old reader.new (across_slices pps.now has_sao deblocking) }
{
    let filters = &pps.fields().filters;
    let inherited = filters.pps_loop_filter_across_slices_enabled_flag;
    let has_filter = has_sao || !deblocking.slice_deblocking_filter_disabled_flag;
    flag_or(reader, inherited && has_filter, inherited)
}

/// The fields of a slice's quantization and of its filters.
#[derive(Clone, Copy)]
pub struct FilterFields {
    /// SliceQpY less 26 and init_qp_minus26: SliceQpY is from -QpBdOffsetY to 51.
    pub slice_qp_delta: i32,
    /// What is added to pps_cb_qp_offset: from -12 to 12, and so is the sum.
    pub slice_cb_qp_offset: i32,
    /// What is added to pps_cr_qp_offset: from -12 to 12, and so is the sum.
    pub slice_cr_qp_offset: i32,
    /// How the slice is deblocked.
    pub deblocking: SliceDeblocking,
    /// Whether loop filters may pass its left and upper edges: as the picture parameter set tells where it isn't coded.
    pub slice_loop_filter_across_slices_enabled_flag: bool,
}

/// slice_qp_delta and the fields behind it.
#[tactic(auto, unfolding(spec_slice_headers::specs::SliceFields::filter_fields))]
fn read_filter_fields<'a>(
    reader: &mut FieldReader<'a>,
    sps: &Sps,
    pps: &Pps,
    has_sao: bool,
) -> Result<FilterFields, Refusal>
    ensures { Takes filters_of result reader.old reader.new (filter_fields sps.now pps.now has_sao) }
{
    let quantization = &pps.fields().quantization;
    let is_coded = quantization.pps_slice_chroma_qp_offsets_present_flag;
    let slice_qp_delta = read_qp_delta(reader, sps, pps)?;
    let slice_cb_qp_offset = read_chroma_offset(reader, is_coded, quantization.pps_cb_qp_offset)?;
    let slice_cr_qp_offset = read_chroma_offset(reader, is_coded, quantization.pps_cr_qp_offset)?;
    let control = control_of(pps.fields().filters.deblocking_control);
    let deblocking = read_deblocking(reader, control)?;
    let is_across = read_across_slices(reader, pps, has_sao, deblocking)?;
    Ok(FilterFields {
        slice_qp_delta,
        slice_cb_qp_offset,
        slice_cr_qp_offset,
        deblocking,
        slice_loop_filter_across_slices_enabled_flag: is_across,
    })
}

/// slice_temporal_mvp_enabled_flag, which all segments of a picture have alike.
#[tactic(auto, unfolding(spec_slice_headers::specs::SliceFields::temporal_flag))]
fn read_temporal<'a, 'b>(
    reader: &mut FieldReader<'a>,
    context: SegmentContext<'b>,
    former: Option<&SliceHeaderFields>,
    sps: &Sps,
) -> Result<bool, Refusal>
    ensures { Takes (λ x. x) result reader.old reader.new
        (temporal_flag (context_of context.entry) (option_copied former.entry) sps.now) }
{
    let is_coded = !is_idr(context.nal_type)
        && sps.fields().references.sps_temporal_mvp_enabled_flag;
    let slice_temporal_mvp_enabled_flag = flag_or(reader, is_coded, false)?;
    if !former.is_none_or(|h| {
        h.slice.slice_temporal_mvp_enabled_flag == slice_temporal_mvp_enabled_flag
    }) {
        return Err(Refusal::Fault(FaultKind::SliceMismatch));
    }
    Ok(slice_temporal_mvp_enabled_flag)
}

/// What is read of a slice behind its reference fields.
#[derive(Drop)]
pub struct LaterFields {
    pub slice_temporal_mvp_enabled_flag: bool,
    pub slice_sao_luma_flag: bool,
    pub slice_sao_chroma_flag: bool,
    pub inter: Option<InterFields>,
    pub filters: FilterFields,
}

/// The fields behind those of the reference pictures.
#[tactic(auto, unfolding(spec_slice_headers::specs::SliceFields::later_fields))]
fn read_later_fields<'a, 'b, 'c>(
    alloc: Global,
    reader: &mut FieldReader<'a>,
    context: SegmentContext<'b>,
    former: Option<&SliceHeaderFields>,
    named: SliceSets<'c>,
    front: &FrontFields,
) -> Result<LaterFields, Refusal>
    requires { AreReferences (max_lsb named.sps.now) front.now.references }
    ensures { Takes (joined front.now) result reader.old reader.new
        (later_fields (context_of context.entry) (option_copied former.entry) (named_of named.entry)
        front.now.slice_type front.now.pic_output_flag front.now.references) }
{
    let has_sao = named.sps.fields().tools.sample_adaptive_offset_enabled_flag;
    let total = num_pic_total_curr(&front.references);
    let is_temporal = read_temporal(reader, context, former, named.sps)?;
    let is_luma = flag_or(reader, has_sao, false)?;
    let is_chroma = flag_or(reader, has_sao, false)?;
    let inter = read_inter_fields(
        alloc,
        reader,
        front.slice_type,
        named.pps,
        total,
        is_temporal,
    )?;
    Ok(LaterFields {
        slice_temporal_mvp_enabled_flag: is_temporal,
        slice_sao_luma_flag: is_luma,
        slice_sao_chroma_flag: is_chroma,
        inter,
        filters: read_filter_fields(reader, named.sps, named.pps, is_luma || is_chroma)?,
    })
}

/// The fields of a slice: those up to its reference fields, and those behind them.
fn joined(front: FrontFields, later: LaterFields) -> SliceFields
    ensures { result ≡ joined front later }
{
    SliceFields {
        slice_type: front.slice_type,
        pic_output_flag: front.pic_output_flag,
        references: front.references,
        slice_temporal_mvp_enabled_flag: later.slice_temporal_mvp_enabled_flag,
        slice_sao_luma_flag: later.slice_sao_luma_flag,
        slice_sao_chroma_flag: later.slice_sao_chroma_flag,
        inter: later.inter,
        slice_qp_delta: later.filters.slice_qp_delta,
        slice_cb_qp_offset: later.filters.slice_cb_qp_offset,
        slice_cr_qp_offset: later.filters.slice_cr_qp_offset,
        deblocking: later.filters.deblocking,
        slice_loop_filter_across_slices_enabled_flag: later
            .filters
            .slice_loop_filter_across_slices_enabled_flag,
    }
}

/// The fields of a slice, from slice_reserved_flag to slice_loop_filter_across_slices_enabled_flag (7.3.6.1, 7.4.7.1),
/// where `former` is the first header of its picture, if that is another one. Else the first rule that they break, in
/// their order: the reader's rules where bits end inside a field or one is out of range; `SliceType` at an intra random
/// access point; `HeaderRange` where the picture order count doesn't fit 32 bits (8.3.1), or a P or B slice has no
/// picture to refer to; `SliceMismatch` where they differ from `former`; `MissingReference` in the picture's first
/// segment (8.3.2). Or want of memory.
#[tactic(auto, unfolding(spec_slice_headers::specs::SliceFields::slice_fields))]
pub fn read_slice_fields<'a, 'b, 'c>(
    alloc: Global,
    reader: &mut FieldReader<'a>,
    context: SegmentContext<'b>,
    former: Option<&SliceHeaderFields>,
    named: SliceSets<'c>,
) -> Result<SliceFields, Refusal>
    requires { length context.former.now.dpb < 2 ^ 32 }
    ensures { Takes (λ x. x) result reader.old reader.new
        (slice_fields (context_of context.entry) (option_copied former.entry) (named_of named.entry)) }
{
    let defaults = &named.pps.fields().slice_defaults;
    reader.u(defaults.num_extra_slice_header_bits)?;
    let slice_type = read_slice_type(reader, context)?;
    let pic_output_flag = flag_or(reader, defaults.output_flag_present_flag, true)?;
    let references = read_references(alloc, reader, context.nal_type, named.sps)?;
    let front = FrontFields {
        slice_type,
        pic_output_flag,
        references,
    };
    judge_references(alloc, context, former, kind_of(context, named.sps), &front)?;
    let later = read_later_fields(alloc, reader, context, former, named, &front)?;
    Ok(joined(front, later))
}
