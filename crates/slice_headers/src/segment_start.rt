//! The front of a slice segment header: the fields that each segment has, up to slice_segment_address (7.3.6.1).

ghost use Rattle.std.specs.Prelude.{◌≡◌, IfOk};
ghost use Rattle.slice_fields.specs.HeaderFields.{Takes};
ghost use Rattle.spec_formats.specs.Fields.{flag, optional};
ghost use Rattle.spec_slice_headers.specs.SegmentStart.{front, place};
ghost use Rattle.slice_fields.specs.Views.{context_of, named_of};

use hv_base::{FaultKind, Refusal};
use slice_fields::{
    FieldReader, SegmentContext, SliceSets, ceil_log2, first_of, flag_or, is_irap, last_address,
};
use slice_types::SegmentFields;

/// A flag, where it is coded.
fn read_optional_flag<'a>(
    reader: &mut FieldReader<'a>,
    is_coded: bool,
) -> Result<Option<bool>, Refusal>
    ensures { Takes (λ x. x) result reader.old reader.new (optional is_coded flag) }
{
    Ok(if is_coded { Some(reader.flag()?) } else { None })
}

/// The fields up to slice_pic_parameter_set_id; where the segment stands is that of the picture's first one.
#[tactic(auto, unfolding(spec_slice_headers::specs::SegmentStart::front))]
pub fn read_front<'a, 'b>(
    reader: &mut FieldReader<'a>,
    context: SegmentContext<'b>,
) -> Result<SegmentFields, Refusal>
    ensures { Takes (λ x. x) result reader.old reader.new (front (context_of context.entry)) }
{
    let first_slice_segment_in_pic_flag = reader.flag()?;
    if !first_slice_segment_in_pic_flag && first_of(context, false).is_none() {
        return Err(Refusal::Fault(FaultKind::SliceOrder));
    }
    let former = first_of(context, first_slice_segment_in_pic_flag);
    if !former.is_none_or(|h| {
        h.kind.nal_type == context.nal_type && h.kind.temporal_id == context.temporal_id
    }) {
        return Err(Refusal::Fault(FaultKind::SliceMismatch));
    }
    let no_output_of_prior_pics_flag = read_optional_flag(reader, is_irap(context.nal_type))?;
    if !former.is_none_or(|h| {
        h.segment.no_output_of_prior_pics_flag == no_output_of_prior_pics_flag
    }) {
        return Err(Refusal::Fault(FaultKind::SliceMismatch));
    }
    let slice_pic_parameter_set_id = reader.ue_to(63)?;
    Ok(SegmentFields {
        first_slice_segment_in_pic_flag,
        no_output_of_prior_pics_flag,
        slice_pic_parameter_set_id,
        dependent_slice_segment_flag: false,
        slice_segment_address: 0,
    })
}

/// Where the segment stands: the picture's first one at its first coding tree unit.
#[tactic(auto, unfolding(spec_slice_headers::specs::SegmentStart::place, spec_slice_headers::specs::SegmentStart::later_place))]
pub fn read_place<'a, 'b, 'c>(
    reader: &mut FieldReader<'a>,
    context: SegmentContext<'b>,
    named: SliceSets<'c>,
    segment: SegmentFields,
) -> Result<SegmentFields, Refusal>
    ensures value { Takes (λ x. x) result reader.old reader.new
        (place (context_of context.entry) (named_of named.entry) segment) }
    ensures id { IfOk result (λ s. s.slice_pic_parameter_set_id ≡ segment.slice_pic_parameter_set_id) }
{
    if segment.first_slice_segment_in_pic_flag {
        return Ok(segment);
    }
    let has_dependent = named
        .pps
        .fields()
        .slice_defaults
        .dependent_slice_segments_enabled_flag;
    let dependent_slice_segment_flag = flag_or(reader, has_dependent, false)?;
    let size = named.sps.size_in_ctbs();
    let slice_segment_address = reader.u(ceil_log2(size))?;
    reader.ranged(0 < slice_segment_address && slice_segment_address < size)?;
    let former = last_address(context.segments);
    if !former.is_none_or(|before| before < slice_segment_address) {
        return Err(Refusal::Fault(FaultKind::SliceOrder));
    }
    Ok(SegmentFields {
        dependent_slice_segment_flag,
        slice_segment_address,
        ..segment
    })
}
