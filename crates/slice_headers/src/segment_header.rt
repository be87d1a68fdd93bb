//! slice_segment_header (7.3.6.1), and where the slice segment data begin.

ghost use Rattle.std.specs.Prelude.{◌≡◌, ◌<◌, ◌≤◌, ◌^◌, IfOk, IfSome, [], true, length};
ghost use Rattle.std.specs.Option.{option_copied};
ghost use Rattle.slice_types.specs.SliceHeaders.{IsSliceFields, IsSliceHeader};
ghost use Rattle.hv_base.specs.declared.field_rules.TheConstants.{SLICE_HEADER_RULES};
ghost use Rattle.slice_fields.specs.HeaderFields.{Takes};
ghost use Rattle.spec_formats.specs.Fields.{Parses, Reads, optional, repeated, u};
ghost use Rattle.header_laws.specs.Ranges.{IsNamed};
ghost use Rattle.spec_slice_headers.specs.Context.{first_of, slice_header};
ghost use Rattle.spec_slice_headers.specs.NamedSets.{named_by};
ghost use Rattle.spec_slice_headers.specs.SegmentHeader.{taken_fields, fields_of_slice, entry_point, entry_points};
ghost use Rattle.spec_slice_headers.specs.SegmentHeader.{coded_extension, alignment, slice_segment_header};
ghost use Rattle.spec_slice_headers.specs.SegmentHeader.{slice_header_of, unit_context};
ghost use Rattle.slice_fields.specs.Views.{context_of, named_of};

use crate::named_sets::read_named_sets;
use crate::segment_start::{read_front, read_place};
use header_types::{FieldList, Former, Sets, Sps};
use hv_base::{FaultKind, Nal, Refusal, SLICE_HEADER_RULES};
use hv_bits::BitReader;
use slice_fields::{
    FieldReader, SegmentContext, SliceSets, first_of, kind_of, read_slice_fields, slice_header,
    ue_or,
};
use slice_types::{SegmentFields, SliceFields, SliceHeader, SliceHeaderFields};
use spec_slice_headers::SegmentPlan;
use std::alloc::Global;

/// The fields that a dependent slice segment takes from its slice.
fn taken_fields<'a, 'b>(
    alloc: Global,
    reader: &mut FieldReader<'a>,
    context: SegmentContext<'b>,
) -> Result<SliceFields, Refusal>
    ensures value { Takes (λ x. x) result reader.old reader.new
        (taken_fields (slice_header (context_of context.entry).segments)) }
    ensures in_range { IfSome (slice_header (context_of context.entry).segments) IsSliceHeader }
{
    match slice_header(context.segments) {
        None => Err(Refusal::Fault(FaultKind::SliceOrder)),
        Some(header) => Ok(header.slice.clone()?),
    }
}

/// The fields of the segment's slice.
fn read_fields_of_slice<'a, 'b, 'c>(
    alloc: Global,
    reader: &mut FieldReader<'a>,
    context: SegmentContext<'b>,
    named: SliceSets<'c>,
    segment: SegmentFields,
) -> Result<SliceFields, Refusal>
    requires few { length context.former.now.dpb < 2 ^ 32 }
    ensures value { Takes (λ x. x) result reader.old reader.new
        (fields_of_slice (context_of context.entry) (named_of named.entry) segment) }
    ensures taken { segment.dependent_slice_segment_flag ≡ true
        → IfSome (slice_header (context_of context.entry).segments) IsSliceHeader }
{
    if segment.dependent_slice_segment_flag {
        return taken_fields(alloc, reader, context);
    }
    let former = first_of(context, segment.first_slice_segment_in_pic_flag);
    read_slice_fields(alloc, reader, context, former, named)
}

/// An entry point: how many bytes the substream before it has.
#[tactic(auto, unfolding(spec_slice_headers::specs::SegmentHeader::entry_point))]
fn read_entry_point<'a>(reader: &mut FieldReader<'a>, len: u32) -> Result<u64, Refusal>
    requires { len ≤ 32 }
    ensures { Takes (λ x. x) result reader.old reader.new (entry_point len) }
{
    Ok(u64::from(reader.u(len)?) + 1)
}

/// So many entry points, of so many bits each.
#[tactic(auto, using(slice_fields::proofs::Items::goes_on, slice_fields::proofs::Items::ends))]
fn read_each_entry_point<'a>(
    alloc: Global,
    reader: &mut FieldReader<'a>,
    count: u32,
    len: u32,
) -> Result<FieldList<u64>, Refusal>
    requires { len ≤ 32 }
    ensures { Takes (λ x. x) result reader.old reader.new (repeated count (entry_point len)) }
{
    let mut offsets = FieldList::new(alloc);
    for _ in 0..count {
        offsets.push(read_entry_point(reader, len)?)?;
    }
    Ok(offsets)
}

/// The entry points: with entropy coding sync one may stand at each row of coding tree blocks but the first.
#[tactic(auto, unfolding(spec_slice_headers::specs::SegmentHeader::entry_points))]
fn read_entry_points<'a, 'b>(
    alloc: Global,
    reader: &mut FieldReader<'a>,
    named: SliceSets<'b>,
) -> Result<FieldList<u64>, Refusal>
    ensures { Takes (λ x. x) result reader.old reader.new (entry_points (named_of named.entry)) }
{
    let is_coded = named
        .pps
        .fields()
        .prediction
        .entropy_coding_sync_enabled_flag;
    let count = ue_or(reader, is_coded, named.sps.height_in_ctbs() - 1, 0)?;
    let offset_len_minus1 = ue_or(reader, count > 0, 31, 0)?;
    read_each_entry_point(alloc, reader, count, offset_len_minus1 + 1)
}

/// So many bytes of the header's extension.
#[tactic(auto, using(slice_fields::proofs::Items::goes_on, slice_fields::proofs::Items::ends))]
fn read_extension_bytes<'a>(
    alloc: Global,
    reader: &mut FieldReader<'a>,
    count: u32,
) -> Result<FieldList<u8>, Refusal>
    ensures { Takes (λ x. x) result reader.old reader.new (repeated count (u 8)) }
{
    let mut bytes = FieldList::new(alloc);
    for _ in 0..count {
        bytes.push(reader.u(8)? as u8)?;
    }
    Ok(bytes)
}

/// slice_segment_header_extension_length and its bytes, where there is an extension.
#[tactic(auto, unfolding(spec_slice_headers::specs::SegmentHeader::coded_extension))]
fn read_extension<'a>(
    alloc: Global,
    reader: &mut FieldReader<'a>,
    is_coded: bool,
) -> Result<Option<FieldList<u8>>, Refusal>
    ensures { Takes (λ x. x) result reader.old reader.new (optional is_coded coded_extension) }
{
    if !is_coded {
        return Ok(None);
    }
    let slice_segment_header_extension_length = reader.ue_to(256)?;
    Ok(Some(read_extension_bytes(alloc, reader, slice_segment_header_extension_length)?))
}

/// A slice segment header up to its byte_alignment(); `data_place` isn't told yet.
#[tactic(auto, unfolding(spec_slice_headers::specs::SegmentHeader::slice_segment_header))]
fn read_segment_header<'a, 'b>(
    alloc: Global,
    reader: &mut FieldReader<'a>,
    context: SegmentContext<'b>,
) -> Result<SliceHeaderFields, Refusal>
    requires few { length context.former.now.dpb < 2 ^ 32 }
    ensures value { Takes (λ x. x) result reader.old reader.new (slice_segment_header (context_of context.entry)) }
    ensures named { IfOk result
        (λ h. IfSome (named_by (context_of context.entry).sets h.segment.slice_pic_parameter_set_id) IsNamed) }
    ensures taken { IfOk result (λ h. h.segment.dependent_slice_segment_flag ≡ true
        → IfSome (slice_header (context_of context.entry).segments) IsSliceHeader) }
{
    let front = read_front(reader, context)?;
    let is_first = front.first_slice_segment_in_pic_flag;
    let named = read_named_sets(context, is_first, front.slice_pic_parameter_set_id)?;
    let has_extension = named
        .pps
        .fields()
        .slice_segment_header_extension_present_flag;
    let segment = read_place(reader, context, named, front)?;
    Ok(SliceHeaderFields {
        nal: context.nal,
        kind: kind_of(context, named.sps),
        segment,
        slice: read_fields_of_slice(alloc, reader, context, named, segment)?,
        entry_points: read_entry_points(alloc, reader, named)?,
        extension: read_extension(alloc, reader, has_extension)?,
        data_place: 0,
    })
}

/// byte_alignment().
#[tactic(auto, unfolding(spec_slice_headers::specs::SegmentHeader::alignment))]
fn read_alignment<'a>(bits: &mut BitReader<'a>) -> Result<bool, Refusal>
    ensures { Reads (λ x. x) result bits.new (alignment bits.old) }
{
    match bits.aligned() {
        Some(true) => Ok(true),
        _ => Err(Refusal::Fault(FaultKind::HeaderSyntax)),
    }
}

/// The slice segment header of a unit, under the accepted parameter sets, what the pictures before left to its picture,
/// and the slice segments of its picture before it, none where no picture is open: all its fields, and
/// where its data begin. Else the first rule that it breaks, in the order of its fields: `HeaderSyntax` where it ends
/// inside a field, `HeaderRange` where a field or the picture order count is out of range, `MissingSet`, `SetMismatch`
/// and `SpsChanged` at the picture parameter set that it names, `SliceOrder` where no picture is open or its address
/// isn't above the former one, `SliceType` at an intra random access point, `SliceMismatch` where it differs from the
/// picture's first segment, `MissingReference` in the picture's first segment.
#[tactic(auto, using(crate::proofs::Ranges::header_in_range, crate::proofs::Ranges::lsb_in_range), unfolding(spec_slice_headers::specs::SegmentHeader::slice_header_of))]
pub fn read_slice_header(
    alloc: Global,
    nal: &Nal,
    sets: &Sets,
    former: &Former,
    segments: &[SegmentPlan],
) -> Result<SliceHeader, Refusal>
    requires { length former.now.dpb < 2 ^ 32 }
    ensures value { Parses (λ x. x) result
        (slice_header_of (unit_context nal.now sets.now former.now segments.now) nal.now.rbsp) }
    ensures first { segments.now ≡ [] → IfOk result (λ h. h.slice.references.slice_pic_order_cnt_lsb < h.kind.max_lsb) }
{
    let payload = nal.rbsp.as_slice();
    let mut reader = FieldReader::new(payload, SLICE_HEADER_RULES);
    let context = SegmentContext {
        nal: nal.index,
        nal_type: nal.nal_type,
        temporal_id: nal.temporal_id,
        sets,
        former,
        segments,
    };
    let mut fields = read_segment_header(alloc, &mut reader, context)?;
    read_alignment(&mut reader.bits)?;
    let left = (reader.bits.left() / 8) as usize;
    fields.data_place = payload.len().saturating_sub(left);
    Ok(SliceHeader::new(fields))
}
