//! What a slice segment header is read under, and what segments before it tell.

ghost use Rattle.std.specs.Prelude.{◌≡◌, ◌≤◌, IfOk, IfSome, slice_get};
ghost use Rattle.std.specs.Option.{option_copied};
ghost use Rattle.slice_types.specs.SliceHeaders.{IsSliceHeader};
ghost use Rattle.header_fields.specs.Takes.{Takes};
ghost use Rattle.spec_formats.specs.Fields.{flag, optional};
ghost use Rattle.spec_slice_headers.specs.Context.{ceil_log2, first_of, flag_or, header_of, last_address, last_segment};
ghost use Rattle.spec_slice_headers.specs.Context.{no_rasl_output_flag, slice_header, slice_of, ue_or};
ghost use Rattle.slice_fields.specs.Views.{context_of};

use header_fields::FieldReader;
use header_types::{Former, Pps, Sets, Sps};
use hv_base::{BLA_W_LP, CRA_NUT, IDR_N_LP, Refusal};
use slice_types::SliceHeaderFields;
use spec_slice_headers::SegmentPlan;

/// What a slice segment header is read under: the segment's NAL unit, the accepted parameter sets, what the pictures
/// before left to its picture, and the segments of its picture before it (7.4.2.4.4).
#[derive(Clone, Copy)]
pub struct SegmentContext<'a> {
    /// The number of the unit.
    pub nal: u32,
    /// nal_unit_type of the unit.
    pub nal_type: u8,
    /// TemporalId of the unit.
    pub temporal_id: u8,
    /// The accepted parameter sets.
    pub sets: &'a Sets,
    /// What the pictures before left to its picture.
    pub former: &'a Former,
    /// The segments of its picture before it, in decoding order.
    pub segments: &'a [SegmentPlan],
}

/// The parameter sets that a slice names: by slice_pic_parameter_set_id a picture parameter set, and by its
/// pps_seq_parameter_set_id a sequence parameter set (7.4.7.1, 7.4.3.3).
#[derive(Clone, Copy)]
pub struct SliceSets<'a> {
    /// The picture parameter set.
    pub pps: &'a Pps,
    /// The sequence parameter set.
    pub sps: &'a Sps,
}

/// The first header of the picture, for a segment that isn't the first, with which its own has to agree (7.4.7.1); none
/// where no segment came before.
pub fn first_of<'a>(context: SegmentContext<'a>, is_first: bool) -> Option<&'a SliceHeaderFields>
    ensures { option_copied result ≡ first_of (context_of context.entry) is_first }
{
    if is_first {
        return None;
    }
    header_at(context.segments, 0)
}

/// The header of the segment of this number.
fn header_at(segments: &[SegmentPlan], number: usize) -> Option<&SliceHeaderFields>
    ensures value { option_copied result ≡ header_of (slice_get segments.now number) }
    ensures in_range { IfSome (header_of (slice_get segments.now number)) IsSliceHeader }
{
    match segments.get(number) {
        None => None,
        Some(segment) => Some(segment.header.fields()),
    }
}

/// The header of the last slice of these segments, of which a dependent slice segment takes its fields (7.4.7.1); none
/// where there is no segment.
pub fn slice_header(segments: &[SegmentPlan]) -> Option<&SliceHeaderFields>
    ensures value { option_copied result ≡ slice_header segments.now }
    ensures in_range { IfSome (slice_header segments.now) IsSliceHeader }
{
    header_at(segments, last_slice(segments))
}

/// The number of the segment that begins the last slice of these.
fn last_slice(segments: &[SegmentPlan]) -> usize
    ensures { result ≡ slice_of (last_segment segments.now) }
{
    match segments.last() {
        None => 0,
        Some(segment) => segment.slice,
    }
}

/// slice_segment_address of the last of these segments (7.4.7.1), none where there is no segment.
pub fn last_address(segments: &[SegmentPlan]) -> Option<u32>
    ensures { result ≡ last_address segments.now }
{
    match segments.last() {
        None => None,
        Some(segment) => Some(segment.header.fields().segment.slice_segment_address),
    }
}

/// NoRaslOutputFlag of a unit of this type, where `first_in_sequence` says whether a sequence begins (8.1).
pub fn no_rasl_output_flag(nal_type: u8, first_in_sequence: bool) -> bool
    ensures { result ≡ no_rasl_output_flag nal_type first_in_sequence }
{
    (BLA_W_LP <= nal_type && nal_type <= IDR_N_LP) || (nal_type == CRA_NUT && first_in_sequence)
}

/// A flag, u(1), or what is inferred where it isn't coded (7.4.7.1). Where no bit is left, the reader's rule on syntax
/// is broken.
pub fn flag_or<'a>(
    reader: &mut FieldReader<'a>,
    is_coded: bool,
    inferred: bool,
) -> Result<bool, Refusal>
    ensures { Takes (λ x. x) result reader.old reader.new (flag_or is_coded inferred) }
{
    if is_coded {
        reader.flag()
    } else {
        Ok(inferred)
    }
}

/// ue(v) of at most `greatest` (9.2), or what is inferred where it isn't coded (7.4.7.1). Where bits lack or its prefix
/// is too long, the reader's rule on syntax is broken, and where it is greater, that on range.
pub fn ue_or<'a>(
    reader: &mut FieldReader<'a>,
    is_coded: bool,
    greatest: u32,
    inferred: u32,
) -> Result<u32, Refusal>
    requires { inferred ≤ greatest }
    ensures value { Takes (λ x. x) result reader.old reader.new (ue_or is_coded greatest inferred) }
    ensures in_range { IfOk result (λ x. x ≤ greatest) }
{
    if is_coded {
        reader.ue_to(greatest)
    } else {
        Ok(inferred)
    }
}

/// How many bits u(v) has for a field of `n` values: Ceil(Log2(n)) (7.4.7.1).
#[tactic(auto, unfolding(spec_slice_headers::specs::Context::ceil_log2))]
pub fn ceil_log2(n: u32) -> u32
    ensures value { result ≡ ceil_log2 n }
    ensures few { result ≤ 32 }
{
    let highest = n.saturating_sub(1);
    (0..32_u32).filter(|k| highest >> *k > 0).count() as u32
}
