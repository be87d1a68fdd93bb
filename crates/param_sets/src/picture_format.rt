//! The format of pictures in a sequence parameter set (7.3.2.2, 7.4.3.2).

ghost use Rattle.std.specs.Prelude.{◌≡◌, ◌+◌, ◌*◌, ◌<◌, ◌≤◌, nat_lt, IfOk, IfSome};
ghost use Rattle.header_fields.specs.Takes.{Takes};
ghost use Rattle.header_types.specs.SequenceParameterSets.{IsConformanceWindow, IsPictureFormat};
ghost use Rattle.spec_formats.specs.Fields.{optional};
ghost use Rattle.spec_parameter_sets.specs.ProfileTierLevel.{greatest_depth_minus8};
ghost use Rattle.spec_parameter_sets.specs.SequenceParameterSet.{side, conformance_window, main_only, bit_depth};
ghost use Rattle.spec_parameter_sets.specs.SequenceParameterSet.{picture_format};

use crate::profile::greatest_depth_minus8;
use header_fields::FieldReader;
use header_types::{ConformanceWindow, PictureFormat, Profile};
use hv_base::{FaultKind, LimitKind, Refusal};

/// A width or a height in luma samples.
#[tactic(auto, unfolding(spec_parameter_sets::specs::SequenceParameterSet::side))]
fn read_side<'a>(reader: &mut FieldReader<'a>) -> Result<u32, Refusal>
    ensures value { Takes (λ x. x) result reader.old reader.new side }
    ensures some { IfOk result (λ x. 1 ≤ x) }
    ensures short { IfOk result (λ x. x ≤ 8192) }
{
    let samples = reader.ue()?;
    reader.ranged(samples > 0)?;
    if samples > 8192 {
        return Err(Refusal::Limit(LimitKind::Side));
    }
    Ok(samples)
}

/// Whether two offsets, in units of two luma samples, leave some of a side.
fn leave_some(first: u32, second: u32, side: u32) -> bool
    ensures { result ≡ nat_lt (2 * (first + second)) side }
{
    2 * (u64::from(first) + u64::from(second)) < u64::from(side)
}

#[tactic(auto, unfolding(spec_parameter_sets::specs::SequenceParameterSet::conformance_window))]
fn read_window<'a>(
    reader: &mut FieldReader<'a>,
    present: bool,
    width: u32,
    height: u32,
) -> Result<Option<ConformanceWindow>, Refusal>
    ensures value { Takes (λ x. x) result reader.old reader.new (optional present (conformance_window width height)) }
    ensures in_range { IfOk result (λ window. IfSome window (IsConformanceWindow width height)) }
{
    if !present {
        return Ok(None);
    }
    let conf_win_left_offset = reader.ue()?;
    let conf_win_right_offset = reader.ue()?;
    reader.ranged(leave_some(conf_win_left_offset, conf_win_right_offset, width))?;
    let conf_win_top_offset = reader.ue()?;
    let conf_win_bottom_offset = reader.ue()?;
    reader.ranged(leave_some(conf_win_top_offset, conf_win_bottom_offset, height))?;
    Ok(Some(ConformanceWindow {
        conf_win_left_offset,
        conf_win_right_offset,
        conf_win_top_offset,
        conf_win_bottom_offset,
    }))
}

/// A field that has one value in each profile.
#[tactic(auto, unfolding(spec_parameter_sets::specs::SequenceParameterSet::main_only))]
fn read_main_only<'a>(reader: &mut FieldReader<'a>, value: u32) -> Result<u32, Refusal>
    ensures value { Takes (λ x. x) result reader.old reader.new (main_only value) }
    ensures only { IfOk result (λ x. x ≡ value) }
{
    let found = reader.ue()?;
    if found != value {
        return Err(Refusal::Fault(FaultKind::Profile));
    }
    Ok(found)
}

/// The bit depth of a component less 8, which is `greatest` at most.
#[tactic(auto, unfolding(spec_parameter_sets::specs::SequenceParameterSet::bit_depth))]
fn read_bit_depth<'a>(reader: &mut FieldReader<'a>, greatest: u32) -> Result<u32, Refusal>
    ensures value { Takes (λ x. x) result reader.old reader.new (bit_depth greatest) }
    ensures within { IfOk result (λ x. x ≤ greatest) }
{
    let minus8 = reader.ue()?;
    if minus8 > greatest {
        return Err(Refusal::Fault(FaultKind::Profile));
    }
    Ok(minus8)
}

/// chroma_format_idc to bit_depth_chroma_minus8, by the general profile.
#[tactic(auto, unfolding(spec_parameter_sets::specs::SequenceParameterSet::picture_format))]
pub(crate) fn read_picture_format<'a>(
    reader: &mut FieldReader<'a>,
    general: &Profile,
) -> Result<PictureFormat, Refusal>
    ensures value { Takes (λ x. x) result reader.old reader.new (picture_format general.now) }
    ensures in_range { IfOk result IsPictureFormat }
{
    let greatest = greatest_depth_minus8(general);
    let chroma_format_idc = read_main_only(reader, 1)?;
    let pic_width_in_luma_samples = read_side(reader)?;
    let pic_height_in_luma_samples = read_side(reader)?;
    if pic_width_in_luma_samples * pic_height_in_luma_samples > 35_651_584 {
        return Err(Refusal::Limit(LimitKind::Area));
    }
    let conformance_window_flag = reader.flag()?;
    let conformance_window = read_window(
        reader,
        conformance_window_flag,
        pic_width_in_luma_samples,
        pic_height_in_luma_samples,
    )?;
    let bit_depth_luma_minus8 = read_bit_depth(reader, greatest)?;
    let bit_depth_chroma_minus8 = read_bit_depth(reader, greatest)?;
    Ok(PictureFormat {
        chroma_format_idc,
        pic_width_in_luma_samples,
        pic_height_in_luma_samples,
        conformance_window,
        bit_depth_luma_minus8,
        bit_depth_chroma_minus8,
    })
}
