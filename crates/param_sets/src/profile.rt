//! Profile, tier and level (7.3.3, 7.4.4).

ghost use Rattle.std.specs.Prelude.{◌≡◌, ◌≤◌, true, false};
ghost use Rattle.header_fields.specs.Takes.{Takes};
ghost use Rattle.spec_formats.specs.Fields.{optional, repeated, each, u};
ghost use Rattle.spec_parameter_sets.specs.ProfileTierLevel.{is_main, is_main_10, reserved_44bits, profile};
ghost use Rattle.spec_parameter_sets.specs.ProfileTierLevel.{greatest_depth_minus8, sub_layer_flags, reserved_2bits};
ghost use Rattle.spec_parameter_sets.specs.ProfileTierLevel.{sub_layer, profile_tier_level};

use header_fields::FieldReader;
use header_types::{FieldList, Profile, ProfileTierLevel, SubLayerProfile};
use hv_base::{FaultKind, Refusal};
use std::alloc::Global;

/// Whether the stream conforms to the Main profile (A.3.2).
fn is_main(profile_idc: u32, profile_compatibility_flags: u32) -> bool
    ensures { result ≡ is_main profile_idc profile_compatibility_flags }
{
    profile_idc == 1 || (profile_compatibility_flags >> 30) % 2 == 1
}

/// Whether the stream conforms to the Main 10 profile (A.3.3).
fn is_main_10(profile_idc: u32, profile_compatibility_flags: u32) -> bool
    ensures { result ≡ is_main_10 profile_idc profile_compatibility_flags }
{
    profile_idc == 2 || (profile_compatibility_flags >> 29) % 2 == 1
}

/// The greatest bit depth of a profile, less 8.
#[tactic(auto, unfolding(spec_parameter_sets::specs::ProfileTierLevel::greatest_depth_minus8))]
pub(crate) fn greatest_depth_minus8(profile: &Profile) -> u32
    ensures value { result ≡ greatest_depth_minus8 profile.now }
    ensures few { result ≤ 2 }
{
    if is_main_10(
        u32::from(profile.profile_idc),
        profile.profile_compatibility_flags,
    ) {
        2
    } else {
        0
    }
}

#[tactic(auto, unfolding(spec_parameter_sets::specs::ProfileTierLevel::reserved_44bits))]
fn read_reserved_44bits<'a>(reader: &mut FieldReader<'a>) -> Result<u64, Refusal>
    ensures { Takes (λ x. x) result reader.old reader.new reserved_44bits }
{
    let high = reader.u(32)?;
    let low = reader.u(12)?;
    Ok(u64::from(high) * 4096 + u64::from(low))
}

#[tactic(auto, unfolding(spec_parameter_sets::specs::ProfileTierLevel::profile))]
fn read_profile<'a>(reader: &mut FieldReader<'a>, is_general: bool) -> Result<Profile, Refusal>
    ensures { Takes (λ x. x) result reader.old reader.new (profile is_general) }
{
    let profile_space = reader.u(2)? as u8;
    let tier_flag = reader.flag()?;
    let profile_idc = reader.u(5)?;
    let profile_compatibility_flags = reader.u(32)?;
    let is_decoded = is_main(profile_idc, profile_compatibility_flags)
        || is_main_10(profile_idc, profile_compatibility_flags);
    if is_general && !is_decoded {
        return Err(Refusal::Fault(FaultKind::Profile));
    }
    let progressive_source_flag = reader.flag()?;
    let interlaced_source_flag = reader.flag()?;
    let non_packed_constraint_flag = reader.flag()?;
    let frame_only_constraint_flag = reader.flag()?;
    let reserved_zero_44bits = read_reserved_44bits(reader)?;
    Ok(Profile {
        profile_space,
        tier_flag,
        profile_idc: profile_idc as u8,
        profile_compatibility_flags,
        progressive_source_flag,
        interlaced_source_flag,
        non_packed_constraint_flag,
        frame_only_constraint_flag,
        reserved_zero_44bits,
    })
}

/// sub_layer_profile_present_flag and sub_layer_level_present_flag of one sub-layer.
#[tactic(auto, unfolding(spec_parameter_sets::specs::ProfileTierLevel::sub_layer_flags))]
fn read_sub_layer_flags<'a>(reader: &mut FieldReader<'a>) -> Result<(bool, bool), Refusal>
    ensures { Takes (λ x. x) result reader.old reader.new sub_layer_flags }
{
    let profile_present = reader.flag()?;
    let level_present = reader.flag()?;
    Ok((profile_present, level_present))
}

/// Those flags of `count` sub-layers.
fn read_present<'a>(
    alloc: Global,
    reader: &mut FieldReader<'a>,
    count: u32,
) -> Result<Vec<(bool, bool)>, Refusal>
    ensures { Takes (λ v. v.items) result reader.old reader.new (repeated count sub_layer_flags) }
{
    let mut present = Vec::new(alloc);
    for _ in 0..count {
        present.push(read_sub_layer_flags(reader)?)?;
    }
    Ok(present)
}

/// reserved_zero_2bits of the sub-layers that aren't there up to the eighth, where `lower` aren't the highest.
#[tactic(auto, unfolding(spec_parameter_sets::specs::ProfileTierLevel::reserved_2bits))]
fn read_reserved_2bits<'a>(reader: &mut FieldReader<'a>, lower: u32) -> Result<u32, Refusal>
    requires { lower ≤ 6 }
    ensures { Takes (λ x. x) result reader.old reader.new (reserved_2bits lower) }
{
    match lower {
        0 => Ok(0),
        _ => reader.u(2 * (8 - lower)),
    }
}

fn read_sub_layer_profile<'a>(
    reader: &mut FieldReader<'a>,
    present: bool,
) -> Result<Option<Profile>, Refusal>
    ensures { Takes (λ x. x) result reader.old reader.new (optional present (profile false)) }
{
    if !present {
        return Ok(None);
    }
    Ok(Some(read_profile(reader, false)?))
}

fn read_sub_layer_level<'a>(
    reader: &mut FieldReader<'a>,
    present: bool,
) -> Result<Option<u8>, Refusal>
    ensures { Takes (λ x. x) result reader.old reader.new (optional present (u 8)) }
{
    if !present {
        return Ok(None);
    }
    Ok(Some(reader.u(8)? as u8))
}

#[tactic(auto, unfolding(spec_parameter_sets::specs::ProfileTierLevel::sub_layer))]
fn read_sub_layer<'a>(
    reader: &mut FieldReader<'a>,
    present: (bool, bool),
) -> Result<SubLayerProfile, Refusal>
    ensures { Takes (λ x. x) result reader.old reader.new (sub_layer present) }
{
    let profile = read_sub_layer_profile(reader, present.0)?;
    let level_idc = read_sub_layer_level(reader, present.1)?;
    Ok(SubLayerProfile { profile, level_idc })
}

/// What is said of each sub-layer, of which `present` tells what is there.
fn read_sub_layers<'a>(
    alloc: Global,
    reader: &mut FieldReader<'a>,
    present: &[(bool, bool)],
) -> Result<FieldList<SubLayerProfile>, Refusal>
    ensures { Takes (λ x. x) result reader.old reader.new (each sub_layer present.now) }
{
    let mut sub_layers = FieldList::new(alloc);
    for flags in present {
        sub_layers.push(read_sub_layer(reader, *flags)?)?;
    }
    Ok(sub_layers)
}

/// profile_tier_level(1, `max_sub_layers_minus1`).
#[tactic(auto, unfolding(spec_parameter_sets::specs::ProfileTierLevel::profile_tier_level))]
pub(crate) fn read_profile_tier_level<'a>(
    alloc: Global,
    reader: &mut FieldReader<'a>,
    max_sub_layers_minus1: u32,
) -> Result<ProfileTierLevel, Refusal>
    requires { max_sub_layers_minus1 ≤ 6 }
    ensures { Takes (λ x. x) result reader.old reader.new (profile_tier_level max_sub_layers_minus1) }
{
    let general = read_profile(reader, true)?;
    let general_level_idc = reader.u(8)? as u8;
    let present = read_present(alloc, reader, max_sub_layers_minus1)?;
    let reserved_zero_2bits = read_reserved_2bits(reader, max_sub_layers_minus1)?;
    let sub_layers = read_sub_layers(alloc, reader, present.as_slice())?;
    Ok(ProfileTierLevel {
        general,
        general_level_idc,
        reserved_zero_2bits,
        sub_layers,
    })
}
