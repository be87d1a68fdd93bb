//! What the level of a sequence parameter set allows (A.4.1).

ghost use Rattle.std.specs.Prelude.{◌≡◌, ◌≤◌, true, IfSome};
ghost use Rattle.header_fields.specs.Takes.{Takes};
ghost use Rattle.hv_base.specs.declared.fault.FaultKind.TheVariants.{LevelExceeded};
ghost use Rattle.hv_base.specs.declared.refusal.Refusal.TheVariants.{Fault};
ghost use Rattle.spec_parameter_sets.specs.Levels.{level, level_kept, level_of, max_dpb_size, within_level};

use header_fields::FieldReader;
use hv_base::{FaultKind, LevelMeasure, Refusal};
use spec_parameter_sets::Level;

/// The level of a general_level_idc, if it names one (Table A.8).
#[tactic(auto, unfolding(spec_parameter_sets::specs::Levels::level_of))]
fn level_of(idc: u8) -> Option<Level>
    ensures value { result ≡ level_of idc }
    ensures few { IfSome result (λ l. l.max_luma_ps ≤ 35651584) }
{
    if idc == 30 {
        return level(36_864, 543);
    }
    if idc == 60 {
        return level(122_880, 991);
    }
    if idc == 63 {
        return level(245_760, 1402);
    }
    if idc == 90 {
        return level(552_960, 2103);
    }
    if idc == 93 {
        return level(983_040, 2804);
    }
    if idc == 120 || idc == 123 {
        return level(2_228_224, 4222);
    }
    if idc == 150 || idc == 153 || idc == 156 {
        return level(8_912_896, 8444);
    }
    if idc == 180 || idc == 183 || idc == 186 {
        return level(35_651_584, 16_888);
    }
    None
}

fn level(max_luma_ps: u32, max_side: u32) -> Option<Level>
    ensures { result ≡ level max_luma_ps max_side }
{
    Some(Level {
        max_luma_ps,
        max_side,
    })
}

/// MaxDpbSize for pictures of this many luma samples (A.4.2).
#[tactic(auto, unfolding(spec_parameter_sets::specs::Levels::max_dpb_size))]
fn max_dpb_size(max_luma_ps: u32, area: u32) -> u32
    requires { max_luma_ps ≤ 35651584 }
    ensures { result ≡ max_dpb_size max_luma_ps area }
{
    if area <= max_luma_ps / 4 {
        return 16;
    }
    if area <= max_luma_ps / 2 {
        return 12;
    }
    if area <= 3 * max_luma_ps / 4 {
        return 8;
    }
    6
}

fn exceeded(what: LevelMeasure, value: u32, limit: u32) -> Refusal
    ensures { result ≡ Fault (LevelExceeded what value limit) }
{
    Refusal::Fault(FaultKind::LevelExceeded { what, value, limit })
}

/// That pictures of these sides and this many that are kept are within a level. It reads nothing.
#[tactic(auto, unfolding(spec_parameter_sets::specs::Levels::within_level))]
fn judge<'a>(
    reader: &mut FieldReader<'a>,
    level: Level,
    width: u32,
    height: u32,
    pictures: u32,
) -> Result<(), Refusal>
    requires luma { level.max_luma_ps ≤ 35651584 }
    requires width { width ≤ 8192 }
    requires height { height ≤ 8192 }
    ensures value { Takes (λ _. true) result reader.old reader.new (within_level level width height pictures) }
{
    let area = width * height;
    let most = max_dpb_size(level.max_luma_ps, area);
    if area > level.max_luma_ps {
        return Err(exceeded(LevelMeasure::Area, area, level.max_luma_ps));
    }
    if width * width > 8 * level.max_luma_ps {
        return Err(exceeded(LevelMeasure::Width, width, level.max_side));
    }
    if height * height > 8 * level.max_luma_ps {
        return Err(exceeded(LevelMeasure::Height, height, level.max_side));
    }
    if pictures > most {
        return Err(exceeded(LevelMeasure::Buffer, pictures, most));
    }
    Ok(())
}

/// That pictures of these sides and this many that are kept are within the level of a general_level_idc, if it names
/// one: else `LevelExceeded` with the first measure of these that is over, its value and what the level allows. It
/// reads nothing.
#[tactic(auto, unfolding(spec_parameter_sets::specs::Levels::level_kept))]
pub(crate) fn judge_level<'a>(
    reader: &mut FieldReader<'a>,
    idc: u8,
    width: u32,
    height: u32,
    pictures: u32,
) -> Result<(), Refusal>
    requires width { width ≤ 8192 }
    requires height { height ≤ 8192 }
    ensures value { Takes (λ _. true) result reader.old reader.new (level_kept idc width height pictures) }
{
    match level_of(idc) {
        None => Ok(()),
        Some(level) => judge(reader, level, width, height, pictures),
    }
}
