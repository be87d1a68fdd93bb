//! part_mode of inter coding units (7.3.8.5, 9.3.3.5).

ghost use Rattle.std.specs.Prelude.{◌≡◌, ◌<◌};
ghost use Rattle.spec_cabac.specs.Engine.{IsLive};
ghost use Rattle.spec_slice_data.specs.Inter.{beside_or_four, beside_parts, may_have_four, more_parts, part_mode};
ghost use Rattle.spec_slice_data.specs.Inter.{two_parts};
ghost use Rattle.transform_tree.specs.CabacContexts.{Takes};

use ctu_records::PartMode;
use hv_base::Breach;
use spec_cabac::PART_MODE;
use spec_slice_data::InterSyntax;
use transform_tree::BinReader;

/// Two parts of one height or width, or of two; then which of them is the lesser.
#[tactic(auto, unfolding(spec_slice_data::specs::Inter::two_parts))]
fn two_parts(
    reader: &mut BinReader<'_>,
    amp: bool,
    halves: PartMode,
    lesser_first: PartMode,
    greater_first: PartMode,
) -> Result<PartMode, Breach>
    requires { IsLive reader.old.interval }
    ensures { Takes (λ x. x) result reader.old reader.new (two_parts amp halves lesser_first greater_first) }
{
    let even = if amp {
        reader.decision(PART_MODE + 3)?
    } else {
        true
    };
    if even {
        return Ok(halves);
    }
    if reader.bypass()? {
        Ok(greater_first)
    } else {
        Ok(lesser_first)
    }
}

/// Two parts beside one another, or four.
#[tactic(auto, unfolding(spec_slice_data::specs::Inter::beside_or_four))]
fn beside_or_four(reader: &mut BinReader<'_>) -> Result<PartMode, Breach>
    requires { IsLive reader.old.interval }
    ensures { Takes (λ x. x) result reader.old reader.new beside_or_four }
{
    if reader.decision(PART_MODE + 2)? {
        Ok(PartMode::Nx2N)
    } else {
        Ok(PartMode::NxN)
    }
}

/// Parts that aren't over one another.
#[tactic(auto, unfolding(spec_slice_data::specs::Inter::beside_parts))]
fn beside_parts(
    reader: &mut BinReader<'_>,
    inter: &InterSyntax,
    least: bool,
    n: u8,
) -> Result<PartMode, Breach>
    requires { IsLive reader.old.interval }
    ensures { Takes (λ x. x) result reader.old reader.new (beside_parts inter.now least n) }
{
    if least && 1 < n {
        return beside_or_four(reader);
    }
    let amp = inter.amp_enabled && !least;
    two_parts(
        reader,
        amp,
        PartMode::Nx2N,
        PartMode::NLx2N,
        PartMode::NRx2N,
    )
}

/// part_mode behind its first bin.
#[tactic(auto, unfolding(spec_slice_data::specs::Inter::more_parts))]
fn more_parts(
    reader: &mut BinReader<'_>,
    inter: &InterSyntax,
    least: bool,
    n: u8,
) -> Result<PartMode, Breach>
    requires { IsLive reader.old.interval }
    ensures { Takes (λ x. x) result reader.old reader.new (more_parts inter.now least n) }
{
    if !reader.decision(PART_MODE + 1)? {
        return beside_parts(reader, inter, least, n);
    }
    let amp = inter.amp_enabled && !least;
    two_parts(
        reader,
        amp,
        PartMode::TwoNxN,
        PartMode::TwoNxnU,
        PartMode::TwoNxnD,
    )
}

/// part_mode.
#[tactic(auto, unfolding(spec_slice_data::specs::Inter::part_mode))]
pub fn part_mode(
    reader: &mut BinReader<'_>,
    inter: &InterSyntax,
    least: bool,
    n: u8,
) -> Result<PartMode, Breach>
    requires { IsLive reader.old.interval }
    ensures { Takes (λ x. x) result reader.old reader.new (part_mode inter.now least n) }
{
    if reader.decision(PART_MODE)? {
        Ok(PartMode::Whole)
    } else {
        more_parts(reader, inter, least, n)
    }
}
