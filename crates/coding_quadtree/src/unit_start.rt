//! What coding_unit begins with (7.3.8.5).

ghost use Rattle.std.specs.Prelude.{◌≡◌, ◌+◌, ◌<◌, ◌≤◌, IfOk};
ghost use Rattle.ctu_records.specs.Tree.{IsPlaced};
ghost use Rattle.spec_cabac.specs.Engine.{IsLive};
ghost use Rattle.spec_slice_data.specs.Inter.{cu_skip_flag, pred_mode_flag, skipped_beside};
ghost use Rattle.spec_slice_data.specs.Tree.{cu_transquant_bypass_flag, unit_start};
ghost use Rattle.transform_tree.specs.CabacContexts.{Takes};

use ctu_records::{Records, Square};
use hv_base::Breach;
use spec_cabac::{CU_SKIP_FLAG, CU_TRANSQUANT_BYPASS_FLAG, PRED_MODE_FLAG};
use spec_slice_data::{CtuSyntax, InterSyntax, UnitStart};
use transform_tree::BinReader;

/// cu_transquant_bypass_flag.
fn cu_transquant_bypass_flag(reader: &mut BinReader<'_>, syntax: &CtuSyntax) -> Result<bool, Breach>
    requires { IsLive reader.old.interval }
    ensures { Takes (λ x. x) result reader.old reader.new (cu_transquant_bypass_flag syntax.now) }
{
    if syntax.transquant_bypass_enabled {
        reader.decision(CU_TRANSQUANT_BYPASS_FLAG)
    } else {
        Ok(false)
    }
}

/// How many of the places on the left and above are skipped.
#[tactic(auto, unfolding(spec_slice_data::specs::Inter::skipped_beside))]
fn skipped_beside(records: &Records, x: u8, y: u8) -> usize
    requires x { x < 16 }
    requires y { y < 16 }
    ensures value { result ≡ skipped_beside records.now x y }
    ensures few { result ≤ 2 }
{
    let left = records.skipped_left(usize::from(x), usize::from(y));
    let above = records.skipped_above(usize::from(x), usize::from(y));
    usize::from(left) + usize::from(above)
}

/// cu_skip_flag.
fn cu_skip_flag(
    reader: &mut BinReader<'_>,
    records: &Records,
    inter: &InterSyntax,
    x: u8,
    y: u8,
) -> Result<bool, Breach>
    requires live { IsLive reader.old.interval }
    requires x { x < 16 }
    requires y { y < 16 }
    ensures { Takes (λ x. x) result reader.old reader.new (cu_skip_flag inter.now x y records.now) }
{
    if inter.is_inter {
        reader.decision(CU_SKIP_FLAG + skipped_beside(records, x, y))
    } else {
        Ok(false)
    }
}

/// pred_mode_flag.
fn pred_mode_flag(
    reader: &mut BinReader<'_>,
    inter: &InterSyntax,
    skipped: bool,
) -> Result<bool, Breach>
    requires { IsLive reader.old.interval }
    ensures { Takes (λ x. x) result reader.old reader.new (pred_mode_flag inter.now skipped) }
{
    if skipped {
        Ok(false)
    } else if inter.is_inter {
        reader.decision(PRED_MODE_FLAG)
    } else {
        Ok(true)
    }
}

/// What a coding unit begins with.
#[tactic(auto, unfolding(spec_slice_data::specs::Tree::unit_start), using(transform_tree::proofs::Powers::some_places))]
pub fn unit_start(
    reader: &mut BinReader<'_>,
    records: &Records,
    syntax: &CtuSyntax,
    square: Square,
    depth: u8,
) -> Result<UnitStart, Breach>
    requires live { IsLive reader.old.interval }
    requires placed { IsPlaced square }
    ensures value { Takes (λ x. x) result reader.old reader.new (unit_start syntax.now depth square records.now) }
    ensures square { IfOk result (λ start. start.square ≡ square) }
    ensures depth { IfOk result (λ start. start.depth ≡ depth) }
{
    let transquant_bypass = cu_transquant_bypass_flag(reader, syntax)?;
    let skipped = cu_skip_flag(reader, records, &syntax.inter, square.x, square.y)?;
    let intra = pred_mode_flag(reader, &syntax.inter, skipped)?;
    Ok(UnitStart {
        square,
        depth,
        transquant_bypass,
        skipped,
        intra,
    })
}
