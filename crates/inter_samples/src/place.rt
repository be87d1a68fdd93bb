//! Where a block of a component lies.

ghost use Rattle.std.specs.Prelude.{◌≡◌, ◌+◌, ◌*◌, ◌≤◌};
ghost use Rattle.spec_motion.specs.Derivation.{IsBlock};
ghost use Rattle.spec_inter_prediction.specs.Taps.{IsDepth};
ghost use Rattle.spec_reconstruction.specs.Parameters.{depth_of};
ghost use Rattle.spec_reconstruction.specs.Sound.{IsFormat};
ghost use Rattle.spec_reconstruction.specs.SpecSliceData.{samples_of_place};

use ctu_records::Rectangle;
use inter_pred::PredictionBlock;
use spec_reconstruction::UnitFormat;

/// The bit depth of a component.
pub fn depth_of(format: &UnitFormat, c: u8) -> u32
    requires { IsFormat format.now }
    ensures value { result ≡ depth_of format.now c }
    ensures range { IsDepth result }
{
    u32::from(if c == 0 {
        format.luma_depth
    } else {
        format.chroma_depth
    })
}

/// How many samples of a component a place has on a side (6.2).
pub fn samples_of_place(c: u8) -> u32
    ensures value { result ≡ samples_of_place c }
    ensures high { result ≤ 4 }
{
    if c == 0 { 4 } else { 2 }
}

/// A block of places of a unit in samples of a component of the picture. `column` and `row` are those of the unit's
/// first place.
pub fn block_of(block: Rectangle, column: u32, row: u32, c: u8) -> PredictionBlock
    requires block { IsBlock block }
    requires place { (column ≤ 8192) × (row ≤ 8192) }
    ensures x { result.x ≡ samples_of_place c * column + samples_of_place c * block.x }
    ensures y { result.y ≡ samples_of_place c * row + samples_of_place c * block.y }
    ensures width { result.width ≡ samples_of_place c * block.width }
    ensures height { result.height ≡ samples_of_place c * block.height }
    ensures size { (result.width ≤ 64) × (result.height ≤ 64) }
    ensures place { (result.x ≤ 65536) × (result.y ≤ 65536) }
{
    let side = samples_of_place(c);
    PredictionBlock {
        x: side * column + side * u32::from(block.x),
        y: side * row + side * u32::from(block.y),
        width: side * u32::from(block.width),
        height: side * u32::from(block.height),
    }
}
