//! Coded blocks.

ghost use Rattle.std.specs.Prelude.{◌≡◌, ◌+◌, ◌*◌, ◌^◌, ◌<◌, ◌≤◌, Bool, true, false, length};
ghost use Rattle.std.specs.List.{All};
ghost use Rattle.ctu_build.specs.Held.{held, IsInside};
ghost use Rattle.spec_reconstruction.specs.Sound.{IsCoded, IsFormat};
ghost use Rattle.spec_reconstruction.specs.Known.{constructed};
ghost use Rattle.spec_reconstruction.specs.Parameters.{depth_of};
ghost use Rattle.spec_reconstruction.specs.Residuals.{residuals_behind, levels_behind};
ghost use Rattle.spec_reconstruction.specs.SpecSliceData.{samples_of_place};
ghost use Rattle.spec_transforms.specs.Scaling.{Is16, IsParameter};

use crate::levels::read_levels;
use crate::parameters::{depth_of, parameter_of};
use crate::place::place_of;
use crate::residuals::{Quantized, residuals_of};
use crate::scratch::Scratch;
use crate::unit_samples::UnitSamples;
use ctu_records::{CodedBlock, Item};
use spec_reconstruction::{UnitFormat, UnitMode};

/// A coded block, and how its coding unit is coded, with its Qp'Y.
#[derive(Clone, Copy)]
pub(crate) struct InUnit {
    /// The block.
    pub(crate) block: CodedBlock,
    /// How its coding unit is coded.
    pub(crate) mode: UnitMode,
    /// Qp'Y of its coding unit.
    pub(crate) qp: u8,
}

/// Adds the residuals of a block, whose levels are the next items, to its predicted samples.
pub(crate) fn construct(
    format: &UnitFormat,
    coded: InUnit,
    items: &[Item],
    scratch: &mut Scratch,
    samples: &mut UnitSamples,
)
    requires format { IsFormat format.now }
    requires block { IsCoded coded.block }
    requires qp { IsParameter format.now.luma_depth coded.qp }
    ensures { held samples.new
        ≡ constructed (depth_of format.now coded.block.component) coded.block.component
        (samples_of_place coded.block.component * coded.block.x)
        (samples_of_place coded.block.component * coded.block.y) (2 ^ coded.block.log2_size)
        (residuals_behind format.now coded.mode coded.block coded.qp items.now) (held samples.old) }
{
    if coded.mode.transquant_bypass {
        add_levels(format, coded, items, &mut scratch.levels, samples);
    } else {
        add_residuals(format, coded, items, scratch, samples);
    }
}

/// Adds the levels of a block where cu_transquant_bypass_flag is 1.
#[tactic(auto, using(crate::proofs::Squares::levels_are_residuals))]
fn add_levels(
    format: &UnitFormat,
    coded: InUnit,
    items: &[Item],
    levels: &mut [i32; 1024],
    samples: &mut UnitSamples,
)
    requires format { IsFormat format.now }
    requires block { IsCoded coded.block }
    requires bypass { coded.mode.transquant_bypass ≡ true }
    ensures { held samples.new
        ≡ constructed (depth_of format.now coded.block.component) coded.block.component
        (samples_of_place coded.block.component * coded.block.x)
        (samples_of_place coded.block.component * coded.block.y) (2 ^ coded.block.log2_size)
        (residuals_behind format.now coded.mode coded.block coded.qp items.now) (held samples.old) }
{
    let place = place_of(coded.block);
    let depth = depth_of(format, coded.block.component);
    let levels = &mut levels[..place.area()];
    read_levels(items, levels);
    samples.add(place, levels, depth);
}

/// Adds the residuals of a block where it is 0.
fn add_residuals(
    format: &UnitFormat,
    coded: InUnit,
    items: &[Item],
    scratch: &mut Scratch,
    samples: &mut UnitSamples,
)
    requires format { IsFormat format.now }
    requires block { IsCoded coded.block }
    requires qp { IsParameter format.now.luma_depth coded.qp }
    requires bypass { coded.mode.transquant_bypass ≡ false }
    ensures { held samples.new
        ≡ constructed (depth_of format.now coded.block.component) coded.block.component
        (samples_of_place coded.block.component * coded.block.x)
        (samples_of_place coded.block.component * coded.block.y) (2 ^ coded.block.log2_size)
        (residuals_behind format.now coded.mode coded.block coded.qp items.now) (held samples.old) }
{
    let block = coded.block;
    let place = place_of(block);
    let area = place.area();
    let depth = depth_of(format, block.component);
    let qp = parameter_of(format, block.component, coded.qp);
    let scaled = &mut scratch.scaled[..];
    let residuals = &mut scratch.residuals[..];
    let scaled = &mut scaled[..area];
    let residuals = &mut residuals[..area];
    let quantized = Quantized {
        block,
        mode: coded.mode,
        qp,
    };
    residuals_of(format, quantized, items, scaled, residuals);
    samples.add(place, residuals, depth);
}
