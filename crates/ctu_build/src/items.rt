//! What single items tell.

ghost use Rattle.std.specs.Prelude.{◌≡◌, ◌≤◌, if◌then◌else◌};
ghost use Rattle.ctu_build.specs.Held.{held};
ghost use Rattle.ctu_build.specs.Inter.{IsReady, inter_of};
ghost use Rattle.ctu_motion.specs.Held.{held as motion_held};
ghost use Rattle.ctu_records.specs.Tree.{luma_mode_at, qp_at};
ghost use Rattle.spec_reconstruction.specs.Inter.{prediction_laid};
ghost use Rattle.spec_reconstruction.specs.Prediction.{unit_predicted};
ghost use Rattle.spec_reconstruction.specs.Pulses.{pulses_laid};
ghost use Rattle.spec_reconstruction.specs.Sound.{AreSound, HasPulses, IsCoded, IsFormat, IsPrediction, IsSquare};
ghost use Rattle.spec_reconstruction.specs.Unit.{block_constructed};
ghost use Rattle.spec_transforms.specs.Scaling.{IsParameter};

use crate::blocks::{InUnit, construct};
use crate::coding::Coding;
use crate::intra_border::IntraUnit;
use crate::prediction_units::lay_prediction;
use crate::pulses::lay_pulses;
use crate::scratch::Scratch;
use crate::soundness::{is_coded, is_square};
use crate::source::Source;
use crate::transform_units::{Modes, predict_unit};
use crate::unit_samples::UnitSamples;
use ctu_records::{CodedBlock, Item, PredictionUnit, Records, Square};
use inter_samples::RefWindow;
use spec_motion::is_placed;
use spec_reconstruction::UnitFormat;

/// Predicts the block of a prediction unit.
#[tactic(auto, using(crate::proofs::Parts::prediction_placed))]
pub(crate) fn build_prediction<V: RefWindow>(
    source: &Source<'_>,
    view: &mut V,
    prediction: &PredictionUnit,
    scratch: &mut Scratch,
    samples: &mut UnitSamples,
)
    requires ready { IsReady source.now.format.now source.now.inter (V.reference_at view.old) }
    ensures value { IsPrediction prediction.now
        → held samples.new
        ≡ prediction_laid source.now.format.now (inter_of source.now.inter (V.reference_at view.old))
        prediction.now (held samples.old) }
    ensures same { V.reference_at view.new ≡ V.reference_at view.old }
{
    if is_placed(prediction) {
        lay_prediction(source, view, prediction, scratch, samples);
    }
}

/// Lays the samples of a coding unit with pulse code modulation, which are the next items.
pub(crate) fn build_pulses(
    format: &UnitFormat,
    square: Square,
    behind: &[Item],
    scratch: &mut Scratch,
    samples: &mut UnitSamples,
)
    requires format { IsFormat format.now }
    ensures { IsSquare square → 1 ≤ square.log2_size → HasPulses format.now square behind.now
        → held samples.new ≡ pulses_laid format.now square behind.now (held samples.old) }
{
    if 1 <= square.log2_size && is_square(square) {
        lay_pulses(format, square, behind, &mut scratch.samples, samples);
    }
}

/// Predicts the blocks of a transform unit where its coding unit is intra.
pub(crate) fn build_transform(
    source: &Source<'_>,
    coding: Coding,
    square: Square,
    scratch: &mut Scratch,
    samples: &mut UnitSamples,
)
    requires format { IsFormat source.now.format.now }
    requires mode { coding.chroma_mode ≤ 34 }
    ensures { AreSound source.now.format.now source.now.records.now.items → IsSquare square
        → held samples.new
        ≡ (if coding.mode.intra
        then unit_predicted source.now.format.now (motion_held source.now.inter.motion.now)
        (luma_mode_at source.now.records.now.items square.x square.y) coding.chroma_mode square (held samples.old)
        else held samples.old) }
{
    if coding.mode.intra && is_square(square) {
        let intra = IntraUnit {
            format: source.format,
            motion: source.inter.motion,
        };
        let modes = modes_of(source.records, coding, square);
        predict_unit(&intra, modes, square, scratch, samples);
    }
}

/// Adds the residuals of a coded block, whose levels are the next items.
pub(crate) fn build_block(
    source: &Source<'_>,
    coding: Coding,
    block: CodedBlock,
    behind: &[Item],
    scratch: &mut Scratch,
    samples: &mut UnitSamples,
)
    requires format { IsFormat source.now.format.now }
    ensures { AreSound source.now.format.now source.now.records.now.items → IsCoded block
        → held samples.new
        ≡ block_constructed source.now.format.now source.now.records.now.items coding.mode block behind.now
        (held samples.old) }
{
    if is_coded(block) {
        let coded = in_unit(source.records, source.format, coding, block);
        construct(source.format, coded, behind, scratch, samples);
    }
}

/// The modes of a transform unit's blocks.
fn modes_of(records: &Records, coding: Coding, square: Square) -> Modes
    requires { IsSquare square }
    ensures luma { luma_mode_at records.now.items square.x square.y ≤ 34
        → result.luma ≡ luma_mode_at records.now.items square.x square.y }
    ensures range { result.luma ≤ 34 }
    ensures chroma { result.chroma ≡ coding.chroma_mode }
{
    let luma = records.luma_mode(usize::from(square.x), usize::from(square.y));
    Modes {
        luma: luma.min(34),
        chroma: coding.chroma_mode,
    }
}

/// A block in its coding unit.
fn in_unit(records: &Records, format: &UnitFormat, coding: Coding, block: CodedBlock) -> InUnit
    requires format { IsFormat format.now }
    requires block { IsCoded block }
    ensures block { result.block ≡ block }
    ensures mode { result.mode ≡ coding.mode }
    ensures qp { IsParameter format.now.luma_depth (qp_at records.now.items block.x block.y)
        → result.qp ≡ qp_at records.now.items block.x block.y }
    ensures range { IsParameter format.now.luma_depth result.qp }
{
    let qp = records.qp(usize::from(block.x), usize::from(block.y));
    InUnit {
        block,
        mode: coding.mode,
        qp: qp.min(51 + 6 * (format.luma_depth - 8)),
    }
}
