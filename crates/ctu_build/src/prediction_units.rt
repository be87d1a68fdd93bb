//! Prediction units.

ghost use Rattle.std.specs.Prelude.{◌≡◌, ◌+◌, ◌<◌, ◌≤◌};
ghost use Rattle.ctu_build.specs.Held.{held};
ghost use Rattle.ctu_build.specs.Inter.{IsReady, inter_of};
ghost use Rattle.spec_motion.specs.Derivation.{IsBlock, IsPlaced};
ghost use Rattle.spec_reconstruction.specs.Inter.{component_predicted, prediction_laid, samples_of};

use crate::scratch::Scratch;
use crate::source::Source;
use crate::unit_samples::UnitSamples;
use ctu_motion::{MotionView, part_block};
use ctu_records::{PredictionUnit, Rectangle};
use inter_samples::{RefWindow, predict};
use spec_motion::Motion;

/// A block of places in samples of a component.
fn samples_of(c: u8, block: Rectangle) -> Rectangle
    requires { IsBlock block }
    ensures value { result ≡ samples_of c block }
    ensures x { result.x + result.width ≤ 64 }
    ensures y { result.y + result.height ≤ 64 }
{
    let n = if c == 0 { 4 } else { 2 };
    Rectangle {
        x: n * block.x,
        y: n * block.y,
        width: n * block.width,
        height: n * block.height,
    }
}

/// Predicts the samples of a component of a block of places by a motion.
fn predict_component<V: RefWindow>(
    source: &Source<'_>,
    view: &mut V,
    block: Rectangle,
    motion: &Motion,
    c: u8,
    scratch: &mut Scratch,
    samples: &mut UnitSamples,
)
    requires ready { IsReady source.now.format.now source.now.inter (V.reference_at view.old) }
    requires block { IsBlock block }
    requires c { c < 3 }
    ensures value { held samples.new
        ≡ component_predicted source.now.format.now (inter_of source.now.inter (V.reference_at view.old))
        block motion.now c (held samples.old) }
    ensures same { V.reference_at view.new ≡ V.reference_at view.old }
{
    predict(
        view,
        &source.inter,
        source.format,
        block,
        motion,
        c,
        &mut scratch.inter,
        &mut scratch.predicted,
    );
    samples.lay_rectangle(c, samples_of(c, block), &scratch.predicted);
}

/// Predicts the block of a prediction unit by the motion of its first place. Without motion nothing is laid.
#[tactic(auto, unfolding(spec_reconstruction::specs::Inter::prediction_laid))]
pub(crate) fn lay_prediction<V: RefWindow>(
    source: &Source<'_>,
    view: &mut V,
    prediction: &PredictionUnit,
    scratch: &mut Scratch,
    samples: &mut UnitSamples,
)
    requires ready { IsReady source.now.format.now source.now.inter (V.reference_at view.old) }
    requires placed { IsPlaced prediction.now }
    ensures value { held samples.new
        ≡ prediction_laid source.now.format.now (inter_of source.now.inter (V.reference_at view.old))
        prediction.now (held samples.old) }
    ensures same { V.reference_at view.new ≡ V.reference_at view.old }
{
    let block = part_block(prediction);
    let (column, row) = (usize::from(block.x) + 1, usize::from(block.y) + 1);
    match source.inter.motion.motion(column, row) {
        None => {}
        Some(motion) => {
            predict_component(source, view, block, &motion, 0, scratch, samples);
            predict_component(source, view, block, &motion, 1, scratch, samples);
            predict_component(source, view, block, &motion, 2, scratch, samples);
        }
    }
}
