//! Prediction of the blocks of a transform unit.

ghost use Rattle.std.specs.Prelude.{◌≡◌, ◌+◌, ◌*◌, ◌^◌, ◌<◌, ◌≤◌};
ghost use Rattle.ctu_build.specs.Held.{held, IsInside};
ghost use Rattle.ctu_motion.specs.Held.{held as motion_held};
ghost use Rattle.spec_reconstruction.specs.Sound.{IsFormat, IsSquare};
ghost use Rattle.spec_reconstruction.specs.Prediction.{block_predicted, chroma_predicted, chroma_of_unit_predicted};
ghost use Rattle.spec_reconstruction.specs.Prediction.{unit_predicted, is_fourth};
ghost use Rattle.spec_reconstruction.specs.SpecSliceData.{whole_of_fourth};

use crate::intra_border::{IntraUnit, gather};
use crate::parameters::depth_of;
use crate::place::{Place, chroma_place, luma_place};
use crate::scratch::Scratch;
use crate::unit_samples::UnitSamples;
use ctu_records::Square;
use intra_pred::predict;

/// Predicts a block by a mode.
fn predict_block(
    intra: &IntraUnit<'_>,
    place: Place,
    mode: u8,
    scratch: &mut Scratch,
    samples: &mut UnitSamples,
)
    requires format { IsFormat intra.now.format.now }
    requires place { IsInside place }
    requires mode { mode ≤ 34 }
    ensures { held samples.new
        ≡ block_predicted intra.now.format.now (motion_held intra.now.motion.now) place.c place.log2 mode place.x
        place.y (held samples.old) }
{
    let n = place.side();
    let format = intra.format;
    let depth = depth_of(format, place.c);
    gather(intra, place, samples, &mut scratch.edge);
    predict(
        &scratch.edge[..4 * n + 1],
        place.c,
        place.log2,
        mode,
        format.strong_intra_smoothing,
        depth,
        &mut scratch.samples,
    );
    samples.lay(place, &scratch.samples);
}

/// Predicts the chroma blocks of a square.
#[tactic(auto, unfolding(spec_reconstruction::specs::Prediction::chroma_predicted))]
fn predict_chroma(
    intra: &IntraUnit<'_>,
    mode: u8,
    square: Square,
    scratch: &mut Scratch,
    samples: &mut UnitSamples,
)
    requires format { IsFormat intra.now.format.now }
    requires mode { mode ≤ 34 }
    requires square { IsSquare square }
    requires some { 1 ≤ square.log2_size }
    ensures { held samples.new
        ≡ chroma_predicted intra.now.format.now (motion_held intra.now.motion.now) mode square (held samples.old) }
{
    predict_block(intra, chroma_place(square, 1), mode, scratch, samples);
    predict_block(intra, chroma_place(square, 2), mode, scratch, samples);
}

/// Whether a square of 4x4 luma samples is the fourth of its four.
fn is_fourth(square: Square) -> bool
    ensures { result ≡ is_fourth square }
{
    square.x % 2 == 1 && square.y % 2 == 1
}

/// The square of which it is the fourth quarter.
fn whole_of_fourth(square: Square) -> Square
    requires square { IsSquare square }
    requires quarter { square.log2_size ≡ 0 }
    requires x { 1 ≤ square.x }
    requires y { 1 ≤ square.y }
    ensures value { result ≡ whole_of_fourth square }
    ensures square { IsSquare result }
{
    Square {
        x: square.x - 1,
        y: square.y - 1,
        log2_size: 1,
    }
}

/// Predicts the chroma blocks that belong to a transform unit.
#[tactic(auto, unfolding(spec_reconstruction::specs::Prediction::chroma_of_unit_predicted))]
fn predict_chroma_of_unit(
    intra: &IntraUnit<'_>,
    mode: u8,
    square: Square,
    scratch: &mut Scratch,
    samples: &mut UnitSamples,
)
    requires format { IsFormat intra.now.format.now }
    requires mode { mode ≤ 34 }
    requires square { IsSquare square }
    ensures { held samples.new
        ≡ chroma_of_unit_predicted intra.now.format.now (motion_held intra.now.motion.now) mode square
        (held samples.old) }
{
    if square.log2_size == 0 {
        if is_fourth(square) {
            predict_chroma(intra, mode, whole_of_fourth(square), scratch, samples);
        }
    } else {
        predict_chroma(intra, mode, square, scratch, samples);
    }
}

/// Predicts the blocks of a transform unit by their modes.
#[tactic(auto, unfolding(spec_reconstruction::specs::Prediction::unit_predicted))]
pub(crate) fn predict_unit(
    intra: &IntraUnit<'_>,
    modes: Modes,
    square: Square,
    scratch: &mut Scratch,
    samples: &mut UnitSamples,
)
    requires format { IsFormat intra.now.format.now }
    requires luma { modes.luma ≤ 34 }
    requires chroma { modes.chroma ≤ 34 }
    requires square { IsSquare square }
    ensures { held samples.new
        ≡ unit_predicted intra.now.format.now (motion_held intra.now.motion.now) modes.luma modes.chroma square
        (held samples.old) }
{
    predict_block(intra, luma_place(square), modes.luma, scratch, samples);
    predict_chroma_of_unit(intra, modes.chroma, square, scratch, samples);
}

/// The modes of a transform unit's blocks.
#[derive(Clone, Copy, Debug, PartialEq, Eq)]
pub(crate) struct Modes {
    /// IntraPredModeY.
    pub(crate) luma: u8,
    /// IntraPredModeC.
    pub(crate) chroma: u8,
}
