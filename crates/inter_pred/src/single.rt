//! The samples of a block that one list predicts (8.5.3.3).

ghost use Rattle.std.specs.Prelude.{◌≡◌, ◌<◌, ◌≤◌, ◌+◌, ◌*◌, ◌^◌, ℕ, ℤ, true};
ghost use Rattle.spec_inter_prediction.specs.Taps.{IsDepth};
ghost use Rattle.spec_inter_prediction.specs.Luma.{luma_sample};
ghost use Rattle.spec_inter_prediction.specs.Chroma.{chroma_sample};
ghost use Rattle.spec_inter_prediction.specs.Weighting.{default_one, weighted_one, IsWeighting};
ghost use Rattle.inter_pred.specs.Passes.{at};

use crate::block::{PredictionBlock, chroma, chroma_first, eighth, luma, luma_first, quarter};
use crate::eight::whole_samples;
use crate::prediction::Prediction;
use crate::reference::{RefWindow, Window};
use crate::scratch::Scratch;
use crate::weighting::{is_plain_one, weigh_one};
use ctu_records::Mv;
use spec_inter_prediction::Weighting;

/// Whether the samples of a block by fractions of a vector are those of the reference picture, of 8 bits.
fn is_copied(depth: u32, weighting: Weighting, list: u8, across: u32, down: u32) -> bool
    requires { IsWeighting weighting }
    ensures depth { result ≡ true → depth ≡ 8 }
    ensures across { result ≡ true → across ≡ 0 }
    ensures down { result ≡ true → down ≡ 0 }
    ensures weights { result ≡ true → (p : ℤ) → weighted_one 8 weighting list p ≡ default_one 8 p }
{
    depth == 8 && across == 0 && down == 0 && is_plain_one(weighting, list)
}

/// Writes the luma samples of a block that a vector of one list, 0 or 1, predicts, in lines of 64.
pub fn luma_one<V: RefWindow>(
    view: &mut V,
    picture: u32,
    block: PredictionBlock,
    mv: Mv,
    list: u8,
    weighting: Weighting,
    depth: u32,
    scratch: &mut Scratch,
    prediction: &mut Prediction,
    out: &mut [u16; 4096],
)
    requires depth { IsDepth depth }
    requires weights { IsWeighting weighting }
    requires size { (block.width ≤ 64) × (block.height ≤ 64) }
    requires place { (block.x ≤ 65536) × (block.y ≤ 65536) }
    requires small { (x y : ℤ) → V.reference_at view.old picture 0 x y < 2 ^ depth }
    ensures value { (x y : ℕ) → x < block.width → y < block.height
        → at out.new (64 * y + x) ≡ weighted_one depth weighting list
        (luma_sample depth (V.reference_at view.old picture 0) mv.x mv.y (block.x + x) (block.y + y)) }
    ensures same { V.reference_at view.new ≡ V.reference_at view.old }
{
    let (width, height) = (block.width as usize, block.height as usize);
    if is_copied(depth, weighting, list, quarter(mv.x), quarter(mv.y)) {
        let first = Window {
            picture,
            component: 0,
            x: luma_first(block.x, mv.x),
            y: luma_first(block.y, mv.y),
            width,
            height,
        };
        whole_samples::<V, 8>(view, first, scratch, out);
    } else {
        luma(view, picture, block, mv, depth, scratch, prediction);
        weigh_one(prediction, list, weighting, depth, width, height, out);
    }
}

/// Writes those of a chroma component.
pub fn chroma_one<V: RefWindow>(
    view: &mut V,
    picture: u32,
    component: u8,
    block: PredictionBlock,
    mv: Mv,
    list: u8,
    weighting: Weighting,
    depth: u32,
    scratch: &mut Scratch,
    prediction: &mut Prediction,
    out: &mut [u16; 4096],
)
    requires depth { IsDepth depth }
    requires weights { IsWeighting weighting }
    requires size { (block.width ≤ 64) × (block.height ≤ 64) }
    requires place { (block.x ≤ 65536) × (block.y ≤ 65536) }
    requires small { (x y : ℤ) → V.reference_at view.old picture component x y < 2 ^ depth }
    ensures value { (x y : ℕ) → x < block.width → y < block.height
        → at out.new (64 * y + x) ≡ weighted_one depth weighting list
        (chroma_sample depth (V.reference_at view.old picture component) mv.x mv.y (block.x + x) (block.y + y)) }
    ensures same { V.reference_at view.new ≡ V.reference_at view.old }
{
    let (width, height) = (block.width as usize, block.height as usize);
    if is_copied(depth, weighting, list, eighth(mv.x), eighth(mv.y)) {
        let first = Window {
            picture,
            component,
            x: chroma_first(block.x, mv.x),
            y: chroma_first(block.y, mv.y),
            width,
            height,
        };
        whole_samples::<V, 4>(view, first, scratch, out);
    } else {
        chroma(
            view, picture, component, block, mv, depth, scratch, prediction,
        );
        weigh_one(prediction, list, weighting, depth, width, height, out);
    }
}
