//! The prediction of a block from one reference picture (8.5.3.3.3).

ghost use Rattle.std.specs.Prelude.{◌≡◌, ◌<◌, ◌≤◌, ◌+◌, ◌*◌, ◌^◌, ℕ, ℤ, pos, ◌+ℤ◌, ◌-ℤ◌, ◌≤ℤ◌};
ghost use Rattle.std.specs.Int.{int_shr};
ghost use Rattle.spec_inter_prediction.specs.Taps.{IsDepth};
ghost use Rattle.spec_inter_prediction.specs.Luma.{quarter, luma_first, luma_sample};
ghost use Rattle.spec_inter_prediction.specs.Chroma.{eighth, chroma_first, chroma_sample};
ghost use Rattle.inter_pred.specs.Passes.{at_z};

use crate::between::{Fractions, interpolate};
use crate::prediction::Prediction;
use crate::reference::{RefWindow, Window};
use crate::scratch::Scratch;
use ctu_records::Mv;

/// A block of a picture, in samples of its component.
#[derive(Clone, Copy, Debug, PartialEq, Eq)]
pub struct PredictionBlock {
    /// Its first column.
    pub x: u32,
    /// Its first line.
    pub y: u32,
    /// How many columns it has, at most 64.
    pub width: u32,
    /// How many lines it has, at most 64.
    pub height: u32,
}

/// The fraction of a vector in luma, in quarters of a sample.
#[tactic(auto, unfolding(spec_inter_prediction::specs::Luma::quarter))]
pub(crate) fn quarter(v: i16) -> u32
    ensures value { result ≡ quarter v }
    ensures small { result < 8 }
{
    v.rem_euclid(4) as u32
}

/// The fraction of a vector in chroma, in eighths of a sample.
#[tactic(auto, unfolding(spec_inter_prediction::specs::Chroma::eighth))]
pub(crate) fn eighth(v: i16) -> u32
    ensures value { result ≡ eighth v }
    ensures small { result < 8 }
{
    v.rem_euclid(8) as u32
}

/// Where the samples begin that the luma filter meets.
pub(crate) fn luma_first(place: u32, v: i16) -> i32
    requires { place ≤ 65536 }
    ensures value { result ≡ luma_first place v }
    ensures high { result ≤ℤ pos 536870912 }
{
    place as i32 + i32::from(v >> 2) - 3
}

/// Where the samples begin that the chroma filter meets.
pub(crate) fn chroma_first(place: u32, v: i16) -> i32
    requires { place ≤ 65536 }
    ensures value { result ≡ chroma_first place v }
    ensures high { result ≤ℤ pos 536870912 }
{
    place as i32 + i32::from(v >> 3) - 1
}

/// Writes the luma prediction of a block by a vector (8.5.3.3.3.2), on a scale of 14 bits, in lines of 64. `depth` is
/// the bit depth of the reference picture, below which its samples are.
pub fn luma<V: RefWindow>(
    view: &mut V,
    picture: u32,
    block: PredictionBlock,
    mv: Mv,
    depth: u32,
    scratch: &mut Scratch,
    out: &mut Prediction,
)
    requires depth { IsDepth depth }
    requires size { (block.width ≤ 64) × (block.height ≤ 64) }
    requires place { (block.x ≤ 65536) × (block.y ≤ 65536) }
    requires small { (x y : ℤ) → V.reference_at view.old picture 0 x y < 2 ^ depth }
    ensures value { (x y : ℕ) → x < block.width → y < block.height
        → at_z out.new (64 * y + x)
        ≡ luma_sample depth (V.reference_at view.old picture 0) mv.x mv.y (block.x + x) (block.y + y) }
    ensures same { V.reference_at view.new ≡ V.reference_at view.old }
{
    let first = Window {
        picture,
        component: 0,
        x: luma_first(block.x, mv.x),
        y: luma_first(block.y, mv.y),
        width: block.width as usize,
        height: block.height as usize,
    };
    let fractions = Fractions {
        across: quarter(mv.x),
        down: quarter(mv.y),
    };
    interpolate::<V, 8>(view, first, fractions, depth, scratch, out);
}

/// Writes the prediction of a block of a chroma component by a vector (8.5.3.3.3.3), on a scale of 14 bits, in lines of
/// 64. The vector is that of the luma block, so it counts eighths of a chroma sample.
pub fn chroma<V: RefWindow>(
    view: &mut V,
    picture: u32,
    component: u8,
    block: PredictionBlock,
    mv: Mv,
    depth: u32,
    scratch: &mut Scratch,
    out: &mut Prediction,
)
    requires depth { IsDepth depth }
    requires size { (block.width ≤ 64) × (block.height ≤ 64) }
    requires place { (block.x ≤ 65536) × (block.y ≤ 65536) }
    requires small { (x y : ℤ) → V.reference_at view.old picture component x y < 2 ^ depth }
    ensures value { (x y : ℕ) → x < block.width → y < block.height
        → at_z out.new (64 * y + x)
        ≡ chroma_sample depth (V.reference_at view.old picture component) mv.x mv.y (block.x + x) (block.y + y) }
    ensures same { V.reference_at view.new ≡ V.reference_at view.old }
{
    let first = Window {
        picture,
        component,
        x: chroma_first(block.x, mv.x),
        y: chroma_first(block.y, mv.y),
        width: block.width as usize,
        height: block.height as usize,
    };
    let fractions = Fractions {
        across: eighth(mv.x),
        down: eighth(mv.y),
    };
    interpolate::<V, 4>(view, first, fractions, depth, scratch, out);
}
