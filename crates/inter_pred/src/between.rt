//! A block between the samples of a reference picture, by filters of 8 or 4 taps.

ghost use Rattle.std.specs.Prelude.{◌≡◌, ◌<◌, ◌≤◌, ◌+◌, ◌*◌, ◌^◌, ◌⊎◌, ℕ, ℤ, pos, ◌+ℤ◌, ◌≤ℤ◌};
ghost use Rattle.spec_inter_prediction.specs.Taps.{filtered, IsDepth};
ghost use Rattle.inter_pred.specs.Passes.{at_z, filter};

use crate::down::columns_at;
use crate::eight::interpolate_bytes;
use crate::interpolation::lines_at;
use crate::prediction::Prediction;
use crate::reference::{RefWindow, Window};
use crate::scratch::Scratch;
use crate::whole::copy;
use crate::window::gather;

/// The fractions of a vector.
#[derive(Clone, Copy)]
pub struct Fractions {
    /// That of the column, in quarters of a luma sample or eighths of a chroma sample: below 8.
    pub across: u32,
    /// That of the line, likewise.
    pub down: u32,
}

/// The prediction of a block. `first` begins where the samples begin that the filters meet, and has the block's size.
pub fn interpolate<V: RefWindow, const TAPS: usize>(
    view: &mut V,
    first: Window,
    fractions: Fractions,
    depth: u32,
    scratch: &mut Scratch,
    out: &mut Prediction,
)
    requires taps { (TAPS ≡ 8) ⊎ (TAPS ≡ 4) }
    requires fractions { (fractions.across < 8) × (fractions.down < 8) }
    requires depth { IsDepth depth }
    requires size { (first.width ≤ 64) × (first.height ≤ 64) }
    requires place { (first.x ≤ℤ pos 536870912) × (first.y ≤ℤ pos 536870912) }
    requires small { (x y : ℤ) → V.reference_at view.old first.picture first.component x y < 2 ^ depth }
    ensures value { (x y : ℕ) → x < first.width → y < first.height
        → at_z out.new (64 * y + x) ≡ filtered (filter TAPS fractions.across) (filter TAPS fractions.down) depth
        (λ i j. pos (V.reference_at view.old first.picture first.component (first.x +ℤ pos x +ℤ pos i)
        (first.y +ℤ pos y +ℤ pos j))) }
    ensures same { V.reference_at view.new ≡ V.reference_at view.old }
{
    if depth == 8 {
        interpolate_bytes::<V, TAPS>(view, first, fractions, scratch, out);
    } else if fractions.across == 0 && fractions.down == 0 {
        whole::<V, TAPS>(view, first, depth, scratch, out);
    } else {
        between::<V, TAPS>(view, first, fractions, depth, scratch, out);
    }
}

/// The prediction of a block at whole samples, which no filter changes.
fn whole<V: RefWindow, const TAPS: usize>(
    view: &mut V,
    first: Window,
    depth: u32,
    scratch: &mut Scratch,
    out: &mut Prediction,
)
    requires taps { (TAPS ≡ 8) ⊎ (TAPS ≡ 4) }
    requires depth { IsDepth depth }
    requires size { (first.width ≤ 64) × (first.height ≤ 64) }
    requires place { (first.x ≤ℤ pos 536870912) × (first.y ≤ℤ pos 536870912) }
    requires small { (x y : ℤ) → V.reference_at view.old first.picture first.component x y < 2 ^ depth }
    ensures value { (x y : ℕ) → x < first.width → y < first.height
        → at_z out.new (64 * y + x) ≡ filtered (filter TAPS 0) (filter TAPS 0) depth
        (λ i j. pos (V.reference_at view.old first.picture first.component (first.x +ℤ pos x +ℤ pos i)
        (first.y +ℤ pos y +ℤ pos j))) }
    ensures same { V.reference_at view.new ≡ V.reference_at view.old }
{
    let before = (TAPS / 2) as i32 - 1;
    let place = Window {
        x: first.x + before,
        y: first.y + before,
        ..first
    };
    gather(view, place, depth, &mut scratch.window);
    copy(&scratch.window, first.width, first.height, &mut out.samples);
}

/// The prediction of a block by the filters.
fn between<V: RefWindow, const TAPS: usize>(
    view: &mut V,
    first: Window,
    fractions: Fractions,
    depth: u32,
    scratch: &mut Scratch,
    out: &mut Prediction,
)
    requires taps { (4 ≤ TAPS) × (TAPS ≤ 8) }
    requires fractions { (fractions.across < 8) × (fractions.down < 8) }
    requires depth { IsDepth depth }
    requires size { (first.width ≤ 64) × (first.height ≤ 64) }
    requires place { (first.x ≤ℤ pos 536870912) × (first.y ≤ℤ pos 536870912) }
    requires small { (x y : ℤ) → V.reference_at view.old first.picture first.component x y < 2 ^ depth }
    ensures value { (x y : ℕ) → x < first.width → y < first.height
        → at_z out.new (64 * y + x) ≡ filtered (filter TAPS fractions.across) (filter TAPS fractions.down) depth
        (λ i j. pos (V.reference_at view.old first.picture first.component (first.x +ℤ pos x +ℤ pos i)
        (first.y +ℤ pos y +ℤ pos j))) }
    ensures same { V.reference_at view.new ≡ V.reference_at view.old }
{
    let (width, height) = (first.width, first.height);
    let window = Window {
        width: width + TAPS - 1,
        height: height + TAPS - 1,
        ..first
    };
    gather(view, window, depth, &mut scratch.window);
    lines_at::<TAPS>(
        fractions.across,
        &scratch.window,
        width,
        height + TAPS - 1,
        &mut scratch.middle,
    );
    columns_at::<TAPS>(
        fractions.down,
        &scratch.middle,
        width,
        height,
        &mut out.samples,
    );
}
