//! A block between the samples of a reference picture of 8 bits.

ghost use Rattle.std.specs.Prelude.{◌≡◌, ◌<◌, ◌≤◌, ◌+◌, ◌*◌, ℕ, ℤ, pos, ◌+ℤ◌, ◌≤ℤ◌, ◌⊎◌};
ghost use Rattle.spec_inter_prediction.specs.Taps.{filtered};
ghost use Rattle.spec_inter_prediction.specs.Weighting.{default_one};
ghost use Rattle.inter_pred.specs.Passes.{at, at_z, filter};

use crate::between::Fractions;
use crate::bytes::filter_bytes;
use crate::down::columns_at;
use crate::prediction::Prediction;
use crate::reference::{RefWindow, Window};
use crate::scratch::Scratch;
use crate::whole::{copy_bytes, lay_bytes};
use crate::width::in_eights;
use crate::window::gather_bytes;

/// The prediction of a block. `first` begins where the samples begin that the filters meet, and has the block's size.
pub fn interpolate_bytes<V: RefWindow, const TAPS: usize>(
    view: &mut V,
    first: Window,
    fractions: Fractions,
    scratch: &mut Scratch,
    out: &mut Prediction,
)
    requires taps { (TAPS ≡ 8) ⊎ (TAPS ≡ 4) }
    requires fractions { (fractions.across < 8) × (fractions.down < 8) }
    requires size { (first.width ≤ 64) × (first.height ≤ 64) }
    requires place { (first.x ≤ℤ pos 536870912) × (first.y ≤ℤ pos 536870912) }
    requires small { (x y : ℤ) → V.reference_at view.old first.picture first.component x y < 256 }
    ensures value { (x y : ℕ) → x < first.width → y < first.height
        → at_z out.new (64 * y + x) ≡ filtered (filter TAPS fractions.across) (filter TAPS fractions.down) 8
        (λ i j. pos (V.reference_at view.old first.picture first.component (first.x +ℤ pos x +ℤ pos i)
        (first.y +ℤ pos y +ℤ pos j))) }
    ensures same { V.reference_at view.new ≡ V.reference_at view.old }
{
    match (fractions.across, fractions.down) {
        (0, 0) => whole::<V, TAPS>(view, first, scratch, out),
        (fraction, 0) => across::<V, TAPS>(view, first, fraction, scratch, out),
        (0, fraction) => down::<V, TAPS>(view, first, fraction, scratch, out),
        _ => both::<V, TAPS>(view, first, fractions, scratch, out),
    }
}

/// A block at whole samples.
fn whole<V: RefWindow, const TAPS: usize>(
    view: &mut V,
    first: Window,
    scratch: &mut Scratch,
    out: &mut Prediction,
)
    requires taps { (TAPS ≡ 8) ⊎ (TAPS ≡ 4) }
    requires size { (first.width ≤ 64) × (first.height ≤ 64) }
    requires place { (first.x ≤ℤ pos 536870912) × (first.y ≤ℤ pos 536870912) }
    requires small { (x y : ℤ) → V.reference_at view.old first.picture first.component x y < 256 }
    ensures value { (x y : ℕ) → x < first.width → y < first.height
        → at_z out.new (64 * y + x) ≡ filtered (filter TAPS 0) (filter TAPS 0) 8
        (λ i j. pos (V.reference_at view.old first.picture first.component (first.x +ℤ pos x +ℤ pos i)
        (first.y +ℤ pos y +ℤ pos j))) }
    ensures same { V.reference_at view.new ≡ V.reference_at view.old }
{
    let before = (TAPS / 2) as i32 - 1;
    let wide = in_eights(first.width);
    let place = Window {
        x: first.x + before,
        y: first.y + before,
        width: wide,
        ..first
    };
    gather_bytes(view, place, &mut scratch.bytes);
    copy_bytes(&scratch.bytes, wide, first.height, &mut out.samples);
}

/// The samples of a block at whole samples by one list and default weights, which are those of the picture.
pub fn whole_samples<V: RefWindow, const TAPS: usize>(
    view: &mut V,
    first: Window,
    scratch: &mut Scratch,
    out: &mut [u16; 4096],
)
    requires taps { (TAPS ≡ 8) ⊎ (TAPS ≡ 4) }
    requires size { (first.width ≤ 64) × (first.height ≤ 64) }
    requires place { (first.x ≤ℤ pos 536870912) × (first.y ≤ℤ pos 536870912) }
    requires small { (x y : ℤ) → V.reference_at view.old first.picture first.component x y < 256 }
    ensures value { (x y : ℕ) → x < first.width → y < first.height
        → at out.new (64 * y + x) ≡ default_one 8 (filtered (filter TAPS 0) (filter TAPS 0) 8
        (λ i j. pos (V.reference_at view.old first.picture first.component (first.x +ℤ pos x +ℤ pos i)
        (first.y +ℤ pos y +ℤ pos j)))) }
    ensures same { V.reference_at view.new ≡ V.reference_at view.old }
{
    let before = (TAPS / 2) as i32 - 1;
    let wide = in_eights(first.width);
    let place = Window {
        x: first.x + before,
        y: first.y + before,
        width: wide,
        ..first
    };
    gather_bytes(view, place, &mut scratch.bytes);
    lay_bytes(&scratch.bytes, wide, first.height, out);
}

/// A block at whole lines and a fraction of a column.
fn across<V: RefWindow, const TAPS: usize>(
    view: &mut V,
    first: Window,
    fraction: u32,
    scratch: &mut Scratch,
    out: &mut Prediction,
)
    requires taps { (TAPS ≡ 8) ⊎ (TAPS ≡ 4) }
    requires fraction { fraction < 8 }
    requires size { (first.width ≤ 64) × (first.height ≤ 64) }
    requires place { (first.x ≤ℤ pos 536870912) × (first.y ≤ℤ pos 536870912) }
    requires small { (x y : ℤ) → V.reference_at view.old first.picture first.component x y < 256 }
    ensures value { (x y : ℕ) → x < first.width → y < first.height
        → at_z out.new (64 * y + x) ≡ filtered (filter TAPS fraction) (filter TAPS 0) 8
        (λ i j. pos (V.reference_at view.old first.picture first.component (first.x +ℤ pos x +ℤ pos i)
        (first.y +ℤ pos y +ℤ pos j))) }
    ensures same { V.reference_at view.new ≡ V.reference_at view.old }
{
    let (width, height) = (first.width, first.height);
    let window = Window {
        y: first.y + ((TAPS / 2) as i32 - 1),
        width: in_eights(width + TAPS - 1),
        ..first
    };
    gather_bytes(view, window, &mut scratch.bytes);
    let wide = in_eights(width);
    filter_bytes::<TAPS, 1>(
        fraction,
        &scratch.bytes,
        wide,
        height,
        16896,
        &mut out.samples,
    );
}

/// A block at whole columns and a fraction of a line.
fn down<V: RefWindow, const TAPS: usize>(
    view: &mut V,
    first: Window,
    fraction: u32,
    scratch: &mut Scratch,
    out: &mut Prediction,
)
    requires taps { (TAPS ≡ 8) ⊎ (TAPS ≡ 4) }
    requires fraction { fraction < 8 }
    requires size { (first.width ≤ 64) × (first.height ≤ 64) }
    requires place { (first.x ≤ℤ pos 536870912) × (first.y ≤ℤ pos 536870912) }
    requires small { (x y : ℤ) → V.reference_at view.old first.picture first.component x y < 256 }
    ensures value { (x y : ℕ) → x < first.width → y < first.height
        → at_z out.new (64 * y + x) ≡ filtered (filter TAPS 0) (filter TAPS fraction) 8
        (λ i j. pos (V.reference_at view.old first.picture first.component (first.x +ℤ pos x +ℤ pos i)
        (first.y +ℤ pos y +ℤ pos j))) }
    ensures same { V.reference_at view.new ≡ V.reference_at view.old }
{
    let (wide, height) = (in_eights(first.width), first.height);
    let window = Window {
        x: first.x + ((TAPS / 2) as i32 - 1),
        width: wide,
        height: height + TAPS - 1,
        ..first
    };
    gather_bytes(view, window, &mut scratch.bytes);
    filter_bytes::<TAPS, 72>(
        fraction,
        &scratch.bytes,
        wide,
        height,
        16896,
        &mut out.samples,
    );
}

/// A block between columns and lines.
fn both<V: RefWindow, const TAPS: usize>(
    view: &mut V,
    first: Window,
    fractions: Fractions,
    scratch: &mut Scratch,
    out: &mut Prediction,
)
    requires taps { (4 ≤ TAPS) × (TAPS ≤ 8) }
    requires fractions { (fractions.across < 8) × (fractions.down < 8) }
    requires size { (first.width ≤ 64) × (first.height ≤ 64) }
    requires place { (first.x ≤ℤ pos 536870912) × (first.y ≤ℤ pos 536870912) }
    requires small { (x y : ℤ) → V.reference_at view.old first.picture first.component x y < 256 }
    ensures value { (x y : ℕ) → x < first.width → y < first.height
        → at_z out.new (64 * y + x) ≡ filtered (filter TAPS fractions.across) (filter TAPS fractions.down) 8
        (λ i j. pos (V.reference_at view.old first.picture first.component (first.x +ℤ pos x +ℤ pos i)
        (first.y +ℤ pos y +ℤ pos j))) }
    ensures same { V.reference_at view.new ≡ V.reference_at view.old }
{
    let (width, height) = (first.width, first.height);
    let lines = height + TAPS - 1;
    let window = Window {
        width: in_eights(width + TAPS - 1),
        height: lines,
        ..first
    };
    gather_bytes(view, window, &mut scratch.bytes);
    let wide = in_eights(width);
    filter_bytes::<TAPS, 1>(
        fractions.across,
        &scratch.bytes,
        wide,
        lines,
        6144,
        &mut scratch.middle,
    );
    columns_at::<TAPS>(
        fractions.down,
        &scratch.middle,
        wide,
        height,
        &mut out.samples,
    );
}
