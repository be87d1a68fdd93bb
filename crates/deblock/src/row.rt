//! The edges of a row of coding tree blocks.

ghost use Rattle.std.specs.Prelude.{◌≡◌, ◌<◌, ◌≤◌, ◌+◌, ◌-◌, ◌*◌, ◌/◌, ◌^◌, ◌==◌, ℕ, cond, length, List};
ghost use Rattle.std.specs.Prelude.{true};
ghost use Rattle.spec_deblocking.specs.Planes.{vertical, horizontal};
ghost use Rattle.deblock.specs.Samples.{IsBounded};
ghost use Rattle.deblock.specs.Windows.{at, size, seen, columns_across, lines_across};
ghost use Rattle.spec_deblocking.specs.Places.{side};
ghost use Rattle.deblock.specs.Passes.{placed, IsPass, IsAlong, IsPartly};
ghost use Rattle.deblock.specs.Rows.{IsRow, is_beside_row, is_in_row};

use crate::edge::{filter_edge, place};
use crate::pairs::filter_chroma;
use crate::pass::Pass;
use crate::view::PlaceView;
use crate::window::Window;
use spec_deblocking::Plane;

/// A row of a plane, in samples and lines of the plane.
#[derive(Clone, Copy, Debug, PartialEq, Eq)]
pub struct Row {
    /// Whether the plane is luma or chroma.
    pub plane: Plane,
    /// From 8 to 14.
    pub bit_depth: u32,
    /// Columns of the plane, at most 65536.
    pub width: usize,
    /// Lines of the plane, at most 65536.
    pub height: usize,
    /// The first line that is there.
    pub first: usize,
    /// The line behind the last that is there.
    pub end: usize,
    /// The first line of the row.
    pub top: usize,
    /// The line behind the last of the row.
    pub bottom: usize,
}

/// Filters the vertical edges in the lines of a row. The other lines stay.
pub fn vertical_row<V: PlaceView>(view: &V, row: &Row, samples: &mut [u16])
    requires row { IsRow row.now }
    requires samples { length samples.old ≡ row.now.width * (row.now.end - row.now.first) }
    requires bounded { IsBounded (2 ^ row.now.bit_depth - 1) samples.old }
    ensures value { (x y : ℕ) → x < row.now.width → row.now.first ≤ y → y < row.now.end
        → at row.now.width samples.new x (y - row.now.first)
        ≡ cond (is_in_row row.now y)
        (vertical row.now.plane row.now.bit_depth row.now.width (V.place_at view.now)
        (λ i j. at row.now.width samples.old i (j - row.now.first)) x y)
        (at row.now.width samples.old x (y - row.now.first)) }
    ensures bounded { IsBounded (2 ^ row.now.bit_depth - 1) samples.new }
{
    let pass = Pass {
        plane: row.plane,
        bit_depth: row.bit_depth,
        side: row.width,
        window: columns_across(row.width, row.first, row.end),
        first: 0,
        end: (row.width + 11) / 8,
        along_first: row.top,
        along_end: row.bottom,
    };
    filter_row(view, &pass, samples);
}

/// Filters the horizontal edges at the lines of a row, over samples behind the vertical ones. An edge changes up to
/// four lines above it too, so the last four lines of a row wait for the row below. The other lines stay.
pub fn horizontal_row<V: PlaceView>(view: &V, row: &Row, samples: &mut [u16])
    requires row { IsRow row.now }
    requires above { row.now.first ≤ row.now.top - 4 }
    requires samples { length samples.old ≡ row.now.width * (row.now.end - row.now.first) }
    requires bounded { IsBounded (2 ^ row.now.bit_depth - 1) samples.old }
    ensures value { (x y : ℕ) → x < row.now.width → row.now.first ≤ y → y < row.now.end
        → at row.now.width samples.new x (y - row.now.first)
        ≡ cond (is_beside_row row.now y)
        (horizontal row.now.plane row.now.bit_depth row.now.height (V.place_at view.now)
        (λ i j. at row.now.width samples.old i (j - row.now.first)) x y)
        (at row.now.width samples.old x (y - row.now.first)) }
    ensures bounded { IsBounded (2 ^ row.now.bit_depth - 1) samples.new }
{
    let pass = Pass {
        plane: row.plane,
        bit_depth: row.bit_depth,
        side: row.height,
        window: lines_across(row.width, row.first, row.end),
        first: (row.top + 7) / 8,
        end: (row.bottom + 7) / 8,
        along_first: 0,
        along_end: row.width,
    };
    filter_row(view, &pass, samples);
}

/// Lines of a plane, across whose vertical edges are columns.
fn columns_across(width: usize, first: usize, end: usize) -> Window
    ensures { result ≡ columns_across width first end }
{
    Window {
        turned: false,
        across_first: 0,
        across_end: width,
        along_first: first,
        along_end: end,
    }
}

/// Lines of a plane, across whose horizontal edges they are.
fn lines_across(width: usize, first: usize, end: usize) -> Window
    ensures { result ≡ lines_across width first end }
{
    Window {
        turned: true,
        across_first: first,
        across_end: end,
        along_first: 0,
        along_end: width,
    }
}

/// Filters the edges of a row in one direction: by code of its own for luma and for chroma.
#[inline(always)]
fn filter_row<V: PlaceView>(view: &V, pass: &Pass, out: &mut [u16])
    requires pass { IsPass pass.now }
    requires room { length out.old ≡ size pass.now.window }
    requires bounded { IsBounded (2 ^ pass.now.bit_depth - 1) out.old }
    ensures value { IsPartly pass.now (placed pass.now.window.turned (V.place_at view.now))
        (seen pass.now.window out.old) (pass.now.along_end / side pass.now.plane) 0 out.new }
    ensures bounded { IsBounded (2 ^ pass.now.bit_depth - 1) out.new }
{
    match pass.plane {
        Plane::Luma => {
            let pass = Pass {
                plane: Plane::Luma,
                ..*pass
            };
            filter_luma(view, &pass, out);
        }
        Plane::Chroma { qp_pic_offset } => {
            let pass = Pass {
                plane: Plane::Chroma { qp_pic_offset },
                ..*pass
            };
            filter_chroma(view, &pass, out);
        }
    }
}

/// Filters the edges of a row of luma.
#[inline(always)]
fn filter_luma<V: PlaceView>(view: &V, pass: &Pass, out: &mut [u16])
    requires pass { IsPass pass.now }
    requires same { 4 ≡ side pass.now.plane }
    requires room { length out.old ≡ size pass.now.window }
    requires bounded { IsBounded (2 ^ pass.now.bit_depth - 1) out.old }
    ensures value { IsPartly pass.now (placed pass.now.window.turned (V.place_at view.now))
        (seen pass.now.window out.old) (pass.now.along_end / side pass.now.plane) 0 out.new }
    ensures bounded { IsBounded (2 ^ pass.now.bit_depth - 1) out.new }
{
    for s in pass.along_first / 4..pass.along_end / 4 {
        filter_places(view, pass, s, out);
    }
}

/// Filters all edges at the lines of a place.
#[inline(always)]
fn filter_places<V: PlaceView>(view: &V, pass: &Pass, s: usize, out: &mut [u16])
    requires pass { IsPass pass.now }
    requires same { 4 ≡ side pass.now.plane }
    requires room { length out.old ≡ size pass.now.window }
    requires bounded { IsBounded (2 ^ pass.now.bit_depth - 1) out.old }
    requires along { IsAlong pass.now s }
    ensures done { (f : ℕ → ℕ → ℕ)
        → IsPartly pass.now (placed pass.now.window.turned (V.place_at view.now)) f s 0 out.old
        → IsPartly pass.now (placed pass.now.window.turned (V.place_at view.now)) f (s + 1) 0 out.new }
    ensures bounded { IsBounded (2 ^ pass.now.bit_depth - 1) out.new }
{
    let mut e = next_edge(view, pass, pass.first, s);
    while e < pass.end {
        filter_edge(view, pass, e, s, out);
        e = next_edge(view, pass, e + 1, s);
    }
}

/// The next edge that may be filtered at the lines of a place, from one on. Between them samples stay.
#[inline(always)]
fn next_edge<V: PlaceView>(view: &V, pass: &Pass, from: usize, s: usize) -> usize
    requires pass { IsPass pass.now }
    requires same { 4 ≡ side pass.now.plane }
    requires along { IsAlong pass.now s }
    requires first { pass.now.first ≤ from }
    requires from { from ≤ pass.now.end }
    ensures low { from ≤ result }
    ensures high { result ≤ pass.now.end }
    ensures done { (f : ℕ → ℕ → ℕ) (samples : List ℕ)
        → IsPartly pass.now (placed pass.now.window.turned (V.place_at view.now)) f s from samples
        → IsPartly pass.now (placed pass.now.window.turned (V.place_at view.now)) f s result samples }
{
    for e in from..pass.end {
        let q = place(view, pass.window.turned, 8 * e / 4, s);
        if !is_weak(q.left_strength) {
            return e;
        }
    }
    pass.end
}

/// Whether an edge of such a strength is not filtered.
#[inline(always)]
fn is_weak(strength: u8) -> bool
    ensures { result ≡ true → (strength == 0) ≡ true }
{
    strength == 0
}
