//! One edge at the lines of one place.

ghost use Rattle.std.specs.Prelude.{◌≡◌, ◌<◌, ◌≤◌, ◌+◌, ◌-◌, ◌*◌, ◌/◌, ◌^◌, ℕ, true, length, cond};
ghost use Rattle.std.specs.Prelude.{◌==◌, ◌&&◌, nat_le, nat_lt, if◌then◌else◌};
ghost use Rattle.spec_deblocking.specs.declared.line.Line.{Line};
ghost use Rattle.spec_deblocking.specs.declared.place.Place.{Place};
ghost use Rattle.spec_deblocking.specs.declared.place.Plane.TheVariants.{Luma, Chroma};
ghost use Rattle.spec_deblocking.specs.Lines.{across, nth};
ghost use Rattle.spec_deblocking.specs.Places.{side};
ghost use Rattle.spec_deblocking.specs.Thresholds.{tc};
ghost use Rattle.spec_deblocking.specs.Decisions.{edge_filter};
ghost use Rattle.spec_deblocking.specs.Filters.{filtered};
ghost use Rattle.spec_deblocking.specs.Planes.{edge_sample};
ghost use Rattle.deblock.specs.Samples.{IsDepth, IsBounded};
ghost use Rattle.deblock.specs.Windows.{index, size, seen, holds};
ghost use Rattle.deblock.specs.Passes.{placed, IsPass, IsAlong, IsAcross, IsPartly, is_beside, is_written};

use crate::columns::filter_columns;
use crate::decision::{chroma_edge, luma_edge};
use crate::filters::filtered;
use crate::four::filter_rows;
use crate::pass::Pass;
use crate::thresholds::tc;
use crate::view::PlaceView;
use crate::window::{Way, Window, along_of, later, read_line, way_of, write_line};
use spec_deblocking::{Filter, Place, Plane};

/// How the lines of a place are filtered, and which part of them.
#[derive(Clone, Copy)]
struct Kernel {
    filter: Filter,
    greatest: u32,
    tc: u32,
    from: usize,
    to: usize,
}

/// How many lines of a plane a place has.
#[inline(always)]
pub fn side(plane: Plane) -> usize
    ensures value { result ≡ side plane }
    ensures least { 2 ≤ result }
    ensures greatest { result ≤ 4 }
{
    match plane {
        Plane::Luma => 4,
        Plane::Chroma { .. } => 2,
    }
}

/// The greatest sample.
#[inline(always)]
pub fn greatest_sample(depth: u32) -> u32
    requires { IsDepth depth }
    ensures value { result ≡ 2 ^ depth - 1 }
    ensures few { result ≤ 16383 }
{
    (1 << depth) - 1
}

/// A place across and along edges.
#[inline(always)]
pub fn place<V: PlaceView>(view: &V, turned: bool, a: usize, b: usize) -> Place
    ensures { result ≡ placed turned (V.place_at view.now) a b }
{
    if turned {
        let place = view.place(b, a);
        Place {
            left_strength: place.top_strength,
            top_strength: place.left_strength,
            ..place
        }
    } else {
        view.place(a, b)
    }
}

/// The first sample of a line that is laid: p3, or q0 where the other side is kept.
#[inline(always)]
fn first_laid(kept: bool) -> usize
    ensures value { result ≡ cond kept 4 0 }
    ensures few { result ≤ 4 }
{
    if kept { 4 } else { 0 }
}

/// The sample behind the last that is laid.
#[inline(always)]
fn end_laid(kept: bool) -> usize
    ensures value { result ≡ cond kept 4 8 }
    ensures some { 4 ≤ result }
    ensures few { result ≤ 8 }
{
    if kept { 4 } else { 8 }
}

/// Filters one line across an edge.
#[inline(always)]
fn filter_line(out: &mut [u16], w: &Window, way: Way, kernel: Kernel, a: usize, b: usize)
    requires at { (k : ℕ) → k < 8 → way.first + k * way.step ≡ index w.now (a + k) b }
    requires bounded { IsBounded kernel.greatest out.old }
    requires room { length out.old ≡ size w.now }
    requires inside { (k : ℕ) → k < 8 → holds w.now (a + k) b ≡ true }
    requires greatest { kernel.greatest ≤ 16383 }
    requires tc { kernel.tc ≤ 16320 }
    requires order { kernel.from ≤ kernel.to }
    requires to { kernel.to ≤ 8 }
    ensures value { (i j : ℕ) → holds w.now i j ≡ true
        → seen w.now out.new i j
        ≡ cond (j == b && (nat_le (a + kernel.from) i && nat_lt i (a + kernel.to)))
        (nth (filtered kernel.filter kernel.greatest kernel.tc (across (seen w.now out.old) a b)) (i - a))
        (seen w.now out.old i j) }
    ensures bounded { IsBounded kernel.greatest out.new }
{
    let old = read_line(out, w, way, a, b);
    let line = filtered(kernel.filter, kernel.greatest, kernel.tc, &old);
    match kernel.filter {
        Filter::Normal { .. } => {
            write_line::<2, 6>(out, w, way, a, b, kernel.from, kernel.to, &line);
        }
        Filter::Strong => write_line::<1, 7>(out, w, way, a, b, kernel.from, kernel.to, &line),
        Filter::Nearest => write_line::<3, 5>(out, w, way, a, b, kernel.from, kernel.to, &line),
        Filter::Off => write_line::<3, 5>(out, w, way, a, b, kernel.from, kernel.to, &line),
    }
}

/// Filters four lines across an edge of luma, which are laid whole.
#[inline(always)]
fn filter_four(
    kernel: Kernel,
    out: &mut [u16],
    w: &Window,
    way: Way,
    along: usize,
    a: usize,
    b: usize,
)
    requires greatest { kernel.greatest ≤ 16383 }
    requires tc { kernel.tc ≤ 16320 }
    requires bounded { IsBounded kernel.greatest out.old }
    requires room { length out.old ≡ size w.now }
    requires along { along ≡ (if w.now.turned then 1 else w.now.across_end) }
    requires at { (k : ℕ) → k < 8 → way.first + k * way.step ≡ index w.now (a + k) b }
    requires low { w.now.along_first ≤ b }
    requires inside { (k n : ℕ) → k < 8 → n < 4 → holds w.now (a + k) (b + n) ≡ true }
    ensures value { (i j : ℕ) → holds w.now i j ≡ true
        → seen w.now out.new i j
        ≡ cond ((nat_le b j && nat_lt j (b + 4)) && (nat_le a i && nat_lt i (a + 8)))
        (nth (filtered kernel.filter kernel.greatest kernel.tc (across (seen w.now out.old) a j)) (i - a))
        (seen w.now out.old i j) }
    ensures bounded { IsBounded kernel.greatest out.new }
{
    let Kernel {
        filter,
        greatest,
        tc,
        ..
    } = kernel;
    if w.turned {
        filter_rows(filter, greatest, tc, out, w, way, a, b);
    } else {
        filter_columns(filter, greatest, tc, out, w, way, along, a, b);
    }
}

/// Whether four lines across an edge of luma are laid whole.
#[inline(always)]
fn is_wide(plane: Plane, kernel: Kernel) -> bool
    requires order { kernel.from ≤ kernel.to }
    requires to { kernel.to ≤ 8 }
    ensures side { result ≡ true → side plane ≡ 4 }
    ensures from { result ≡ true → kernel.from ≡ 0 }
    ensures to { result ≡ true → kernel.to ≡ 8 }
{
    match kernel.filter {
        Filter::Normal { .. } | Filter::Strong => side(plane) == 4 && kernel.to - kernel.from == 8,
        Filter::Nearest | Filter::Off => false,
    }
}

/// Filters the lines of a place across an edge.
#[inline(always)]
fn filter_lines(pass: &Pass, kernel: Kernel, e: usize, s: usize, out: &mut [u16])
    requires pass { IsPass pass.now }
    requires bounded { IsBounded kernel.greatest out.old }
    requires room { length out.old ≡ size pass.now.window }
    requires edge { 0 < e }
    requires within { 8 * e < pass.now.side }
    requires across { IsAcross pass.now e }
    requires along { IsAlong pass.now s }
    requires greatest { kernel.greatest ≤ 16383 }
    requires tc { kernel.tc ≤ 16320 }
    requires order { kernel.from ≤ kernel.to }
    requires to { kernel.to ≤ 8 }
    ensures value { (i j : ℕ) → holds pass.now.window i j ≡ true
        → seen pass.now.window out.new i j
        ≡ cond (is_written pass.now.plane s (8 * e - 4) kernel.from kernel.to i j)
        (nth
        (filtered kernel.filter kernel.greatest kernel.tc (across (seen pass.now.window out.old) (8 * e - 4) j))
        (i - (8 * e - 4)))
        (seen pass.now.window out.old i j) }
    ensures bounded { IsBounded kernel.greatest out.new }
{
    let a = 8 * e - 4;
    let lines = side(pass.plane);
    let first = lines * s;
    let start = way_of(&pass.window, a, first);
    let along = along_of(&pass.window);
    if is_wide(pass.plane, kernel) {
        filter_four(kernel, out, &pass.window, start, along, a, first);
        return;
    }
    for n in 0..lines {
        let way = later(out, &pass.window, start, along, n, a, first);
        filter_line(out, &pass.window, way, kernel, a, first + n);
    }
}

/// Whether a filter changes no sample.
#[inline(always)]
#[tactic(auto, unfolding(spec_deblocking::specs::Filters::filtered))]
fn is_off(filter: Filter) -> bool
    ensures { result ≡ true → (greatest tc : ℕ) (line : Line) → filtered filter greatest tc line ≡ line }
{
    match filter {
        Filter::Off => true,
        Filter::Normal { .. } | Filter::Strong | Filter::Nearest => false,
    }
}

/// How the lines of a place are filtered across an edge, by the greatest change of a sample.
#[inline(always)]
fn filter_of(
    pass: &Pass,
    e: usize,
    s: usize,
    most: u32,
    p: &Place,
    q: &Place,
    samples: &[u16],
) -> Filter
    requires pass { IsPass pass.now }
    requires bounded { IsBounded (2 ^ pass.now.bit_depth - 1) samples.now }
    requires room { length samples.now ≡ size pass.now.window }
    requires edge { 0 < e }
    requires within { 8 * e < pass.now.side }
    requires across { IsAcross pass.now e }
    requires along { IsAlong pass.now s }
    requires most { most ≡ tc pass.now.plane pass.now.bit_depth p.now q.now }
    requires few { most ≤ 16320 }
    ensures { result ≡ edge_filter pass.now.plane pass.now.bit_depth p.now q.now
        (across (seen pass.now.window samples.now) (8 * e - 4) (side pass.now.plane * s))
        (across (seen pass.now.window samples.now) (8 * e - 4)
        (side pass.now.plane * s + (side pass.now.plane - 1))) }
{
    match pass.plane {
        Plane::Luma => {
            let a = 8 * e - 4;
            let top = way_of(&pass.window, a, 4 * s);
            let head = read_line(samples, &pass.window, top, a, 4 * s);
            let bottom = way_of(&pass.window, a, 4 * s + 3);
            let tail = read_line(samples, &pass.window, bottom, a, 4 * s + 3);
            luma_edge(pass.bit_depth, most, p, q, &head, &tail)
        }
        Plane::Chroma { .. } => chroma_edge(q),
    }
}

/// Filters an edge between two places at their lines, by code for what is known of the pass.
#[inline(always)]
fn filter_known(pass: &Pass, e: usize, s: usize, p: &Place, q: &Place, out: &mut [u16])
    requires pass { IsPass pass.now }
    requires bounded { IsBounded (2 ^ pass.now.bit_depth - 1) out.old }
    requires room { length out.old ≡ size pass.now.window }
    requires edge { 0 < e }
    requires within { 8 * e < pass.now.side }
    requires across { IsAcross pass.now e }
    requires along { IsAlong pass.now s }
    ensures value { (places : ℕ → ℕ → Place) → p.now ≡ places ((8 * e - 1) / side pass.now.plane) s
        → q.now ≡ places (8 * e / side pass.now.plane) s
        → (i j : ℕ) → holds pass.now.window i j ≡ true
        → seen pass.now.window out.new i j
        ≡ cond (is_beside pass.now.plane s e i j)
        (edge_sample pass.now.plane pass.now.bit_depth places (seen pass.now.window out.old) e j (i + 4 - 8 * e))
        (seen pass.now.window out.old i j) }
    ensures bounded { IsBounded (2 ^ pass.now.bit_depth - 1) out.new }
{
    let most = tc(pass.plane, pass.bit_depth, p, q);
    let filter = filter_of(pass, e, s, most, p, q, out);
    if is_off(filter) {
        return;
    }
    let kernel = Kernel {
        filter,
        greatest: greatest_sample(pass.bit_depth),
        tc: most,
        from: first_laid(p.kept),
        to: end_laid(q.kept),
    };
    filter_lines(pass, kernel, e, s, out);
}

/// Filters an edge of luma between two places at their lines.
fn filter_luma<const TURNED: bool>(
    pass: &Pass,
    e: usize,
    s: usize,
    p: &Place,
    q: &Place,
    out: &mut [u16],
)
    requires turned { pass.now.window.turned ≡ TURNED }
    requires plane { pass.now.plane ≡ Luma }
    requires pass { IsPass pass.now }
    requires bounded { IsBounded (2 ^ pass.now.bit_depth - 1) out.old }
    requires room { length out.old ≡ size pass.now.window }
    requires edge { 0 < e }
    requires within { 8 * e < pass.now.side }
    requires across { IsAcross pass.now e }
    requires along { IsAlong pass.now s }
    ensures value { (places : ℕ → ℕ → Place) → p.now ≡ places ((8 * e - 1) / side pass.now.plane) s
        → q.now ≡ places (8 * e / side pass.now.plane) s
        → (i j : ℕ) → holds pass.now.window i j ≡ true
        → seen pass.now.window out.new i j
        ≡ cond (is_beside pass.now.plane s e i j)
        (edge_sample pass.now.plane pass.now.bit_depth places (seen pass.now.window out.old) e j (i + 4 - 8 * e))
        (seen pass.now.window out.old i j) }
    ensures bounded { IsBounded (2 ^ pass.now.bit_depth - 1) out.new }
{
    let window = Window {
        turned: TURNED,
        ..pass.window
    };
    let pass = Pass {
        plane: Plane::Luma,
        window,
        ..*pass
    };
    filter_known(&pass, e, s, p, q, out);
}

/// Filters an edge of chroma between two places at their lines.
fn filter_chroma<const TURNED: bool>(
    pass: &Pass,
    qp_pic_offset: i8,
    e: usize,
    s: usize,
    p: &Place,
    q: &Place,
    out: &mut [u16],
)
    requires turned { pass.now.window.turned ≡ TURNED }
    requires plane { pass.now.plane ≡ Chroma qp_pic_offset }
    requires pass { IsPass pass.now }
    requires bounded { IsBounded (2 ^ pass.now.bit_depth - 1) out.old }
    requires room { length out.old ≡ size pass.now.window }
    requires edge { 0 < e }
    requires within { 8 * e < pass.now.side }
    requires across { IsAcross pass.now e }
    requires along { IsAlong pass.now s }
    ensures value { (places : ℕ → ℕ → Place) → p.now ≡ places ((8 * e - 1) / side pass.now.plane) s
        → q.now ≡ places (8 * e / side pass.now.plane) s
        → (i j : ℕ) → holds pass.now.window i j ≡ true
        → seen pass.now.window out.new i j
        ≡ cond (is_beside pass.now.plane s e i j)
        (edge_sample pass.now.plane pass.now.bit_depth places (seen pass.now.window out.old) e j (i + 4 - 8 * e))
        (seen pass.now.window out.old i j) }
    ensures bounded { IsBounded (2 ^ pass.now.bit_depth - 1) out.new }
{
    let window = Window {
        turned: TURNED,
        ..pass.window
    };
    let pass = Pass {
        plane: Plane::Chroma { qp_pic_offset },
        window,
        ..*pass
    };
    filter_known(&pass, e, s, p, q, out);
}

/// Filters an edge between two places at their lines.
#[inline(always)]
fn filter_between(pass: &Pass, e: usize, s: usize, p: &Place, q: &Place, out: &mut [u16])
    requires pass { IsPass pass.now }
    requires bounded { IsBounded (2 ^ pass.now.bit_depth - 1) out.old }
    requires room { length out.old ≡ size pass.now.window }
    requires edge { 0 < e }
    requires within { 8 * e < pass.now.side }
    requires across { IsAcross pass.now e }
    requires along { IsAlong pass.now s }
    ensures value { (places : ℕ → ℕ → Place) → p.now ≡ places ((8 * e - 1) / side pass.now.plane) s
        → q.now ≡ places (8 * e / side pass.now.plane) s
        → (i j : ℕ) → holds pass.now.window i j ≡ true
        → seen pass.now.window out.new i j
        ≡ cond (is_beside pass.now.plane s e i j)
        (edge_sample pass.now.plane pass.now.bit_depth places (seen pass.now.window out.old) e j (i + 4 - 8 * e))
        (seen pass.now.window out.old i j) }
    ensures bounded { IsBounded (2 ^ pass.now.bit_depth - 1) out.new }
{
    match pass.plane {
        Plane::Luma => {
            if pass.window.turned {
                filter_luma::<true>(pass, e, s, p, q, out);
            } else {
                filter_luma::<false>(pass, e, s, p, q, out);
            }
        }
        Plane::Chroma { qp_pic_offset } => {
            if pass.window.turned {
                filter_chroma::<true>(pass, qp_pic_offset, e, s, p, q, out);
            } else {
                filter_chroma::<false>(pass, qp_pic_offset, e, s, p, q, out);
            }
        }
    }
}

/// Filters an edge that has a strength at the lines of a place.
#[inline(always)]
pub fn filter_place<V: PlaceView>(
    view: &V,
    pass: &Pass,
    e: usize,
    s: usize,
    q: &Place,
    out: &mut [u16],
)
    requires pass { IsPass pass.now }
    requires bounded { IsBounded (2 ^ pass.now.bit_depth - 1) out.old }
    requires room { length out.old ≡ size pass.now.window }
    requires edge { 0 < e }
    requires within { 8 * e < pass.now.side }
    requires across { IsAcross pass.now e }
    requires along { IsAlong pass.now s }
    requires place { q.now ≡ placed pass.now.window.turned (V.place_at view.now) (8 * e / side pass.now.plane) s }
    ensures value { (i j : ℕ) → holds pass.now.window i j ≡ true
        → seen pass.now.window out.new i j
        ≡ cond (is_beside pass.now.plane s e i j)
        (edge_sample pass.now.plane pass.now.bit_depth (placed pass.now.window.turned (V.place_at view.now))
        (seen pass.now.window out.old) e j (i + 4 - 8 * e))
        (seen pass.now.window out.old i j) }
    ensures bounded { IsBounded (2 ^ pass.now.bit_depth - 1) out.new }
{
    let p = place(view, pass.window.turned, (8 * e - 1) / side(pass.plane), s);
    filter_between(pass, e, s, &p, q, out);
}

/// Filters an edge at the lines of a place, where there is one. No other edge reads the samples that it changes.
#[inline(always)]
pub fn filter_edge<V: PlaceView>(view: &V, pass: &Pass, e: usize, s: usize, out: &mut [u16])
    requires pass { IsPass pass.now }
    requires bounded { IsBounded (2 ^ pass.now.bit_depth - 1) out.old }
    requires room { length out.old ≡ size pass.now.window }
    requires across { IsAcross pass.now e }
    requires along { IsAlong pass.now s }
    ensures done { (f : ℕ → ℕ → ℕ)
        → IsPartly pass.now (placed pass.now.window.turned (V.place_at view.now)) f s e out.old
        → IsPartly pass.now (placed pass.now.window.turned (V.place_at view.now)) f s (e + 1) out.new }
    ensures bounded { IsBounded (2 ^ pass.now.bit_depth - 1) out.new }
{
    if 0 < e && 8 * e < pass.side {
        let q = place(view, pass.window.turned, 8 * e / side(pass.plane), s);
        if q.left_strength != 0 {
            filter_place(view, pass, e, s, &q, out);
        }
    }
}
