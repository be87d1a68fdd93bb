//! Edges of chroma at the lines of two places at once, which are four.

ghost use Rattle.std.specs.Prelude.{◌≡◌, ◌<◌, ◌≤◌, ◌+◌, ◌-◌, ◌*◌, ◌/◌, ◌^◌, ◌==◌, ◌&&◌, ℕ, cond, length, List};
ghost use Rattle.std.specs.Prelude.{true, false, nat_le, nat_lt};
ghost use Rattle.spec_deblocking.specs.declared.place.Place.{Place};
ghost use Rattle.spec_deblocking.specs.declared.line.Filter.TheVariants.{Nearest};
ghost use Rattle.spec_deblocking.specs.Filters.{filtered};
ghost use Rattle.spec_deblocking.specs.Lines.{across, nth};
ghost use Rattle.spec_deblocking.specs.Places.{side};
ghost use Rattle.spec_deblocking.specs.Planes.{edge_sample};
ghost use Rattle.deblock.specs.Pairs.{AreAlike, AreAlong, IsPairly, is_near};
ghost use Rattle.deblock.specs.Passes.{placed, IsAcross, IsPartly, IsPass};
ghost use Rattle.deblock.specs.Samples.{IsBounded};
ghost use Rattle.deblock.specs.Windows.{size, seen, holds, IsWindow};

use crate::columns::filter_columns;
use crate::edge::{filter_place, greatest_sample, place};
use crate::four::filter_inner_rows;
use crate::pass::Pass;
use crate::thresholds::tc;
use crate::view::PlaceView;
use crate::window::{Window, along_of, way_of};
use spec_deblocking::{Filter, Place};

/// Filters the edges of a row of chroma.
#[inline(always)]
pub fn filter_chroma<V: PlaceView>(view: &V, pass: &Pass, out: &mut [u16])
    requires pass { IsPass pass.now }
    requires chroma { side pass.now.plane ≡ 2 }
    requires room { length out.old ≡ size pass.now.window }
    requires bounded { IsBounded (2 ^ pass.now.bit_depth - 1) out.old }
    ensures value { IsPartly pass.now (placed pass.now.window.turned (V.place_at view.now))
        (seen pass.now.window out.old) (pass.now.along_end / side pass.now.plane) 0 out.new }
    ensures bounded { IsBounded (2 ^ pass.now.bit_depth - 1) out.new }
{
    for s in pass.along_first / 4..pass.along_end / 4 {
        filter_pairs(view, pass, s, out);
    }
}

/// Filters all edges at the lines of two places.
#[inline(always)]
fn filter_pairs<V: PlaceView>(view: &V, pass: &Pass, s: usize, out: &mut [u16])
    requires pass { IsPass pass.now }
    requires chroma { side pass.now.plane ≡ 2 }
    requires room { length out.old ≡ size pass.now.window }
    requires bounded { IsBounded (2 ^ pass.now.bit_depth - 1) out.old }
    requires along { AreAlong pass.now s }
    ensures done { (f : ℕ → ℕ → ℕ)
        → IsPairly pass.now (placed pass.now.window.turned (V.place_at view.now)) f s 0 out.old
        → IsPairly pass.now (placed pass.now.window.turned (V.place_at view.now)) f (s + 1) 0 out.new }
    ensures bounded { IsBounded (2 ^ pass.now.bit_depth - 1) out.new }
{
    let mut e = next_edge(view, pass, pass.first, s);
    while e < pass.end {
        filter_edge(view, pass, e, s, out);
        e = next_edge(view, pass, e + 1, s);
    }
}

/// The next edge that may be filtered at the lines of two places, from one on. Between them samples stay.
#[inline(always)]
fn next_edge<V: PlaceView>(view: &V, pass: &Pass, from: usize, s: usize) -> usize
    requires pass { IsPass pass.now }
    requires chroma { side pass.now.plane ≡ 2 }
    requires along { AreAlong pass.now s }
    requires first { pass.now.first ≤ from }
    requires from { from ≤ pass.now.end }
    ensures low { from ≤ result }
    ensures high { result ≤ pass.now.end }
    ensures done { (f : ℕ → ℕ → ℕ) (samples : List ℕ)
        → IsPairly pass.now (placed pass.now.window.turned (V.place_at view.now)) f s from samples
        → IsPairly pass.now (placed pass.now.window.turned (V.place_at view.now)) f s result samples }
{
    for e in from..pass.end {
        let q = place(view, pass.window.turned, 8 * e / 2, 2 * s);
        let r = place(view, pass.window.turned, 8 * e / 2, 2 * s + 1);
        if is_one_strong(&q, &r) {
            return e;
        }
    }
    pass.end
}

/// Whether an edge of one of two places is filtered in chroma.
#[inline(always)]
fn is_one_strong(q: &Place, r: &Place) -> bool
    ensures first { result ≡ false → (q.now.left_strength == 2) ≡ false }
    ensures second { result ≡ false → (r.now.left_strength == 2) ≡ false }
{
    q.left_strength == 2 || r.left_strength == 2
}

/// Filters an edge at the lines of two places, where there is one.
#[inline(always)]
fn filter_edge<V: PlaceView>(view: &V, pass: &Pass, e: usize, s: usize, out: &mut [u16])
    requires pass { IsPass pass.now }
    requires chroma { side pass.now.plane ≡ 2 }
    requires room { length out.old ≡ size pass.now.window }
    requires bounded { IsBounded (2 ^ pass.now.bit_depth - 1) out.old }
    requires across { IsAcross pass.now e }
    requires along { AreAlong pass.now s }
    ensures done { (f : ℕ → ℕ → ℕ)
        → IsPairly pass.now (placed pass.now.window.turned (V.place_at view.now)) f s e out.old
        → IsPairly pass.now (placed pass.now.window.turned (V.place_at view.now)) f s (e + 1) out.new }
    ensures bounded { IsBounded (2 ^ pass.now.bit_depth - 1) out.new }
{
    if is_edge(pass, e) {
        filter_both(view, pass, e, s, out);
    }
}

/// Whether there are samples on both sides of an edge.
#[inline(always)]
fn is_edge(pass: &Pass, e: usize) -> bool
    requires { e ≤ 65536 }
    ensures { result ≡ (nat_lt 0 e && nat_lt (8 * e) pass.now.side) }
{
    0 < e && 8 * e < pass.side
}

/// Filters an edge between places at the lines of two: at once where they are filtered alike.
#[inline(always)]
fn filter_both<V: PlaceView>(view: &V, pass: &Pass, e: usize, s: usize, out: &mut [u16])
    requires pass { IsPass pass.now }
    requires chroma { side pass.now.plane ≡ 2 }
    requires room { length out.old ≡ size pass.now.window }
    requires bounded { IsBounded (2 ^ pass.now.bit_depth - 1) out.old }
    requires edge { 0 < e }
    requires within { 8 * e < pass.now.side }
    requires across { IsAcross pass.now e }
    requires along { AreAlong pass.now s }
    ensures value { (i j : ℕ) → holds pass.now.window i j ≡ true
        → seen pass.now.window out.new i j
        ≡ cond (is_near s e i j)
        (edge_sample pass.now.plane pass.now.bit_depth (placed pass.now.window.turned (V.place_at view.now))
        (seen pass.now.window out.old) e j (i + 4 - 8 * e))
        (seen pass.now.window out.old i j) }
    ensures bounded { IsBounded (2 ^ pass.now.bit_depth - 1) out.new }
{
    let p = place(view, pass.window.turned, (8 * e - 1) / 2, 2 * s);
    let o = place(view, pass.window.turned, (8 * e - 1) / 2, 2 * s + 1);
    let q = place(view, pass.window.turned, 8 * e / 2, 2 * s);
    let r = place(view, pass.window.turned, 8 * e / 2, 2 * s + 1);
    if are_alike(&p, &o, &q, &r) {
        let most = tc(pass.plane, pass.bit_depth, &p, &q);
        let greatest = greatest_sample(pass.bit_depth);
        filter_alike(greatest, most, &pass.window, 8 * e - 4, 4 * s, out);
        return;
    }
    filter_place(view, pass, e, 2 * s, &q, out);
    filter_place(view, pass, e, 2 * s + 1, &r, out);
}

/// Whether two places have one QpY and none of their samples stays.
#[inline(always)]
fn is_free(p: &Place, o: &Place) -> bool
    ensures qp { result ≡ true → o.now.qp_y ≡ p.now.qp_y }
    ensures first { result ≡ true → p.now.kept ≡ false }
    ensures second { result ≡ true → o.now.kept ≡ false }
{
    p.qp_y == o.qp_y && !p.kept && !o.kept
}

/// Whether the edges of two places are filtered in chroma, by the same offset of tc.
#[inline(always)]
fn are_strong(q: &Place, r: &Place) -> bool
    ensures first { result ≡ true → q.now.left_strength ≡ 2 }
    ensures second { result ≡ true → r.now.left_strength ≡ 2 }
    ensures offset { result ≡ true → r.now.slice_tc_offset_div2 ≡ q.now.slice_tc_offset_div2 }
{
    q.left_strength == 2 && r.left_strength == 2 && q.slice_tc_offset_div2 == r.slice_tc_offset_div2
}

/// Whether edges between places are filtered alike at both in chroma, where no side is kept.
#[inline(always)]
fn are_alike(p: &Place, o: &Place, q: &Place, r: &Place) -> bool
    ensures { result ≡ true → AreAlike p.now o.now q.now r.now }
{
    is_free(p, o) && is_free(q, r) && are_strong(q, r)
}

/// Filters four lines across an edge of chroma, where no side is kept.
#[inline(always)]
fn filter_alike(greatest: u32, tc: u32, w: &Window, a: usize, b: usize, out: &mut [u16])
    requires greatest { greatest ≤ 16383 }
    requires tc { tc ≤ 16320 }
    requires window { IsWindow w.now }
    requires bounded { IsBounded greatest out.old }
    requires room { length out.old ≡ size w.now }
    requires low { w.now.along_first ≤ b }
    requires first { (k : ℕ) → k < 8 → holds w.now (a + k) b ≡ true }
    requires inside { (k n : ℕ) → k < 8 → n < 4 → holds w.now (a + k) (b + n) ≡ true }
    ensures value { (i j : ℕ) → holds w.now i j ≡ true
        → seen w.now out.new i j
        ≡ cond ((nat_le b j && nat_lt j (b + 4)) && (nat_le a i && nat_lt i (a + 8)))
        (nth (filtered Nearest greatest tc (across (seen w.now out.old) a j)) (i - a)) (seen w.now out.old i j) }
    ensures bounded { IsBounded greatest out.new }
{
    let way = way_of(w, a, b);
    if w.turned {
        filter_inner_rows(greatest, tc, out, w, way, a, b);
    } else {
        filter_columns(
            Filter::Nearest,
            greatest,
            tc,
            out,
            w,
            way,
            along_of(w),
            a,
            b,
        );
    }
}
