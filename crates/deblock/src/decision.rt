//! How the lines of a place are filtered across an edge (8.7.2.5.3, 8.7.2.5.6).

ghost use Rattle.std.specs.Prelude.{◌≡◌, ◌<◌, ◌≤◌, ◌+◌, ◌*◌, ◌/◌, ℕ, ℤ};
ghost use Rattle.spec_deblocking.specs.Decisions.{bend, d_p, d_q, d_pq, d_sam, side_bound};
ghost use Rattle.spec_deblocking.specs.Decisions.{luma_filter, edge_filter};
ghost use Rattle.spec_deblocking.specs.Thresholds.{tc};
ghost use Rattle.spec_deblocking.specs.declared.line.Line.{Line};
ghost use Rattle.spec_deblocking.specs.declared.place.Place.{Place};
ghost use Rattle.spec_deblocking.specs.declared.place.Plane.TheVariants.{Luma, Chroma};
ghost use Rattle.deblock.specs.Samples.{IsDepth, AreSmall};

use crate::thresholds::beta;
use spec_deblocking::{Filter, Line, Place};

/// How far three samples are from straight.
#[inline(always)]
fn bend(s2: u32, s1: u32, s0: u32) -> u32
    requires { (s2 ≤ 16383) × (s1 ≤ 16383) × (s0 ≤ 16383) }
    ensures value { result ≡ bend s2 s1 s0 }
    ensures few { result ≤ 32766 }
{
    (s2 + s0).abs_diff(2 * s1)
}

/// dp.
#[inline(always)]
fn bend_before(line: &Line) -> u32
    requires { AreSmall 16383 line.now }
    ensures value { result ≡ d_p line.now }
    ensures few { result ≤ 32766 }
{
    bend(line.p2, line.p1, line.p0)
}

/// dq.
#[inline(always)]
fn bend_behind(line: &Line) -> u32
    requires { AreSmall 16383 line.now }
    ensures value { result ≡ d_q line.now }
    ensures few { result ≤ 32766 }
{
    bend(line.q2, line.q1, line.q0)
}

/// dpq.
#[inline(always)]
fn bends(line: &Line) -> u32
    requires { AreSmall 16383 line.now }
    ensures value { result ≡ d_pq line.now }
    ensures few { result ≤ 65532 }
{
    bend_before(line) + bend_behind(line)
}

/// dSam.
#[inline(always)]
#[tactic(auto, unfolding(spec_deblocking::specs::Decisions::d_sam))]
fn is_flat(beta: u32, tc: u32, line: &Line) -> bool
    requires line { AreSmall 16383 line.now }
    requires tc { tc ≤ 16320 }
    ensures { result ≡ d_sam beta tc line.now }
{
    2 * bends(line) < beta / 4
        && line.p3.abs_diff(line.p0) + line.q0.abs_diff(line.q3) < beta / 8
        && line.p0.abs_diff(line.q0) < (5 * tc + 1) / 2
}

/// dE, dEp and dEq of luma.
#[tactic(auto, unfolding(spec_deblocking::specs::Decisions::luma_filter))]
fn luma_filter(beta: u32, tc: u32, first: &Line, last: &Line) -> Filter
    requires beta { beta ≤ 16320 }
    requires tc { tc ≤ 16320 }
    requires first { AreSmall 16383 first.now }
    requires last { AreSmall 16383 last.now }
    ensures { result ≡ luma_filter beta tc first.now last.now }
{
    if bends(first) + bends(last) < beta {
        if is_flat(beta, tc, first) && is_flat(beta, tc, last) {
            Filter::Strong
        } else {
            let bound = (beta + beta / 2) / 8;
            Filter::Normal {
                p1: bend_before(first) + bend_before(last) < bound,
                q1: bend_behind(first) + bend_behind(last) < bound,
            }
        }
    } else {
        Filter::Off
    }
}

/// How the lines of an edge of luma are filtered, by the greatest change of a sample.
#[tactic(auto, unfolding(spec_deblocking::specs::Decisions::edge_filter))]
pub fn luma_edge(depth: u32, most: u32, p: &Place, q: &Place, first: &Line, last: &Line) -> Filter
    requires depth { IsDepth depth }
    requires most { most ≡ tc Luma depth p.now q.now }
    requires few { most ≤ 16320 }
    requires first { AreSmall 16383 first.now }
    requires last { AreSmall 16383 last.now }
    ensures { result ≡ edge_filter Luma depth p.now q.now first.now last.now }
{
    if q.left_strength == 0 {
        Filter::Off
    } else {
        luma_filter(beta(depth, p, q), most, first, last)
    }
}

/// How the lines of an edge of chroma are filtered.
#[inline(always)]
#[tactic(auto, unfolding(spec_deblocking::specs::Decisions::edge_filter))]
pub fn chroma_edge(q: &Place) -> Filter
    ensures { (offset : ℤ) (depth : ℕ) (p : Place) (first last : Line)
        → result ≡ edge_filter (Chroma offset) depth p q.now first last }
{
    if q.left_strength == 2 {
        Filter::Nearest
    } else {
        Filter::Off
    }
}
