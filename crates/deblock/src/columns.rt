//! Four lines across a vertical edge, each of which stands in one piece in memory.

ghost use Rattle.std.specs.Prelude.{◌≡◌, ◌<◌, ◌≤◌, ◌+◌, ◌-◌, ◌*◌, ◌&&◌, ◌==◌, ℕ, true, false, length, cond, nat_le};
ghost use Rattle.std.specs.Prelude.{nat_lt, if◌then◌else◌};
ghost use Rattle.spec_deblocking.specs.Filters.{filtered};
ghost use Rattle.spec_deblocking.specs.Lines.{across, nth};
ghost use Rattle.deblock.specs.Lanes.{lane, line_of, row_of, half_and_half, two_of, AreLines};
ghost use Rattle.deblock.specs.Samples.{AreSmall, IsBounded};
ghost use Rattle.deblock.specs.Windows.{index, size, seen, holds};

use crate::lanes::{Lines, filtered_lines};
use crate::window::{Way, Window, later};
use spec_deblocking::Filter;
use std::simd::prelude::*;

/// The first four of eight samples.
#[inline(always)]
fn low(samples: u16x8) -> u32x4
    ensures value { (n : ℕ) → n < 4 → lane result n ≡ lane samples n }
{
    samples.swizzle([0, 1, 2, 3]).cast::<u32>()
}

/// The last four of eight samples.
#[inline(always)]
fn high(samples: u16x8) -> u32x4
    ensures value { (n : ℕ) → n < 4 → lane result n ≡ lane samples (4 + n) }
{
    samples.swizzle([4, 5, 6, 7]).cast::<u32>()
}

/// Two times four samples.
#[inline(always)]
fn joined(low: u32x4, high: u32x4) -> u16x8
    requires low { (n : ℕ) → n < 4 → lane low n ≤ 16383 }
    requires high { (n : ℕ) → n < 4 → lane high n ≤ 16383 }
    ensures before { (lane result 0 ≡ lane low 0) × (lane result 1 ≡ lane low 1) × (lane result 2 ≡ lane low 2)
        × (lane result 3 ≡ lane low 3) }
    ensures behind { (lane result 4 ≡ lane high 0) × (lane result 5 ≡ lane high 1) × (lane result 6 ≡ lane high 2)
        × (lane result 7 ≡ lane high 3) }
{
    low.cast::<u16>()
        .shuffle(high.cast::<u16>(), [0, 1, 2, 3, 4, 5, 6, 7])
}

/// Four lines of eight samples, as vectors of their samples at each place.
#[inline(always)]
fn turned(a: u16x8, b: u16x8, c: u16x8, d: u16x8) -> Lines
    ensures first { line_of result 0 ≡ row_of a }
    ensures second { line_of result 1 ≡ row_of b }
    ensures third { line_of result 2 ≡ row_of c }
    ensures fourth { line_of result 3 ≡ row_of d }
{
    let before_ac = a.shuffle(c, [0, 8, 1, 9, 2, 10, 3, 11]);
    let before_bd = b.shuffle(d, [0, 8, 1, 9, 2, 10, 3, 11]);
    let behind_ac = a.shuffle(c, [4, 12, 5, 13, 6, 14, 7, 15]);
    let behind_bd = b.shuffle(d, [4, 12, 5, 13, 6, 14, 7, 15]);
    let outer = before_ac.shuffle(before_bd, [0, 8, 1, 9, 2, 10, 3, 11]);
    let inner = before_ac.shuffle(before_bd, [4, 12, 5, 13, 6, 14, 7, 15]);
    let inner_behind = behind_ac.shuffle(behind_bd, [0, 8, 1, 9, 2, 10, 3, 11]);
    let outer_behind = behind_ac.shuffle(behind_bd, [4, 12, 5, 13, 6, 14, 7, 15]);
    Lines {
        p3: low(outer),
        p2: high(outer),
        p1: low(inner),
        p0: high(inner),
        q0: low(inner_behind),
        q1: high(inner_behind),
        q2: low(outer_behind),
        q3: high(outer_behind),
    }
}

/// The left and the right halves of lines, in turn.
#[inline(always)]
fn halves(before: u16x8, behind: u16x8) -> (u16x8, u16x8)
    ensures first { row_of result.0 ≡ half_and_half before behind 0 }
    ensures second { row_of result.1 ≡ half_and_half before behind 4 }
{
    (
        before.shuffle(behind, [0, 1, 2, 3, 8, 9, 10, 11]),
        before.shuffle(behind, [4, 5, 6, 7, 12, 13, 14, 15]),
    )
}

/// Samples at four places of four lines, line by line.
#[inline(always)]
fn by_lines(outer: u16x8, inner: u16x8) -> (u16x8, u16x8)
    ensures first { row_of result.0 ≡ two_of outer inner 0 }
    ensures second { row_of result.1 ≡ two_of outer inner 2 }
{
    let even = outer.shuffle(inner, [0, 8, 1, 9, 2, 10, 3, 11]);
    let odd = outer.shuffle(inner, [4, 12, 5, 13, 6, 14, 7, 15]);
    (
        even.shuffle(odd, [0, 8, 1, 9, 2, 10, 3, 11]),
        even.shuffle(odd, [4, 12, 5, 13, 6, 14, 7, 15]),
    )
}

/// Where a line across an edge begins.
#[inline(always)]
fn start_of_line(
    samples: &[u16],
    w: &Window,
    way: Way,
    along: usize,
    n: usize,
    a: usize,
    b: usize,
) -> usize
    requires level { w.now.turned ≡ false }
    requires room { length samples.now ≡ size w.now }
    requires along { along ≡ (if w.now.turned then 1 else w.now.across_end) }
    requires at { (k : ℕ) → k < 8 → way.first + k * way.step ≡ index w.now (a + k) b }
    requires low { w.now.along_first ≤ b }
    requires inside { (k : ℕ) → k < 8 → holds w.now (a + k) (b + n) ≡ true }
    ensures value { (k : ℕ) → result + k ≡ index w.now (a + k) (b + n) }
    ensures room { result + 8 ≤ length samples.now }
{
    later(samples, w, way, along, n, a, b).first
}

/// Eight samples that stand beside one another.
#[inline(always)]
fn load(samples: &[u16], start: usize) -> u16x8
    requires room { start + 8 ≤ length samples.now }
    ensures value { (k : ℕ) → k < 8 → lane result k ≡ lane samples.now (start + k) }
{
    u16x8::from_slice(&samples[start..])
}

/// Lays eight samples beside one another.
#[inline(always)]
fn store(lanes: u16x8, out: &mut [u16], start: usize)
    requires room { start + 8 ≤ length out.old }
    ensures count { length out.new ≡ length out.old }
    ensures value { (q : ℕ) → lane out.new q
        ≡ cond (nat_le start q && nat_lt q (start + 8)) (lane lanes (q - start)) (lane out.old q) }
{
    lanes.copy_to_slice(&mut out[start..]);
}

/// A line across an edge.
#[inline(always)]
fn read_line(
    samples: &[u16],
    w: &Window,
    way: Way,
    along: usize,
    n: usize,
    a: usize,
    b: usize,
) -> u16x8
    requires level { w.now.turned ≡ false }
    requires room { length samples.now ≡ size w.now }
    requires along { along ≡ (if w.now.turned then 1 else w.now.across_end) }
    requires at { (k : ℕ) → k < 8 → way.first + k * way.step ≡ index w.now (a + k) b }
    requires low { w.now.along_first ≤ b }
    requires inside { (k : ℕ) → k < 8 → holds w.now (a + k) (b + n) ≡ true }
    ensures value { row_of result ≡ across (seen w.now samples.now) a (b + n) }
    ensures small { (greatest : ℕ) → IsBounded greatest samples.now → AreSmall greatest (row_of result) }
{
    load(samples, start_of_line(samples, w, way, along, n, a, b))
}

/// Lays a line across an edge.
#[inline(always)]
fn write_line(
    lanes: u16x8,
    out: &mut [u16],
    w: &Window,
    way: Way,
    along: usize,
    n: usize,
    a: usize,
    b: usize,
)
    requires level { w.now.turned ≡ false }
    requires room { length out.old ≡ size w.now }
    requires along { along ≡ (if w.now.turned then 1 else w.now.across_end) }
    requires at { (k : ℕ) → k < 8 → way.first + k * way.step ≡ index w.now (a + k) b }
    requires low { w.now.along_first ≤ b }
    requires inside { (k : ℕ) → k < 8 → holds w.now (a + k) (b + n) ≡ true }
    ensures count { length out.new ≡ length out.old }
    ensures value { (i j : ℕ) → holds w.now i j ≡ true
        → seen w.now out.new i j
        ≡ cond (j == b + n && (nat_le a i && nat_lt i (a + 8))) (nth (row_of lanes) (i - a)) (seen w.now out.old i j) }
    ensures small { (greatest : ℕ) → AreSmall greatest (row_of lanes) → IsBounded greatest out.old
        → IsBounded greatest out.new }
{
    let start = start_of_line(out, w, way, along, n, a, b);
    store(lanes, out, start);
}

/// Four lines across an edge.
#[inline(always)]
fn read_columns(samples: &[u16], w: &Window, way: Way, along: usize, a: usize, b: usize) -> Lines
    requires level { w.now.turned ≡ false }
    requires room { length samples.now ≡ size w.now }
    requires along { along ≡ (if w.now.turned then 1 else w.now.across_end) }
    requires at { (k : ℕ) → k < 8 → way.first + k * way.step ≡ index w.now (a + k) b }
    requires low { w.now.along_first ≤ b }
    requires inside { (k n : ℕ) → k < 8 → n < 4 → holds w.now (a + k) (b + n) ≡ true }
    ensures value { (n : ℕ) → n < 4 → line_of result n ≡ across (seen w.now samples.now) a (b + n) }
    ensures small { (greatest : ℕ) → IsBounded greatest samples.now → AreLines greatest result }
{
    turned(
        read_line(samples, w, way, along, 0, a, b),
        read_line(samples, w, way, along, 1, a, b),
        read_line(samples, w, way, along, 2, a, b),
        read_line(samples, w, way, along, 3, a, b),
    )
}

/// Four lines of eight samples.
#[derive(Clone, Copy)]
struct Four {
    first: u16x8,
    second: u16x8,
    third: u16x8,
    fourth: u16x8,
}

/// Four lines of eight samples, from vectors of their samples at each place.
#[inline(always)]
fn turned_back(l: &Lines) -> Four
    requires lines { AreLines 16383 l.now }
    ensures first { row_of result.first ≡ line_of l.now 0 }
    ensures second { row_of result.second ≡ line_of l.now 1 }
    ensures third { row_of result.third ≡ line_of l.now 2 }
    ensures fourth { row_of result.fourth ≡ line_of l.now 3 }
{
    let (before, before_last) = by_lines(joined(l.p3, l.p2), joined(l.p1, l.p0));
    let (behind, behind_last) = by_lines(joined(l.q0, l.q1), joined(l.q2, l.q3));
    let (first, second) = halves(before, behind);
    let (third, fourth) = halves(before_last, behind_last);
    Four {
        first,
        second,
        third,
        fourth,
    }
}

/// Filters four lines across an edge of luma, where no side is kept.
#[inline(always)]
pub fn filter_columns(
    filter: Filter,
    greatest: u32,
    tc: u32,
    out: &mut [u16],
    w: &Window,
    way: Way,
    along: usize,
    a: usize,
    b: usize,
)
    requires level { w.now.turned ≡ false }
    requires greatest { greatest ≤ 16383 }
    requires tc { tc ≤ 16320 }
    requires bounded { IsBounded greatest out.old }
    requires room { length out.old ≡ size w.now }
    requires along { along ≡ (if w.now.turned then 1 else w.now.across_end) }
    requires at { (k : ℕ) → k < 8 → way.first + k * way.step ≡ index w.now (a + k) b }
    requires low { w.now.along_first ≤ b }
    requires inside { (k n : ℕ) → k < 8 → n < 4 → holds w.now (a + k) (b + n) ≡ true }
    ensures value { (i j : ℕ) → holds w.now i j ≡ true
        → seen w.now out.new i j
        ≡ cond ((nat_le b j && nat_lt j (b + 4)) && (nat_le a i && nat_lt i (a + 8)))
        (nth (filtered filter greatest tc (across (seen w.now out.old) a j)) (i - a)) (seen w.now out.old i j) }
    ensures bounded { IsBounded greatest out.new }
{
    let old = read_columns(out, w, way, along, a, b);
    let lines = turned_back(&filtered_lines(filter, greatest, tc, &old));
    write_line(lines.first, out, w, way, along, 0, a, b);
    write_line(lines.second, out, w, way, along, 1, a, b);
    write_line(lines.third, out, w, way, along, 2, a, b);
    write_line(lines.fourth, out, w, way, along, 3, a, b);
}
