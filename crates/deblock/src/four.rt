//! Four lines across a horizontal edge, whose samples at a place stand beside one another in memory.

ghost use Rattle.std.specs.Prelude.{◌≡◌, ◌<◌, ◌≤◌, ◌+◌, ◌-◌, ◌*◌, ◌&&◌, ◌==◌, ℕ, true, length, cond, nat_le, nat_lt};
ghost use Rattle.spec_deblocking.specs.Filters.{filtered};
ghost use Rattle.spec_deblocking.specs.Lines.{across, nth};
ghost use Rattle.spec_deblocking.specs.declared.line.Filter.TheVariants.{Nearest};
ghost use Rattle.deblock.specs.Lanes.{lane, line_of, AreLines};
ghost use Rattle.deblock.specs.Samples.{IsBounded};
ghost use Rattle.deblock.specs.Windows.{index, size, seen, holds};

use crate::lanes::{Lines, filtered_lines};
use crate::window::{Way, Window};
use spec_deblocking::Filter;
use std::simd::prelude::*;

/// Where the samples of four lines at a place in them begin.
#[inline(always)]
fn start_of(samples: &[u16], w: &Window, way: Way, a: usize, b: usize, k: usize) -> usize
    requires turned { w.now.turned ≡ true }
    requires room { length samples.now ≡ size w.now }
    requires inside { (k n : ℕ) → k < 8 → n < 4 → holds w.now (a + k) (b + n) ≡ true }
    requires at { (k : ℕ) → k < 8 → way.first + k * way.step ≡ index w.now (a + k) b }
    requires few { k < 8 }
    ensures value { result ≡ index w.now (a + k) b }
    ensures room { result + 4 ≤ length samples.now }
{
    way.first + k * way.step
}

/// Four samples that stand beside one another.
#[inline(always)]
fn load(samples: &[u16], start: usize) -> u32x4
    requires room { start + 4 ≤ length samples.now }
    ensures value { (n : ℕ) → n < 4 → lane result n ≡ lane samples.now (start + n) }
{
    u16x4::from_slice(&samples[start..]).cast::<u32>()
}

/// Lays four samples beside one another.
#[inline(always)]
fn store(lanes: u32x4, out: &mut [u16], start: usize)
    requires room { start + 4 ≤ length out.old }
    requires small { (n : ℕ) → n < 4 → lane lanes n ≤ 16383 }
    ensures count { length out.new ≡ length out.old }
    ensures value { (q : ℕ) → lane out.new q
        ≡ cond (nat_le start q && nat_lt q (start + 4)) (lane lanes (q - start)) (lane out.old q) }
{
    lanes.cast::<u16>().copy_to_slice(&mut out[start..]);
}

/// The samples of four lines at a place in them.
#[inline(always)]
fn read_row(samples: &[u16], w: &Window, way: Way, a: usize, b: usize, k: usize) -> u32x4
    requires turned { w.now.turned ≡ true }
    requires room { length samples.now ≡ size w.now }
    requires inside { (k n : ℕ) → k < 8 → n < 4 → holds w.now (a + k) (b + n) ≡ true }
    requires at { (k : ℕ) → k < 8 → way.first + k * way.step ≡ index w.now (a + k) b }
    requires few { k < 8 }
    ensures value { (n : ℕ) → n < 4 → lane result n ≡ seen w.now samples.now (a + k) (b + n) }
{
    load(samples, start_of(samples, w, way, a, b, k))
}

/// Lays the samples of four lines at a place in them.
#[inline(always)]
fn write_row(lanes: u32x4, out: &mut [u16], w: &Window, way: Way, a: usize, b: usize, k: usize)
    requires turned { w.now.turned ≡ true }
    requires room { length out.old ≡ size w.now }
    requires inside { (k n : ℕ) → k < 8 → n < 4 → holds w.now (a + k) (b + n) ≡ true }
    requires at { (k : ℕ) → k < 8 → way.first + k * way.step ≡ index w.now (a + k) b }
    requires few { k < 8 }
    requires small { (n : ℕ) → n < 4 → lane lanes n ≤ 16383 }
    ensures count { length out.new ≡ length out.old }
    ensures value { (i j : ℕ) → holds w.now i j ≡ true
        → seen w.now out.new i j
        ≡ cond (i == a + k && (nat_le b j && nat_lt j (b + 4))) (lane lanes (j - b)) (seen w.now out.old i j) }
    ensures small { (greatest : ℕ) → ((n : ℕ) → n < 4 → lane lanes n ≤ greatest) → IsBounded greatest out.old
        → IsBounded greatest out.new }
{
    let start = start_of(out, w, way, a, b, k);
    store(lanes, out, start);
}

/// Four lines across an edge.
#[inline(always)]
fn read_rows(samples: &[u16], w: &Window, way: Way, a: usize, b: usize) -> Lines
    requires turned { w.now.turned ≡ true }
    requires room { length samples.now ≡ size w.now }
    requires inside { (k n : ℕ) → k < 8 → n < 4 → holds w.now (a + k) (b + n) ≡ true }
    requires at { (k : ℕ) → k < 8 → way.first + k * way.step ≡ index w.now (a + k) b }
    ensures value { (n : ℕ) → n < 4 → line_of result n ≡ across (seen w.now samples.now) a (b + n) }
    ensures small { (greatest : ℕ) → IsBounded greatest samples.now → AreLines greatest result }
{
    Lines {
        p3: read_row(samples, w, way, a, b, 0),
        p2: read_row(samples, w, way, a, b, 1),
        p1: read_row(samples, w, way, a, b, 2),
        p0: read_row(samples, w, way, a, b, 3),
        q0: read_row(samples, w, way, a, b, 4),
        q1: read_row(samples, w, way, a, b, 5),
        q2: read_row(samples, w, way, a, b, 6),
        q3: read_row(samples, w, way, a, b, 7),
    }
}

/// The samples of four lines at a place in them, counted from p3 on.
#[inline(always)]
fn nth(l: &Lines, k: usize) -> u32x4
    ensures value { (n : ℕ) → lane result n ≡ nth (line_of l.now n) k }
    ensures small { (greatest : ℕ) → AreLines greatest l.now → (n : ℕ) → n < 4 → lane result n ≤ greatest }
{
    match k {
        0 => l.p3,
        1 => l.p2,
        2 => l.p1,
        3 => l.p0,
        4 => l.q0,
        5 => l.q1,
        6 => l.q2,
        _ => l.q3,
    }
}

/// Lays four lines across an edge.
#[inline(always)]
fn write_rows(l: &Lines, out: &mut [u16], w: &Window, way: Way, a: usize, b: usize)
    requires turned { w.now.turned ≡ true }
    requires room { length out.old ≡ size w.now }
    requires inside { (k n : ℕ) → k < 8 → n < 4 → holds w.now (a + k) (b + n) ≡ true }
    requires at { (k : ℕ) → k < 8 → way.first + k * way.step ≡ index w.now (a + k) b }
    requires lines { AreLines 16383 l.now }
    ensures value { (i j : ℕ) → holds w.now i j ≡ true
        → seen w.now out.new i j
        ≡ cond ((nat_le b j && nat_lt j (b + 4)) && (nat_le a i && nat_lt i (a + 8)))
        (nth (line_of l.now (j - b)) (i - a)) (seen w.now out.old i j) }
    ensures small { (greatest : ℕ) → AreLines greatest l.now → IsBounded greatest out.old
        → IsBounded greatest out.new }
{
    for k in 0..8usize {
        write_row(nth(l, k), out, w, way, a, b, k);
    }
}

/// Filters four lines across an edge of luma, where no side is kept.
#[inline(always)]
pub fn filter_rows(
    filter: Filter,
    greatest: u32,
    tc: u32,
    out: &mut [u16],
    w: &Window,
    way: Way,
    a: usize,
    b: usize,
)
    requires turned { w.now.turned ≡ true }
    requires greatest { greatest ≤ 16383 }
    requires tc { tc ≤ 16320 }
    requires bounded { IsBounded greatest out.old }
    requires room { length out.old ≡ size w.now }
    requires inside { (k n : ℕ) → k < 8 → n < 4 → holds w.now (a + k) (b + n) ≡ true }
    requires at { (k : ℕ) → k < 8 → way.first + k * way.step ≡ index w.now (a + k) b }
    ensures value { (i j : ℕ) → holds w.now i j ≡ true
        → seen w.now out.new i j
        ≡ cond ((nat_le b j && nat_lt j (b + 4)) && (nat_le a i && nat_lt i (a + 8)))
        (nth (filtered filter greatest tc (across (seen w.now out.old) a j)) (i - a)) (seen w.now out.old i j) }
    ensures bounded { IsBounded greatest out.new }
{
    let old = read_rows(out, w, way, a, b);
    let lines = filtered_lines(filter, greatest, tc, &old);
    write_rows(&lines, out, w, way, a, b);
}

/// Filters four lines across an edge of chroma, where no side is kept: the samples right before and right behind it.
#[inline(always)]
pub fn filter_inner_rows(
    greatest: u32,
    tc: u32,
    out: &mut [u16],
    w: &Window,
    way: Way,
    a: usize,
    b: usize,
)
    requires turned { w.now.turned ≡ true }
    requires greatest { greatest ≤ 16383 }
    requires tc { tc ≤ 16320 }
    requires bounded { IsBounded greatest out.old }
    requires room { length out.old ≡ size w.now }
    requires inside { (k n : ℕ) → k < 8 → n < 4 → holds w.now (a + k) (b + n) ≡ true }
    requires at { (k : ℕ) → k < 8 → way.first + k * way.step ≡ index w.now (a + k) b }
    ensures value { (i j : ℕ) → holds w.now i j ≡ true
        → seen w.now out.new i j
        ≡ cond ((nat_le b j && nat_lt j (b + 4)) && (nat_le a i && nat_lt i (a + 8)))
        (nth (filtered Nearest greatest tc (across (seen w.now out.old) a j)) (i - a)) (seen w.now out.old i j) }
    ensures bounded { IsBounded greatest out.new }
{
    let old = read_rows(out, w, way, a, b);
    let lines = filtered_lines(Filter::Nearest, greatest, tc, &old);
    write_row(lines.p0, out, w, way, a, b, 3);
    write_row(lines.q0, out, w, way, a, b, 4);
}
