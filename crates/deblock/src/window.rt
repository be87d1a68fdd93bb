//! Samples in memory, by their places across and along edges.

ghost use Rattle.std.specs.Prelude.{◌≡◌, ◌<◌, ◌≤◌, ◌+◌, ◌-◌, ◌*◌, ◌&&◌, ◌==◌, ℕ, true, length, cond, nat_le, nat_lt};
ghost use Rattle.std.specs.Prelude.{if◌then◌else◌};
ghost use Rattle.spec_deblocking.specs.Lines.{across, nth};
ghost use Rattle.deblock.specs.Samples.{AreSmall, IsBounded};
ghost use Rattle.deblock.specs.Windows.{index, size, seen, holds, IsWindow};

use spec_deblocking::Line;

/// A part of a plane that is whole in one direction. Across vertical edges are columns, and along them lines; for
/// horizontal edges, which are `turned`, it is the other way round.
#[derive(Clone, Copy, Debug, PartialEq, Eq)]
pub struct Window {
    /// Whether the edges are horizontal.
    pub turned: bool,
    /// The first place across the edges.
    pub across_first: usize,
    /// The place behind the last across the edges, at most 65536.
    pub across_end: usize,
    /// The first place along the edges.
    pub along_first: usize,
    /// The place behind the last along the edges, at most 65536.
    pub along_end: usize,
}

/// The index of a sample.
#[inline(always)]
fn index(w: &Window, a: usize, b: usize) -> usize
    requires window { IsWindow w.now }
    requires inside { holds w.now a b ≡ true }
    ensures value { result ≡ index w.now a b }
    ensures inside { result < size w.now }
{
    if w.turned {
        w.along_end * (a - w.across_first) + b
    } else {
        w.across_end * (b - w.along_first) + a
    }
}

/// Where the samples of a line across an edge lie in memory.
#[derive(Clone, Copy)]
pub struct Way {
    /// The index of the first.
    pub first: usize,
    /// How far apart they are.
    pub step: usize,
}

/// Where the samples of a line across an edge lie.
#[inline(always)]
pub fn way_of(w: &Window, a: usize, b: usize) -> Way
    requires window { IsWindow w.now }
    requires inside { (k : ℕ) → k < 8 → holds w.now (a + k) b ≡ true }
    ensures at { (k : ℕ) → k < 8 → result.first + k * result.step ≡ index w.now (a + k) b }
{
    let first = index(w, a, b);
    if w.turned {
        Way {
            first,
            step: w.along_end,
        }
    } else {
        Way { first, step: 1 }
    }
}

/// How far apart in memory neighbours along edges are.
#[inline(always)]
pub fn along_of(w: &Window) -> usize
    ensures { result ≡ (if w.now.turned then 1 else w.now.across_end) }
{
    if w.turned { 1 } else { w.across_end }
}

/// Where the samples of a line lie that stands some lines behind another.
#[inline(always)]
pub fn later(
    samples: &[u16],
    w: &Window,
    way: Way,
    along: usize,
    n: usize,
    a: usize,
    b: usize,
) -> Way
    requires room { length samples.now ≡ size w.now }
    requires along { along ≡ (if w.now.turned then 1 else w.now.across_end) }
    requires at { (k : ℕ) → k < 8 → way.first + k * way.step ≡ index w.now (a + k) b }
    requires low { w.now.along_first ≤ b }
    requires inside { (k : ℕ) → k < 8 → holds w.now (a + k) (b + n) ≡ true }
    ensures at { (k : ℕ) → k < 8 → result.first + k * result.step ≡ index w.now (a + k) (b + n) }
{
    Way {
        first: way.first + n * along,
        step: way.step,
    }
}

/// A sample of a line across an edge.
#[inline(always)]
fn sample(samples: &[u16], w: &Window, way: Way, a: usize, b: usize, k: usize) -> u32
    requires room { length samples.now ≡ size w.now }
    requires inside { (k : ℕ) → k < 8 → holds w.now (a + k) b ≡ true }
    requires at { (k : ℕ) → k < 8 → way.first + k * way.step ≡ index w.now (a + k) b }
    requires few { k < 8 }
    ensures value { result ≡ seen w.now samples.now (a + k) b }
    ensures small { (greatest : ℕ) → IsBounded greatest samples.now → result ≤ greatest }
{
    u32::from(samples[way.first + k * way.step])
}

/// Lays a sample of a line across an edge.
#[inline(always)]
fn put(out: &mut [u16], w: &Window, way: Way, a: usize, b: usize, k: usize, value: u16)
    requires room { length out.old ≡ size w.now }
    requires inside { (k : ℕ) → k < 8 → holds w.now (a + k) b ≡ true }
    requires at { (k : ℕ) → k < 8 → way.first + k * way.step ≡ index w.now (a + k) b }
    requires few { k < 8 }
    ensures value { (i j : ℕ) → holds w.now i j ≡ true
        → seen w.now out.new i j ≡ cond (i == a + k && j == b) value (seen w.now out.old i j) }
    ensures small { (greatest : ℕ) → value ≤ greatest → IsBounded greatest out.old → IsBounded greatest out.new }
{
    out[way.first + k * way.step] = value;
}

/// The line across an edge from its first sample on.
#[inline(always)]
pub fn read_line(samples: &[u16], w: &Window, way: Way, a: usize, b: usize) -> Line
    requires at { (k : ℕ) → k < 8 → way.first + k * way.step ≡ index w.now (a + k) b }
    requires room { length samples.now ≡ size w.now }
    requires inside { (k : ℕ) → k < 8 → holds w.now (a + k) b ≡ true }
    ensures value { result ≡ across (seen w.now samples.now) a b }
    ensures small { (greatest : ℕ) → IsBounded greatest samples.now → AreSmall greatest result }
{
    Line {
        p3: sample(samples, w, way, a, b, 0),
        p2: sample(samples, w, way, a, b, 1),
        p1: sample(samples, w, way, a, b, 2),
        p0: sample(samples, w, way, a, b, 3),
        q0: sample(samples, w, way, a, b, 4),
        q1: sample(samples, w, way, a, b, 5),
        q2: sample(samples, w, way, a, b, 6),
        q3: sample(samples, w, way, a, b, 7),
    }
}

/// The sample of a line at a place, counted from p3 on.
#[inline(always)]
fn nth(line: &Line, k: usize) -> u32
    ensures value { result ≡ nth line.now k }
    ensures small { (greatest : ℕ) → AreSmall greatest line.now → result ≤ greatest }
{
    match k {
        0 => line.p3,
        1 => line.p2,
        2 => line.p1,
        3 => line.p0,
        4 => line.q0,
        5 => line.q1,
        6 => line.q2,
        _ => line.q3,
    }
}

/// Lays a part of a line across an edge.
#[inline(always)]
fn write_part(
    out: &mut [u16],
    w: &Window,
    way: Way,
    a: usize,
    b: usize,
    from: usize,
    to: usize,
    line: &Line,
)
    requires at { (k : ℕ) → k < 8 → way.first + k * way.step ≡ index w.now (a + k) b }
    requires room { length out.old ≡ size w.now }
    requires order { from ≤ to }
    requires to { to ≤ 8 }
    requires inside { (k : ℕ) → k < 8 → holds w.now (a + k) b ≡ true }
    requires line { AreSmall 16383 line.now }
    ensures value { (i j : ℕ) → holds w.now i j ≡ true
        → seen w.now out.new i j
        ≡ cond (j == b && (nat_le (a + from) i && nat_lt i (a + to))) (nth line.now (i - a)) (seen w.now out.old i j) }
    ensures small { (greatest : ℕ) → AreSmall greatest line.now → IsBounded greatest out.old
        → IsBounded greatest out.new }
{
    for k in from..to {
        put(out, w, way, a, b, k, nth(line, k) as u16);
    }
}

/// Lays a part of a line across an edge, by code of its own.
fn write_some<const FROM: usize, const TO: usize>(
    out: &mut [u16],
    w: &Window,
    way: Way,
    a: usize,
    b: usize,
    line: &Line,
)
    requires at { (k : ℕ) → k < 8 → way.first + k * way.step ≡ index w.now (a + k) b }
    requires room { length out.old ≡ size w.now }
    requires order { FROM ≤ TO }
    requires to { TO ≤ 8 }
    requires inside { (k : ℕ) → k < 8 → holds w.now (a + k) b ≡ true }
    requires line { AreSmall 16383 line.now }
    ensures value { (i j : ℕ) → holds w.now i j ≡ true
        → seen w.now out.new i j
        ≡ cond (j == b && (nat_le (a + FROM) i && nat_lt i (a + TO))) (nth line.now (i - a)) (seen w.now out.old i j) }
    ensures small { (greatest : ℕ) → AreSmall greatest line.now → IsBounded greatest out.old
        → IsBounded greatest out.new }
{
    for k in FROM..TO {
        put(out, w, way, a, b, k, nth(line, k) as u16);
    }
}

/// Lays a part of a line across an edge, which mostly is all of it. Only its samples from `FROM` to `TO` differ from
/// those that are there.
#[inline(always)]
pub fn write_line<const FROM: usize, const TO: usize>(
    out: &mut [u16],
    w: &Window,
    way: Way,
    a: usize,
    b: usize,
    from: usize,
    to: usize,
    line: &Line,
)
    requires at { (k : ℕ) → k < 8 → way.first + k * way.step ≡ index w.now (a + k) b }
    requires room { length out.old ≡ size w.now }
    requires order { from ≤ to }
    requires to { to ≤ 8 }
    requires inside { (k : ℕ) → k < 8 → holds w.now (a + k) b ≡ true }
    requires line { AreSmall 16383 line.now }
    requires first { FROM ≤ TO }
    requires last { TO ≤ 8 }
    requires before { (k : ℕ) → k < FROM → nth line.now k ≡ seen w.now out.old (a + k) b }
    requires behind { (k : ℕ) → TO + k < 8 → nth line.now (TO + k) ≡ seen w.now out.old (a + (TO + k)) b }
    ensures value { (i j : ℕ) → holds w.now i j ≡ true
        → seen w.now out.new i j
        ≡ cond (j == b && (nat_le (a + from) i && nat_lt i (a + to))) (nth line.now (i - a)) (seen w.now out.old i j) }
    ensures small { (greatest : ℕ) → AreSmall greatest line.now → IsBounded greatest out.old
        → IsBounded greatest out.new }
{
    if to - from == 8 {
        write_some::<FROM, TO>(out, w, way, a, b, line);
    } else {
        write_part(out, w, way, a, b, from, to, line);
    }
}
