//! The filters of four lines at once (8.7.2.5.7, 8.7.2.5.8). A vector has a sample of each line, and changes stand on a
//! base, so that no lane has a sign.

ghost use Rattle.std.specs.Prelude.{◌≡◌, ◌<◌, ◌≤◌, ◌+◌, ◌-◌, ◌*◌, ◌/◌, ℕ, ℤ, pos, ◌+ℤ◌, ◌-ℤ◌, neg_ℤ, length, cond};
ghost use Rattle.std.specs.Prelude.{nat_lt};
ghost use Rattle.std.specs.Int.{int_shr};
ghost use Rattle.std.specs.Int.RustNames.{unsigned_abs};
ghost use Rattle.spec_deblocking.specs.Filters.{held, strong, moved, within, normal_change, second_change};
ghost use Rattle.spec_deblocking.specs.Filters.{second_sample, normal, nearest, filtered};
ghost use Rattle.deblock.specs.Lanes.{lane, on_base, line_of, AreLow, AreLines, IsNear};

use spec_deblocking::Filter;
use std::simd::prelude::*;

/// The samples of four lines across an edge, by their places in them.
#[derive(Clone, Copy)]
pub struct Lines {
    /// The fourth samples before the edge.
    pub p3: u32x4,
    /// The third before it.
    pub p2: u32x4,
    /// The second before it.
    pub p1: u32x4,
    /// The samples right before the edge.
    pub p0: u32x4,
    /// The samples right behind the edge.
    pub q0: u32x4,
    /// The second behind it.
    pub q1: u32x4,
    /// The third behind it.
    pub q2: u32x4,
    /// The fourth samples behind the edge.
    pub q3: u32x4,
}

/// Values within a reach of samples.
#[inline(always)]
fn held(values: u32x4, samples: u32x4, reach: u32) -> u32x4
    requires samples { AreLow samples }
    requires reach { reach ≤ 65535 }
    ensures long { length result ≡ 4 }
    ensures value { (k : ℕ) → k < 4 → lane result k ≡ held (lane values k) (lane samples k) reach }
{
    values
        .simd_min(samples + u32x4::splat(reach))
        .simd_max(samples.saturating_sub(u32x4::splat(reach)))
}

/// p2 or q2 behind the strong filter.
#[inline(always)]
fn third(tc: u32, s3: u32x4, s2: u32x4, s1: u32x4, s0: u32x4, t0: u32x4) -> u32x4
    requires tc { tc ≤ 16320 }
    requires outer { AreLow s3 × AreLow s2 }
    requires inner { AreLow s1 × AreLow s0 × AreLow t0 }
    ensures long { length result ≡ 4 }
    ensures value { (k : ℕ) → k < 4 → lane result k
        ≡ held ((2 * lane s3 k + 3 * lane s2 k + lane s1 k + lane s0 k + lane t0 k + 4) / 8) (lane s2 k) (2 * tc) }
{
    let sum = s3 + s3 + s2 + s2 + s2 + s1 + s0 + t0 + u32x4::splat(4);
    held(sum >> u32x4::splat(3), s2, 2 * tc)
}

/// p1 or q1 behind the strong filter.
#[inline(always)]
fn second(tc: u32, s2: u32x4, s1: u32x4, s0: u32x4, t0: u32x4) -> u32x4
    requires tc { tc ≤ 16320 }
    requires outer { AreLow s2 × AreLow s1 }
    requires inner { AreLow s0 × AreLow t0 }
    ensures long { length result ≡ 4 }
    ensures value { (k : ℕ) → k < 4 → lane result k
        ≡ held ((lane s2 k + lane s1 k + lane s0 k + lane t0 k + 2) / 4) (lane s1 k) (2 * tc) }
{
    let sum = s2 + s1 + s0 + t0 + u32x4::splat(2);
    held(sum >> u32x4::splat(2), s1, 2 * tc)
}

/// p0 or q0 behind the strong filter.
#[inline(always)]
fn first(tc: u32, s2: u32x4, s1: u32x4, s0: u32x4, t0: u32x4, t1: u32x4) -> u32x4
    requires tc { tc ≤ 16320 }
    requires outer { AreLow s2 × AreLow s1 }
    requires inner { AreLow s0 × AreLow t0 × AreLow t1 }
    ensures long { length result ≡ 4 }
    ensures value { (k : ℕ) → k < 4 → lane result k
        ≡ held ((lane s2 k + 2 * lane s1 k + 2 * lane s0 k + 2 * lane t0 k + lane t1 k + 4) / 8) (lane s0 k) (2 * tc) }
{
    let sum = s2 + s1 + s1 + s0 + s0 + t0 + t0 + t1 + u32x4::splat(4);
    held(sum >> u32x4::splat(3), s0, 2 * tc)
}

/// The strong filter of luma.
#[inline(always)]
#[tactic(auto, unfolding(spec_deblocking::specs::Filters::strong))]
fn strong(tc: u32, l: &Lines) -> Lines
    requires tc { tc ≤ 16320 }
    requires lines { AreLines 16383 l.now }
    ensures value { (k : ℕ) → k < 4 → line_of result k ≡ strong tc (line_of l.now k) }
{
    Lines {
        p3: l.p3,
        p2: third(tc, l.p3, l.p2, l.p1, l.p0, l.q0),
        p1: second(tc, l.p2, l.p1, l.p0, l.q0),
        p0: first(tc, l.p2, l.p1, l.p0, l.q0, l.q1),
        q0: first(tc, l.q2, l.q1, l.q0, l.p0, l.p1),
        q1: second(tc, l.q2, l.q1, l.q0, l.p0),
        q2: third(tc, l.q3, l.q2, l.q1, l.q0, l.p0),
        q3: l.q3,
    }
}

/// delta of the normal filter, before it is clipped, on a base of 1048576.
#[inline(always)]
fn normal_change(p1: u32x4, p0: u32x4, q0: u32x4, q1: u32x4) -> u32x4
    requires before { AreLow p1 × AreLow p0 }
    requires behind { AreLow q0 × AreLow q1 }
    ensures long { length result ≡ 4 }
    ensures few { (k : ℕ) → k < 4 → lane result k ≤ 2097152 }
    ensures value { (k : ℕ) → k < 4 → on_base 1048576 result k
        ≡ int_shr (pos (9 * lane q0 k + 3 * lane p1 k + 8) -ℤ pos (9 * lane p0 k + 3 * lane q1 k)) 4 }
{
    let up = u32x4::splat(9) * q0 + u32x4::splat(3) * p1 + u32x4::splat(16777224);
    let down = u32x4::splat(9) * p0 + u32x4::splat(3) * q1;
    (up - down) >> u32x4::splat(4)
}

/// Changes on a base, within a reach.
#[inline(always)]
#[tactic(auto, unfolding(spec_deblocking::specs::Filters::within))]
fn within(reach: u32, base: u32, changes: u32x4) -> u32x4
    requires reach { reach ≤ 16320 }
    requires low { 65536 ≤ base }
    requires high { base ≤ 1048576 }
    ensures long { length result ≡ 4 }
    ensures near { IsNear base result }
    ensures value { (k : ℕ) → k < 4 → on_base base result k ≡ within reach (on_base base changes k) }
{
    changes
        .simd_min(u32x4::splat(base + reach))
        .simd_max(u32x4::splat(base - reach))
}

/// Samples after changes on a base.
#[inline(always)]
#[tactic(auto, unfolding(spec_deblocking::specs::Filters::moved))]
fn moved(greatest: u32, base: u32, samples: u32x4, changes: u32x4) -> u32x4
    requires samples { AreLow samples }
    requires high { base ≤ 1048576 }
    requires near { IsNear base changes }
    ensures long { length result ≡ 4 }
    ensures value { (k : ℕ) → k < 4
        → lane result k ≡ moved greatest (lane samples k) (on_base base changes k) }
{
    (samples + changes)
        .saturating_sub(u32x4::splat(base))
        .simd_min(u32x4::splat(greatest))
}

/// Changes in the other direction, on a base of 1048576.
#[inline(always)]
fn negated(changes: u32x4) -> u32x4
    requires near { IsNear 1048576 changes }
    ensures long { length result ≡ 4 }
    ensures near { IsNear 1048576 result }
    ensures value { (k : ℕ) → k < 4 → on_base 1048576 result k ≡ neg_ℤ (on_base 1048576 changes k) }
{
    u32x4::splat(2097152) - changes
}

/// Halves of how far samples are from what lies between two others, and of changes, on a base of 524288.
#[inline(always)]
fn half_steps(outer: u32x4, middle: u32x4, inner: u32x4, changes: u32x4) -> u32x4
    requires samples { AreLow outer × AreLow middle × AreLow inner }
    requires near { IsNear 1048576 changes }
    ensures long { length result ≡ 4 }
    ensures value { (k : ℕ) → k < 4 → on_base 524288 result k
        ≡ int_shr (pos ((lane outer k + lane inner k + 1) / 2) -ℤ pos (lane middle k) +ℤ on_base 1048576 changes k) 1 }
{
    let mean = (outer + inner + u32x4::splat(1)) >> u32x4::splat(1);
    (mean + changes - middle) >> u32x4::splat(1)
}

/// Numbers where the size of a change on a base of 1048576 is below a bound, others elsewhere.
#[inline(always)]
fn where_few(changes: u32x4, bound: u32, numbers: u32x4, others: u32x4) -> u32x4
    requires few { (k : ℕ) → k < 4 → lane changes k ≤ 2097152 }
    requires bound { bound ≤ 163200 }
    ensures long { length result ≡ 4 }
    ensures value { (k : ℕ) → k < 4 → lane result k
        ≡ cond (nat_lt (unsigned_abs (on_base 1048576 changes k)) bound) (lane numbers k) (lane others k) }
{
    changes
        .simd_max(u32x4::splat(2097152) - changes)
        .simd_lt(u32x4::splat(1048576 + bound))
        .select(numbers, others)
}

/// The samples beside those at the edge, changed where they are to be.
#[inline(always)]
#[tactic(auto, unfolding(spec_deblocking::specs::Filters::second_sample))]
fn second_samples(
    changes: bool,
    greatest: u32,
    tc: u32,
    outer: u32x4,
    middle: u32x4,
    inner: u32x4,
    delta: u32x4,
) -> u32x4
    requires tc { tc ≤ 16320 }
    requires samples { AreLow outer × AreLow middle × AreLow inner }
    requires near { IsNear 1048576 delta }
    ensures long { length result ≡ 4 }
    ensures value { (k : ℕ) → k < 4 → lane result k
        ≡ second_sample changes greatest tc (lane outer k) (lane middle k) (lane inner k) (on_base 1048576 delta k) }
{
    if changes {
        let steps = half_steps(outer, middle, inner, delta);
        moved(greatest, 524288, middle, within(tc / 2, 524288, steps))
    } else {
        middle
    }
}

/// The normal filter of luma.
#[inline(always)]
fn normal(p1: bool, q1: bool, greatest: u32, tc: u32, l: &Lines) -> Lines
    requires tc { tc ≤ 16320 }
    requires lines { AreLines 16383 l.now }
    ensures value { (k : ℕ) → k < 4 → line_of result k ≡ normal p1 q1 greatest tc (line_of l.now k) }
{
    let change = normal_change(l.p1, l.p0, l.q0, l.q1);
    let delta = within(tc, 1048576, change);
    let back = negated(delta);
    let before = second_samples(p1, greatest, tc, l.p2, l.p1, l.p0, delta);
    let behind = second_samples(q1, greatest, tc, l.q2, l.q1, l.q0, back);
    Lines {
        p1: where_few(change, 10 * tc, before, l.p1),
        p0: where_few(change, 10 * tc, moved(greatest, 1048576, l.p0, delta), l.p0),
        q0: where_few(change, 10 * tc, moved(greatest, 1048576, l.q0, back), l.q0),
        q1: where_few(change, 10 * tc, behind, l.q1),
        ..*l
    }
}

/// delta of the filter of chroma, before it is clipped, on a base of 1048576.
#[inline(always)]
fn chroma_change(p1: u32x4, p0: u32x4, q0: u32x4, q1: u32x4) -> u32x4
    requires before { AreLow p1 × AreLow p0 }
    requires behind { AreLow q0 × AreLow q1 }
    ensures long { length result ≡ 4 }
    ensures value { (k : ℕ) → k < 4 → on_base 1048576 result k
        ≡ int_shr (pos (4 * lane q0 k + lane p1 k + 4) -ℤ pos (4 * lane p0 k + lane q1 k)) 3 }
{
    let up = u32x4::splat(4) * q0 + p1 + u32x4::splat(8388612);
    let down = u32x4::splat(4) * p0 + q1;
    (up - down) >> u32x4::splat(3)
}

/// The filter of chroma.
#[inline(always)]
fn nearest(greatest: u32, tc: u32, l: &Lines) -> Lines
    requires tc { tc ≤ 16320 }
    requires lines { AreLines 16383 l.now }
    ensures value { (k : ℕ) → k < 4 → line_of result k ≡ nearest greatest tc (line_of l.now k) }
{
    let change = chroma_change(l.p1, l.p0, l.q0, l.q1);
    let delta = within(tc, 1048576, change);
    let back = negated(delta);
    Lines {
        p0: moved(greatest, 1048576, l.p0, delta),
        q0: moved(greatest, 1048576, l.q0, back),
        ..*l
    }
}

/// Four lines, filtered.
#[inline(always)]
#[tactic(auto, unfolding(spec_deblocking::specs::Filters::filtered))]
pub fn filtered_lines(filter: Filter, greatest: u32, tc: u32, l: &Lines) -> Lines
    requires greatest { greatest ≤ 16383 }
    requires tc { tc ≤ 16320 }
    requires lines { AreLines greatest l.now }
    ensures value { (k : ℕ) → k < 4 → line_of result k ≡ filtered filter greatest tc (line_of l.now k) }
    ensures small { AreLines greatest result }
{
    match filter {
        Filter::Normal { p1, q1 } => normal(p1, q1, greatest, tc, l),
        Filter::Strong => strong(tc, l),
        Filter::Nearest => nearest(greatest, tc, l),
        Filter::Off => *l,
    }
}
