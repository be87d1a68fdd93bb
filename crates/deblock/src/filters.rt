//! The filters of one line (8.7.2.5.7, 8.7.2.5.8).

ghost use Rattle.std.specs.Prelude.{◌≡◌, ◌<◌, ◌≤◌, ◌+◌, ◌-◌, ◌*◌, ◌/◌, ℕ, ℤ, pos, negsuc, ◌+ℤ◌, ◌-ℤ◌, ◌≤ℤ◌, neg_ℤ, max};
ghost use Rattle.std.specs.Prelude.{min};
ghost use Rattle.std.specs.Int.{int_shr};
ghost use Rattle.spec_deblocking.specs.Filters.{held, strong, moved, within, normal_change, second_change};
ghost use Rattle.spec_deblocking.specs.Filters.{second_sample, normal, chroma_change, nearest, filtered};
ghost use Rattle.deblock.specs.Samples.{AreSmall, IsModest};

use crate::thresholds::clipped;
use spec_deblocking::{Filter, Line};

/// A value within a reach of a sample.
#[inline(always)]
#[tactic(auto, unfolding(spec_deblocking::specs::Filters::held))]
fn held(value: u32, sample: u32, reach: u32) -> u32
    requires sample { sample ≤ 16383 }
    requires reach { reach ≤ 65535 }
    ensures value { result ≡ held value sample reach }
    ensures few { (greatest : ℕ) → value ≤ greatest → sample ≤ greatest → result ≤ greatest }
{
    value.min(sample + reach).max(sample.saturating_sub(reach))
}

/// The strong filter of luma.
#[inline(always)]
#[tactic(auto, unfolding(spec_deblocking::specs::Filters::strong))]
fn strong(greatest: u32, tc: u32, line: &Line) -> Line
    requires greatest { greatest ≤ 16383 }
    requires tc { tc ≤ 16320 }
    requires line { AreSmall greatest line.now }
    ensures value { result ≡ strong tc line.now }
    ensures small { AreSmall greatest result }
{
    let Line {
        p3,
        p2,
        p1,
        p0,
        q0,
        q1,
        q2,
        q3,
    } = *line;
    Line {
        p3,
        p2: held((2 * p3 + 3 * p2 + p1 + p0 + q0 + 4) / 8, p2, 2 * tc),
        p1: held((p2 + p1 + p0 + q0 + 2) / 4, p1, 2 * tc),
        p0: held((p2 + 2 * p1 + 2 * p0 + 2 * q0 + q1 + 4) / 8, p0, 2 * tc),
        q0: held((p1 + 2 * p0 + 2 * q0 + 2 * q1 + q2 + 4) / 8, q0, 2 * tc),
        q1: held((p0 + q0 + q1 + q2 + 2) / 4, q1, 2 * tc),
        q2: held((p0 + q0 + q1 + 3 * q2 + 2 * q3 + 4) / 8, q2, 2 * tc),
        q3,
    }
}

/// A sample after a change.
#[inline(always)]
#[tactic(auto, unfolding(spec_deblocking::specs::Filters::moved))]
fn moved(greatest: u32, sample: u32, change: i32) -> u32
    requires greatest { greatest ≤ 16383 }
    requires sample { sample ≤ 16383 }
    requires change { IsModest change }
    ensures value { result ≡ moved greatest sample change }
    ensures few { result ≤ greatest }
{
    clipped(greatest, sample as i32 + change)
}

/// Clip3 of a change.
#[inline(always)]
#[tactic(auto, unfolding(spec_deblocking::specs::Filters::within))]
fn within(reach: u32, change: i32) -> i32
    requires reach { reach ≤ 16320 }
    ensures value { result ≡ within reach change }
    ensures modest { IsModest result }
{
    let most = reach as i32;
    change.clamp(-most, most)
}

/// A change in the other direction.
#[inline(always)]
fn negated(change: i32) -> i32
    requires { IsModest change }
    ensures value { result ≡ neg_ℤ change }
    ensures modest { IsModest result }
{
    -change
}

/// delta of the normal filter, before it is clipped.
#[inline(always)]
#[tactic(auto, unfolding(spec_deblocking::specs::Filters::normal_change))]
fn normal_change(line: &Line) -> i32
    requires { AreSmall 16383 line.now }
    ensures { result ≡ normal_change line.now }
{
    let Line { p1, p0, q0, q1, .. } = *line;
    ((9 * q0 + 3 * p1 + 8) as i32 - (9 * p0 + 3 * q1) as i32) >> 4
}

/// How far a sample is from what lies between two others.
#[inline(always)]
fn distance(outer: u32, middle: u32, inner: u32) -> i32
    requires { (outer ≤ 16383) × (middle ≤ 16383) × (inner ≤ 16383) }
    ensures value { result ≡ pos ((outer + inner + 1) / 2) -ℤ pos middle }
    ensures least { negsuc 16382 ≤ℤ result }
    ensures greatest { result ≤ℤ pos 16383 }
{
    ((outer + inner + 1) / 2) as i32 - middle as i32
}

/// Half of how far a sample is from what lies between two others, and of a change.
#[inline(always)]
fn half_step(outer: u32, middle: u32, inner: u32, delta: i32) -> i32
    requires samples { (outer ≤ 16383) × (middle ≤ 16383) × (inner ≤ 16383) }
    requires delta { IsModest delta }
    ensures { result ≡ int_shr (pos ((outer + inner + 1) / 2) -ℤ pos middle +ℤ delta) 1 }
{
    (distance(outer, middle, inner) + delta) >> 1
}

/// deltap or deltaq.
#[inline(always)]
#[tactic(auto, unfolding(spec_deblocking::specs::Filters::second_change))]
fn second_change(tc: u32, outer: u32, middle: u32, inner: u32, delta: i32) -> i32
    requires tc { tc ≤ 16320 }
    requires samples { (outer ≤ 16383) × (middle ≤ 16383) × (inner ≤ 16383) }
    requires delta { IsModest delta }
    ensures value { result ≡ second_change tc outer middle inner delta }
    ensures modest { IsModest result }
{
    within(tc / 2, half_step(outer, middle, inner, delta))
}

/// The sample beside the one at the edge, changed where it is to be.
#[inline(always)]
#[tactic(auto, unfolding(spec_deblocking::specs::Filters::second_sample))]
fn second_sample(
    changes: bool,
    greatest: u32,
    tc: u32,
    outer: u32,
    middle: u32,
    inner: u32,
    delta: i32,
) -> u32
    requires greatest { greatest ≤ 16383 }
    requires tc { tc ≤ 16320 }
    requires samples { (outer ≤ greatest) × (middle ≤ greatest) × (inner ≤ greatest) }
    requires delta { IsModest delta }
    ensures value { result ≡ second_sample changes greatest tc outer middle inner delta }
    ensures few { result ≤ greatest }
{
    if changes {
        moved(
            greatest,
            middle,
            second_change(tc, outer, middle, inner, delta),
        )
    } else {
        middle
    }
}

/// The normal filter of luma.
#[inline(always)]
#[tactic(auto, unfolding(spec_deblocking::specs::Filters::normal))]
fn normal(p1: bool, q1: bool, greatest: u32, tc: u32, line: &Line) -> Line
    requires greatest { greatest ≤ 16383 }
    requires tc { tc ≤ 16320 }
    requires line { AreSmall greatest line.now }
    ensures value { result ≡ normal p1 q1 greatest tc line.now }
    ensures small { AreSmall greatest result }
{
    let change = normal_change(line);
    if change.unsigned_abs() < 10 * tc {
        let delta = within(tc, change);
        let back = negated(delta);
        Line {
            p1: second_sample(p1, greatest, tc, line.p2, line.p1, line.p0, delta),
            p0: moved(greatest, line.p0, delta),
            q0: moved(greatest, line.q0, back),
            q1: second_sample(q1, greatest, tc, line.q2, line.q1, line.q0, back),
            ..*line
        }
    } else {
        *line
    }
}

/// delta of the filter of chroma, before it is clipped.
#[inline(always)]
#[tactic(auto, unfolding(spec_deblocking::specs::Filters::chroma_change))]
fn chroma_change(line: &Line) -> i32
    requires { AreSmall 16383 line.now }
    ensures { result ≡ chroma_change line.now }
{
    let Line { p1, p0, q0, q1, .. } = *line;
    ((4 * q0 + p1 + 4) as i32 - (4 * p0 + q1) as i32) >> 3
}

/// The filter of chroma.
#[inline(always)]
#[tactic(auto, unfolding(spec_deblocking::specs::Filters::nearest))]
fn nearest(greatest: u32, tc: u32, line: &Line) -> Line
    requires greatest { greatest ≤ 16383 }
    requires tc { tc ≤ 16320 }
    requires line { AreSmall greatest line.now }
    ensures value { result ≡ nearest greatest tc line.now }
    ensures small { AreSmall greatest result }
{
    let delta = within(tc, chroma_change(line));
    let back = negated(delta);
    Line {
        p0: moved(greatest, line.p0, delta),
        q0: moved(greatest, line.q0, back),
        ..*line
    }
}

/// A line, filtered.
#[inline(always)]
#[tactic(auto, unfolding(spec_deblocking::specs::Filters::filtered))]
pub fn filtered(filter: Filter, greatest: u32, tc: u32, line: &Line) -> Line
    requires greatest { greatest ≤ 16383 }
    requires tc { tc ≤ 16320 }
    requires line { AreSmall greatest line.now }
    ensures value { result ≡ filtered filter greatest tc line.now }
    ensures small { AreSmall greatest result }
{
    match filter {
        Filter::Off => *line,
        Filter::Normal { p1, q1 } => normal(p1, q1, greatest, tc, line),
        Filter::Strong => strong(greatest, tc, line),
        Filter::Nearest => nearest(greatest, tc, line),
    }
}
