//! The thresholds of an edge (8.7.2.5.3, 8.7.2.5.5).

ghost use Rattle.std.specs.Prelude.{◌≡◌, ◌<◌, ◌≤◌, ◌+◌, ◌*◌, ◌-◌, ◌^◌, ℕ, ℤ, pos, negsuc, ◌+ℤ◌, ◌-ℤ◌, ◌*ℤ◌, ◌≤ℤ◌};
ghost use Rattle.spec_arithmetic.specs.Clipping.{clip3_from_zero};
ghost use Rattle.spec_deblocking.specs.Thresholds.{mean_qp, chroma_qp, edge_qp, beta_index, tc_index, beta};
ghost use Rattle.spec_deblocking.specs.Thresholds.{tc};
ghost use Rattle.std.specs.Int.{int_shr};
ghost use Rattle.deblock.specs.Samples.{IsDepth, IsFew};

use spec_deblocking::{BETA, Place, Plane, TC, chroma_qp_of_index};

/// Clip3 of a number, where the least is 0.
#[inline(always)]
pub fn clipped(greatest: u32, number: i32) -> u32
    requires { greatest ≤ 65535 }
    ensures value { result ≡ clip3_from_zero greatest number }
    ensures few { result ≤ greatest }
{
    number.clamp(0, greatest as i32) as u32
}

/// The sum of two numbers.
#[inline(always)]
fn sum(a: i32, b: i32) -> i32
    requires a { IsFew a }
    requires b { IsFew b }
    ensures { result ≡ a +ℤ b }
{
    a + b
}

/// A number of eight bits, with its range.
#[inline(always)]
fn widened(number: i8) -> i32
    ensures value { result ≡ number }
    ensures least { negsuc 127 ≤ℤ result }
    ensures greatest { result ≤ℤ pos 127 }
{
    i32::from(number)
}

/// Twice a number of eight bits.
#[inline(always)]
fn doubled(number: i8) -> i32
    ensures value { result ≡ pos 2 *ℤ number }
    ensures least { negsuc 255 ≤ℤ result }
    ensures greatest { result ≤ℤ pos 254 }
{
    2 * widened(number)
}

/// Half of a number.
#[inline(always)]
fn half(number: i32) -> i32
    requires least { negsuc 254 ≤ℤ number }
    requires greatest { number ≤ℤ pos 255 }
    ensures value { result ≡ int_shr number 1 }
    ensures least { negsuc 127 ≤ℤ result }
    ensures greatest { result ≤ℤ pos 127 }
{
    number >> 1
}

/// qPL.
#[tactic(auto, unfolding(spec_deblocking::specs::Thresholds::mean_qp))]
fn mean_qp(p: &Place, q: &Place) -> i32
    ensures value { result ≡ mean_qp p.now q.now }
    ensures least { negsuc 127 ≤ℤ result }
    ensures greatest { result ≤ℤ pos 127 }
{
    half(sum(sum(widened(p.qp_y), widened(q.qp_y)), 1))
}

/// QpC by qPi.
#[tactic(auto, unfolding(spec_deblocking::specs::Thresholds::chroma_qp))]
fn chroma_qp(index: i32) -> i32
    requires least { negsuc 255 ≤ℤ index }
    requires greatest { index ≤ℤ pos 255 }
    ensures value { result ≡ chroma_qp index }
    ensures least { negsuc 255 ≤ℤ result }
    ensures greatest { result ≤ℤ pos 255 }
{
    if index < 0 {
        index
    } else {
        chroma_qp_of_index(index as u32) as i32
    }
}

/// What Q of tC' begins with.
#[tactic(auto, unfolding(spec_deblocking::specs::Thresholds::edge_qp))]
fn edge_qp(plane: Plane, p: &Place, q: &Place) -> i32
    ensures value { result ≡ edge_qp plane p.now q.now }
    ensures least { negsuc 255 ≤ℤ result }
    ensures greatest { result ≤ℤ pos 255 }
{
    match plane {
        Plane::Luma => mean_qp(p, q),
        Plane::Chroma { qp_pic_offset } => chroma_qp(sum(mean_qp(p, q), widened(qp_pic_offset))),
    }
}

/// Q of beta'.
fn beta_index(p: &Place, q: &Place) -> u32
    ensures value { result ≡ beta_index p.now q.now }
    ensures few { result ≤ 51 }
{
    clipped(51, sum(mean_qp(p, q), doubled(q.slice_beta_offset_div2)))
}

/// What the strength adds to Q of tC'.
fn strength_offset(strength: u8) -> i32
    ensures value { result ≡ pos 2 *ℤ (pos strength -ℤ pos 1) }
    ensures least { negsuc 1 ≤ℤ result }
    ensures greatest { result ≤ℤ pos 508 }
{
    2 * i32::from(strength) - 2
}

/// Q of tC'.
fn tc_index(plane: Plane, p: &Place, q: &Place) -> u32
    ensures value { result ≡ tc_index plane p.now q.now }
    ensures few { result ≤ 53 }
{
    let qp = sum(edge_qp(plane, p, q), strength_offset(q.left_strength));
    clipped(53, sum(qp, doubled(q.slice_tc_offset_div2)))
}

/// How many times as great the samples of a bit depth are as those of eight bits.
#[inline(always)]
fn scale(depth: u32) -> u32
    requires { IsDepth depth }
    ensures value { result ≡ 2 ^ (depth - 8) }
    ensures few { result ≤ 64 }
{
    1 << (depth - 8)
}

/// The bound on how far the lines of an edge are from straight.
#[tactic(auto, unfolding(spec_deblocking::specs::Thresholds::beta))]
pub fn beta(depth: u32, p: &Place, q: &Place) -> u32
    requires { IsDepth depth }
    ensures value { result ≡ beta depth p.now q.now }
    ensures few { result ≤ 16320 }
{
    u32::from(BETA[beta_index(p, q) as usize]) * scale(depth)
}

/// The greatest change of a sample.
#[tactic(auto, unfolding(spec_deblocking::specs::Thresholds::tc))]
pub fn tc(plane: Plane, depth: u32, p: &Place, q: &Place) -> u32
    requires { IsDepth depth }
    ensures value { result ≡ tc plane depth p.now q.now }
    ensures few { result ≤ 16320 }
{
    u32::from(TC[tc_index(plane, p, q) as usize]) * scale(depth)
}
