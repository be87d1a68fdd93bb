//! A sample of one or two predictions (8.5.3.3.4).

ghost use Rattle.std.specs.Prelude.{◌≡◌, ◌≤◌, ◌+◌, ◌-◌, ◌*◌, ◌^◌, ℤ, pos, negsuc, ◌+ℤ◌, ◌-ℤ◌, ◌*ℤ◌, ◌≤ℤ◌};
ghost use Rattle.std.specs.Int.{int_shr};
ghost use Rattle.spec_arithmetic.specs.Clipping.{clip1};
ghost use Rattle.spec_inter_prediction.specs.Taps.{IsDepth};
ghost use Rattle.spec_inter_prediction.specs.Weighting.{rounded_if_shifted, scaled_offset, default_one, default_two};
ghost use Rattle.spec_inter_prediction.specs.Weighting.{explicit_one, explicit_two, IsWeight};
ghost use Rattle.inter_pred.specs.Passes.{value_of, IsSmall};

use spec_inter_prediction::Weight;

/// 2^`shift`.
#[inline(always)]
fn power(shift: u32) -> i32
    requires { shift ≤ 14 }
    ensures value { result ≡ pos (2 ^ shift) }
    ensures low { pos 1 ≤ℤ result }
    ensures high { result ≤ℤ pos 16384 }
{
    1 << shift
}

/// The greatest sample.
#[inline(always)]
fn greatest(depth: u32) -> i32
    requires { IsDepth depth }
    ensures value { result ≡ pos (2 ^ depth - 1) }
    ensures low { pos 0 ≤ℤ result }
    ensures high { result ≤ℤ pos 16383 }
{
    power(depth) - 1
}

/// Clip1.
#[inline(always)]
fn clip1(v: i32, depth: u32) -> u16
    requires { IsDepth depth }
    ensures { result ≡ clip1 depth v }
{
    v.clamp(0, greatest(depth)) as u16
}

/// A number in units of 2^`shift`, rounded down.
#[inline(always)]
fn shifted(v: i32, shift: u32) -> i32
    requires low { negsuc 536870911 ≤ℤ v }
    requires high { v ≤ℤ pos 536870911 }
    requires shift { shift ≤ 14 }
    ensures value { result ≡ int_shr v shift }
    ensures least { negsuc 536870911 ≤ℤ result }
    ensures greatest { result ≤ℤ pos 536870911 }
{
    v >> shift
}

/// A number in units of 2^`shift`, to the nearest.
#[inline(always)]
#[tactic(auto, unfolding(spec_inter_prediction::specs::Weighting::rounded_if_shifted))]
fn rounded(v: i32, shift: u32) -> i32
    requires low { negsuc 134217727 ≤ℤ v }
    requires high { v ≤ℤ pos 134217727 }
    requires shift { shift ≤ 14 }
    ensures value { result ≡ rounded_if_shifted shift v }
    ensures least { negsuc 536870911 ≤ℤ result }
    ensures greatest { result ≤ℤ pos 536870911 }
{
    if shift == 0 {
        v
    } else {
        shifted(v + power(shift - 1), shift)
    }
}

/// A prediction times a weight.
#[inline(always)]
fn product(p: i32, weight: i32) -> i32
    requires p { IsSmall p }
    requires weight { (negsuc 127 ≤ℤ weight) × (weight ≤ℤ pos 255) }
    ensures value { result ≡ p *ℤ weight }
    ensures low { negsuc 66846464 ≤ℤ result }
    ensures high { result ≤ℤ pos 66846465 }
{
    p * weight
}

/// What an offset of 1 on the scale of samples of 8 bits is on that of `depth` bits.
#[inline(always)]
fn step(depth: u32) -> i32
    requires { IsDepth depth }
    ensures value { result ≡ pos (2 ^ (depth - 8)) }
    ensures low { pos 1 ≤ℤ result }
    ensures high { result ≤ℤ pos 64 }
{
    1 << (depth - 8)
}

/// An offset times a step.
#[inline(always)]
fn stepped(offset: i32, step: i32) -> i32
    requires offset { (negsuc 127 ≤ℤ offset) × (offset ≤ℤ pos 127) }
    requires step { (pos 1 ≤ℤ step) × (step ≤ℤ pos 64) }
    ensures value { result ≡ offset *ℤ step }
    ensures low { negsuc 8191 ≤ℤ result }
    ensures high { result ≤ℤ pos 8192 }
{
    offset * step
}

/// An offset on the scale of samples of `depth` bits.
#[inline(always)]
fn offset(depth: u32, offset: i8) -> i32
    requires { IsDepth depth }
    ensures value { result ≡ scaled_offset depth offset }
    ensures low { negsuc 8191 ≤ℤ result }
    ensures high { result ≤ℤ pos 8192 }
{
    stepped(i32::from(offset), step(depth))
}

/// Two offsets and 1.
#[inline(always)]
fn offsets(first: i32, second: i32) -> i32
    requires first { (negsuc 8191 ≤ℤ first) × (first ≤ℤ pos 8192) }
    requires second { (negsuc 8191 ≤ℤ second) × (second ≤ℤ pos 8192) }
    ensures value { result ≡ first +ℤ second +ℤ pos 1 }
    ensures low { negsuc 16383 ≤ℤ result }
    ensures high { result ≤ℤ pos 16385 }
{
    first + second + 1
}

/// Offsets on the scale of weighted predictions.
#[inline(always)]
fn raised(offsets: i32, power: i32) -> i32
    requires offsets { (negsuc 16383 ≤ℤ offsets) × (offsets ≤ℤ pos 16385) }
    requires power { (pos 1 ≤ℤ power) × (power ≤ℤ pos 16384) }
    ensures value { result ≡ offsets *ℤ power }
    ensures low { negsuc 268451839 ≤ℤ result }
    ensures high { result ≤ℤ pos 268451840 }
{
    offsets * power
}

/// Two predictions.
#[inline(always)]
fn both(p: i32, q: i32) -> i32
    requires p { IsSmall p }
    requires q { IsSmall q }
    ensures value { result ≡ p +ℤ q }
    ensures low { negsuc 524285 ≤ℤ result }
    ensures high { result ≤ℤ pos 524286 }
{
    p + q
}

/// A weighted prediction and its offset.
#[inline(always)]
fn moved(v: i32, offset: i32) -> i32
    requires v { (negsuc 536870911 ≤ℤ v) × (v ≤ℤ pos 536870911) }
    requires offset { (negsuc 8191 ≤ℤ offset) × (offset ≤ℤ pos 8192) }
    ensures { result ≡ v +ℤ offset }
{
    v + offset
}

/// Two weighted predictions and their offsets.
#[inline(always)]
fn total(first: i32, second: i32, offsets: i32) -> i32
    requires first { (negsuc 66846464 ≤ℤ first) × (first ≤ℤ pos 66846465) }
    requires second { (negsuc 66846464 ≤ℤ second) × (second ≤ℤ pos 66846465) }
    requires offsets { (negsuc 268451839 ≤ℤ offsets) × (offsets ≤ℤ pos 268451840) }
    ensures value { result ≡ first +ℤ second +ℤ offsets }
    ensures low { negsuc 536870911 ≤ℤ result }
    ensures high { result ≤ℤ pos 536870911 }
{
    first + second + offsets
}

/// A sample of one prediction by default weights.
#[inline(always)]
#[tactic(auto, unfolding(spec_inter_prediction::specs::Weighting::default_one))]
pub fn default_one(depth: u32, p: i32) -> u16
    requires depth { IsDepth depth }
    requires p { IsSmall p }
    ensures { result ≡ default_one depth p }
{
    clip1(rounded(p, 14 - depth), depth)
}

/// A sample of two predictions by default weights.
#[inline(always)]
#[tactic(auto, unfolding(spec_inter_prediction::specs::Weighting::default_two))]
pub fn default_two(depth: u32, p: i32, q: i32) -> u16
    requires depth { IsDepth depth }
    requires p { IsSmall p }
    requires q { IsSmall q }
    ensures { result ≡ default_two depth p q }
{
    clip1(rounded(both(p, q), 15 - depth), depth)
}

/// A sample of one prediction by an explicit weight.
#[inline(always)]
#[tactic(auto, unfolding(spec_inter_prediction::specs::Weighting::explicit_one))]
pub fn explicit_one(depth: u32, log2_wd: u32, w: Weight, p: i32) -> u16
    requires depth { IsDepth depth }
    requires log2_wd { log2_wd ≤ 13 }
    requires w { IsWeight w }
    requires p { IsSmall p }
    ensures { result ≡ explicit_one depth log2_wd w p }
{
    let weighted = product(p, i32::from(w.weight));
    clip1(
        moved(rounded(weighted, log2_wd), offset(depth, w.offset)),
        depth,
    )
}

/// The offsets of two predictions and the rounding, on the scale of weighted predictions.
#[inline(always)]
fn bias(depth: u32, log2_wd: u32, w: Weight, v: Weight) -> i32
    requires depth { IsDepth depth }
    requires log2_wd { log2_wd ≤ 13 }
    ensures value { result
        ≡ (scaled_offset depth w.offset +ℤ scaled_offset depth v.offset +ℤ pos 1) *ℤ pos (2 ^ log2_wd) }
    ensures low { negsuc 268451839 ≤ℤ result }
    ensures high { result ≤ℤ pos 268451840 }
{
    let sum = offsets(offset(depth, w.offset), offset(depth, v.offset));
    raised(sum, power(log2_wd))
}

/// A sample of two predictions by explicit weights.
#[inline(always)]
#[tactic(auto, unfolding(spec_inter_prediction::specs::Weighting::explicit_two))]
pub fn explicit_two(depth: u32, log2_wd: u32, w: Weight, v: Weight, p: i32, q: i32) -> u16
    requires depth { IsDepth depth }
    requires log2_wd { log2_wd ≤ 13 }
    requires w { IsWeight w }
    requires v { IsWeight v }
    requires p { IsSmall p }
    requires q { IsSmall q }
    ensures { result ≡ explicit_two depth log2_wd w v p q }
{
    let first = product(p, i32::from(w.weight));
    let second = product(q, i32::from(v.weight));
    let sum = total(first, second, bias(depth, log2_wd, w, v));
    clip1(shifted(sum, log2_wd + 1), depth)
}

/// A prediction from what is held of it, 16,896 above.
#[inline(always)]
pub fn value_of(held: u16) -> i32
    ensures value { result ≡ value_of held }
    ensures small { IsSmall result }
{
    i32::from(held) - 16896
}

/// A sample of 8 bits of one prediction by default weights, in 16 bits.
#[inline(always)]
pub fn byte_of_one(p: u16) -> u16
    ensures { result ≡ default_one 8 (value_of p) }
{
    (p.saturating_sub(16864) / 64).min(255)
}

/// A sample of 8 bits of two predictions by default weights, in 16 bits.
#[inline(always)]
pub fn byte_of_two(p: u16, q: u16) -> u16
    ensures { result ≡ default_two 8 (value_of p) (value_of q) }
{
    let half = p / 2 + q / 2 + (p % 2 + q % 2) / 2;
    (half.saturating_sub(16864) / 64).min(255)
}
