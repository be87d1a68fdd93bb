//! The scaling process for transform coefficients (8.6.3).

ghost use Rattle.std.specs.Prelude.{◌≡◌, ℕ, ◌+◌, ◌-◌, ◌≤◌, pos, negsuc, ◌*ℤ◌, ◌≤ℤ◌};
ghost use Rattle.spec_arithmetic.specs.Rounding.{rounded};
ghost use Rattle.spec_transforms.specs.Scaling.{Is16, IsDepth, IsParameter, IsSize, clip16, quantizer, scaled};
ghost use Rattle.residual_transform.specs.Sums.{scaled_by};

use spec_transforms::LEVEL_SCALE;

/// What the levels of a block are scaled by besides their scaling factors.
#[derive(Clone, Copy)]
pub struct Scaling {
    /// levelScale[qP % 6] << (qP / 6).
    pub quantizer: u32,
    /// bdShift: how many bits of a product are shifted out.
    pub shift: u32,
}

/// What the levels of a block of 2^`log2` columns and rows are scaled by. `qp` is qP of 8.6.2, which has QpBdOffset in
/// it and so is never below 0; `depth` is the bit depth of the component.
#[inline(always)]
pub fn scaling_of(log2: u32, qp: u32, depth: u32) -> Scaling
    requires depth { IsDepth depth }
    requires log2 { IsSize log2 }
    requires qp { IsParameter depth qp }
    ensures quantizer { result.quantizer ≡ quantizer qp }
    ensures small { result.quantizer ≤ 1179648 }
    ensures shift { result.shift ≡ depth + log2 - 5 }
    ensures some_shift { 1 ≤ result.shift }
    ensures few { result.shift ≤ 14 }
{
    Scaling {
        quantizer: quantizer(qp),
        shift: depth + log2 - 5,
    }
}

/// The scaled coefficient of a level under a scaling factor m, which is 16 where there are no scaling lists.
#[inline(always)]
#[tactic(auto, unfolding(spec_transforms::specs::Scaling::scaled))]
pub fn scale_level(level: i32, factor: u8, scaling: Scaling) -> i32
    requires level { Is16 level }
    requires quantizer { scaling.quantizer ≤ 1179648 }
    requires some_shift { 1 ≤ scaling.shift }
    requires shift { scaling.shift ≤ 14 }
    ensures value { (depth log2 qp : ℕ) → scaling.quantizer ≡ quantizer qp → scaling.shift ≡ depth + log2 - 5
        → result ≡ scaled depth log2 qp factor level }
    ensures small { Is16 result }
{
    scaled(level, factor, scaling.quantizer, scaling.shift)
}

/// levelScale[qP % 6] << (qP / 6).
#[tactic(auto, unfolding(spec_transforms::specs::Scaling::quantizer))]
fn quantizer(qp: u32) -> u32
    requires { qp ≤ 87 }
    ensures value { result ≡ quantizer qp }
    ensures small { result ≤ 1179648 }
{
    u32::from(LEVEL_SCALE[(qp % 6) as usize]) << (qp / 6)
}

/// A level under a scaling factor, rounded and held to 16 bits.
fn scaled(level: i32, factor: u8, quantizer: u32, shift: u32) -> i32
    requires level { Is16 level }
    requires quantizer { quantizer ≤ 1179648 }
    requires some_shift { 1 ≤ shift }
    requires shift { shift ≤ 14 }
    ensures value { result ≡ scaled_by quantizer shift factor level }
    ensures small { Is16 result }
{
    held(rounded(product(level, u32::from(factor) * quantizer), shift))
}

/// A level times its whole factor.
fn product(level: i32, factor: u32) -> i64
    requires level { Is16 level }
    requires factor { factor ≤ 300810240 }
    ensures value { result ≡ level *ℤ pos factor }
    ensures low { negsuc 9856949944319 ≤ℤ result }
    ensures high { result ≤ℤ pos 9856949944320 }
{
    i64::from(level) * i64::from(factor)
}

/// A product in units of 2^-`shift`, to the nearest whole number.
fn rounded(product: i64, shift: u32) -> i64
    requires low { negsuc 9856949944319 ≤ℤ product }
    requires high { product ≤ℤ pos 9856949944320 }
    requires some_shift { 1 ≤ shift }
    requires shift { shift ≤ 14 }
    ensures { result ≡ rounded shift product }
{
    (product + (1 << (shift - 1))) >> shift
}

/// A number held to 16 bits.
fn held(value: i64) -> i32
    ensures value { result ≡ clip16 value }
    ensures small { Is16 result }
{
    value.clamp(-32768, 32767) as i32
}
