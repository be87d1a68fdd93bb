//! The scaling of vectors by distances in order counts (8.5.3.2.7, 8.5.3.2.9).

ghost use Rattle.std.specs.Prelude.{◌≡◌, ◌≤◌, ◌/◌, ◌+◌, ◌≢◌, false, pos, negsuc, ◌+ℤ◌, ◌-ℤ◌, ◌*ℤ◌, ◌≤ℤ◌};
ghost use Rattle.spec_motion.specs.SpecArithmetic.{clip3};
ghost use Rattle.spec_motion.specs.SpecArithmetic.{rounded};
ghost use Rattle.spec_motion.specs.Scaling.{dist_scale_factor, distance, is_kept, scaled, scaled_component};
ghost use Rattle.spec_motion.specs.Scaling.{shortened, stretched, tx};

use ctu_records::Mv;

/// DiffPicOrderCnt.
pub(crate) fn difference(a: i32, b: i32) -> i64
    ensures { result ≡ a -ℤ b }
{
    i64::from(a) - i64::from(b)
}

/// A vector over one difference of order counts, brought to another one.
#[tactic(auto, unfolding(spec_motion::specs::Scaling::scaled))]
pub(crate) fn scaled(spanned: i64, wanted: i64, mv: Mv) -> Mv
    ensures { result ≡ scaled spanned wanted mv }
{
    if is_kept(spanned, wanted) {
        mv
    } else {
        stretched(factor_of(spanned, wanted), mv)
    }
}

/// Whether a vector stays as it is.
fn is_kept(spanned: i64, wanted: i64) -> bool
    ensures value { result ≡ is_kept spanned wanted }
    ensures other { result ≡ false → spanned ≢ pos 0 }
{
    spanned == wanted || spanned == 0
}

/// The factor from one difference of order counts to another one.
fn factor_of(spanned: i64, wanted: i64) -> i32
    requires { spanned ≢ pos 0 }
    ensures value { result ≡ dist_scale_factor (distance spanned) (distance wanted) }
    ensures low { negsuc 4095 ≤ℤ result }
    ensures high { result ≤ℤ pos 4095 }
{
    dist_scale_factor(distance(spanned), distance(wanted))
}

/// A vector, times a factor.
fn stretched(factor: i32, mv: Mv) -> Mv
    requires low { negsuc 4095 ≤ℤ factor }
    requires high { factor ≤ℤ pos 4095 }
    ensures { result ≡ stretched factor mv }
{
    Mv {
        x: scaled_component(factor, mv.x),
        y: scaled_component(factor, mv.y),
    }
}

/// td or tb of a difference of order counts.
fn distance(difference: i64) -> i32
    ensures value { result ≡ distance difference }
    ensures low { negsuc 127 ≤ℤ result }
    ensures high { result ≤ℤ pos 127 }
    ensures some { difference ≢ pos 0 → result ≢ pos 0 }
{
    difference.clamp(-128, 127) as i32
}

/// distScaleFactor.
#[tactic(auto, unfolding(spec_motion::specs::Scaling::dist_scale_factor))]
fn dist_scale_factor(td: i32, tb: i32) -> i32
    requires td_low { negsuc 127 ≤ℤ td }
    requires td_high { td ≤ℤ pos 127 }
    requires some { td ≢ pos 0 }
    requires tb_low { negsuc 127 ≤ℤ tb }
    requires tb_high { tb ≤ℤ pos 127 }
    ensures value { result ≡ dist_scale_factor td tb }
    ensures low { negsuc 4095 ≤ℤ result }
    ensures high { result ≤ℤ pos 4095 }
{
    held_factor(weighted(tb, tx(td)))
}

/// tx of a td.
#[tactic(auto, unfolding(spec_motion::specs::Scaling::tx))]
fn tx(td: i32) -> i32
    requires low { negsuc 127 ≤ℤ td }
    requires high { td ≤ℤ pos 127 }
    requires some { td ≢ pos 0 }
    ensures value { result ≡ tx td }
    ensures least { negsuc 16447 ≤ℤ result }
    ensures greatest { result ≤ℤ pos 16448 }
{
    let quotient = quotient(td.unsigned_abs()) as i32;
    if td < 0 { -quotient } else { quotient }
}

/// 16384 divided by a distance, rounded.
fn quotient(size: u32) -> u32
    requires some { 1 ≤ size }
    requires few { size ≤ 128 }
    ensures value { result ≡ (16384 + size / 2) / size }
    ensures greatest { result ≤ 16448 }
{
    (16384 + size / 2) / size
}

/// tb times tx.
fn weighted(tb: i32, tx: i32) -> i32
    requires tb_low { negsuc 127 ≤ℤ tb }
    requires tb_high { tb ≤ℤ pos 127 }
    requires tx_low { negsuc 16447 ≤ℤ tx }
    requires tx_high { tx ≤ℤ pos 16448 }
    ensures value { result ≡ tb *ℤ tx }
    ensures low { negsuc 2105343 ≤ℤ result }
    ensures high { result ≤ℤ pos 2105344 }
{
    tb * tx
}

/// A product of both in units of 64, rounded and held to 13 bits.
fn held_factor(product: i32) -> i32
    requires low { negsuc 2105343 ≤ℤ product }
    requires high { product ≤ℤ pos 2105344 }
    ensures value { result ≡ clip3 (negsuc 4095) (pos 4095) (rounded 6 product) }
    ensures least { negsuc 4095 ≤ℤ result }
    ensures greatest { result ≤ℤ pos 4095 }
{
    ((product + 32) >> 6).clamp(-4096, 4095)
}

/// A component of a vector, times a factor.
#[tactic(auto, unfolding(spec_motion::specs::Scaling::scaled_component))]
fn scaled_component(factor: i32, component: i16) -> i16
    requires low { negsuc 4095 ≤ℤ factor }
    requires high { factor ≤ℤ pos 4095 }
    ensures { result ≡ scaled_component factor component }
{
    held_component(shortened(lengthened(factor, i32::from(component))))
}

/// A factor times a component.
fn lengthened(factor: i32, component: i32) -> i32
    requires factor_low { negsuc 4095 ≤ℤ factor }
    requires factor_high { factor ≤ℤ pos 4095 }
    requires low { negsuc 32767 ≤ℤ component }
    requires high { component ≤ℤ pos 32767 }
    ensures value { result ≡ factor *ℤ component }
    ensures least { negsuc 134217727 ≤ℤ result }
    ensures greatest { result ≤ℤ pos 134217728 }
{
    factor * component
}

/// A product in units of 256, the size rounded.
fn shortened(product: i32) -> i32
    requires low { negsuc 134217727 ≤ℤ product }
    requires high { product ≤ℤ pos 134217728 }
    ensures { result ≡ shortened product }
{
    let size = (product.unsigned_abs() + 127) / 256;
    if product < 0 {
        -(size as i32)
    } else {
        size as i32
    }
}

/// A component held to 16 bits.
fn held_component(component: i32) -> i16
    ensures { result ≡ clip3 (negsuc 32767) (pos 32767) component }
{
    component.clamp(-32768, 32767) as i16
}
