//! The levels of a coded block.

ghost use Rattle.ctu_build.specs.Scaled.{scaled_laid};
ghost use Rattle.std.specs.Prelude.{◌≡◌, ℕ, ◌+◌, ◌-◌, ◌≤◌, List, ◌∷◌, true, false, length, pos, replicate, set};
ghost use Rattle.std.specs.Prelude.{slice_index};
ghost use Rattle.std.specs.List.{All};
ghost use Rattle.ctu_records.specs.declared.item.Item.{Item};
ghost use Rattle.spec_reconstruction.specs.Residuals.{levels_behind, levels_laid};
ghost use Rattle.spec_transforms.specs.Scaling.{Is16, quantizer, scaled};

use ctu_records::Item;
use residual_transform::{Scaling, scale_level};

/// The levels of a block in rows, by the items behind it.
#[tactic(auto, using(crate::proofs::LevelItems::zeros_small))]
pub(crate) fn read_levels(items: &[Item], levels: &mut [i32])
    ensures value { levels.new ≡ levels_behind (length levels.old) items.now }
    ensures small { All Is16 levels.new }
{
    clear_levels(levels);
    lay_levels(items, levels);
}

/// No level but 0.
fn clear_levels(levels: &mut [i32])
    ensures { levels.new ≡ replicate (length levels.old) (pos 0) }
{
    for k in 0..levels.len() {
        levels[k] = 0;
    }
}

/// The levels of the next items over what was there.
fn lay_levels(items: &[Item], levels: &mut [i32])
    requires { All Is16 levels.old }
    ensures value { levels.new ≡ levels_laid levels.old items.now }
    ensures small { All Is16 levels.new }
{
    for k in 0..items.len() {
        if !lay_item(levels, items[k]) {
            return;
        }
    }
}

/// Lays an item that is a level. Says whether it is one.
#[tactic(auto, unfolding(spec_reconstruction::specs::Residuals::levels_laid))]
fn lay_item(levels: &mut [i32], item: Item) -> bool
    requires { All Is16 levels.old }
    ensures more { result ≡ true
        → (items : List Item) → levels_laid levels.old (item ∷ items) ≡ levels_laid levels.new items }
    ensures none { result ≡ false → (items : List Item) → levels_laid levels.old (item ∷ items) ≡ levels.new }
    ensures small { All Is16 levels.new }
{
    match item {
        Item::Level(place, value) => {
            lay_level(levels, place, value);
            true
        }
        _ => false,
    }
}

/// A level at its place.
fn lay_level(levels: &mut [i32], place: u16, value: i16)
    requires { All Is16 levels.old }
    ensures value { levels.new ≡ set levels.old place value }
    ensures small { All Is16 levels.new }
{
    if usize::from(place) < levels.len() {
        levels[usize::from(place)] = i32::from(value);
    }
}

/// The scaled coefficients of the levels of a block, by the items behind it.
#[tactic(auto, using(crate::proofs::LevelItems::zeros_small))]
pub(crate) fn read_scaled(items: &[Item], scaling: Scaling, factors: &[u8], out: &mut [i32])
    requires quantizer { scaling.quantizer ≤ 1179648 }
    requires some_shift { 1 ≤ scaling.shift }
    requires shift { scaling.shift ≤ 14 }
    requires factors { length factors.now ≡ length out.old }
    ensures value { (depth log2 qp : ℕ) → scaling.quantizer ≡ quantizer qp → scaling.shift ≡ depth + log2 - 5
        → out.new
        ≡ scaled_laid (λ place level. scaled depth log2 qp (slice_index factors.now place) level)
        (replicate (length out.old) (pos 0)) items.now }
    ensures small { All Is16 out.new }
    ensures count { length out.new ≡ length out.old }
{
    clear_levels(out);
    lay_scaled(items, scaling, factors, out);
}

/// The scaled coefficients of the levels of the next items over what was there.
fn lay_scaled(items: &[Item], scaling: Scaling, factors: &[u8], out: &mut [i32])
    requires quantizer { scaling.quantizer ≤ 1179648 }
    requires some_shift { 1 ≤ scaling.shift }
    requires shift { scaling.shift ≤ 14 }
    requires factors { length factors.now ≡ length out.old }
    requires small { All Is16 out.old }
    ensures value { (depth log2 qp : ℕ) → scaling.quantizer ≡ quantizer qp → scaling.shift ≡ depth + log2 - 5
        → out.new
        ≡ scaled_laid (λ place level. scaled depth log2 qp (slice_index factors.now place) level) out.old items.now }
    ensures small { All Is16 out.new }
    ensures count { length out.new ≡ length out.old }
{
    for k in 0..items.len() {
        if !lay_scaled_item(out, items[k], scaling, factors) {
            return;
        }
    }
}

/// Lays the scaled coefficient of an item that is a level. Says whether it is one.
#[tactic(auto, unfolding(crate::specs::Scaled::scaled_laid))]
fn lay_scaled_item(out: &mut [i32], item: Item, scaling: Scaling, factors: &[u8]) -> bool
    requires quantizer { scaling.quantizer ≤ 1179648 }
    requires some_shift { 1 ≤ scaling.shift }
    requires shift { scaling.shift ≤ 14 }
    requires factors { length factors.now ≡ length out.old }
    requires small { All Is16 out.old }
    ensures more { (depth log2 qp : ℕ) → scaling.quantizer ≡ quantizer qp → scaling.shift ≡ depth + log2 - 5
        → result ≡ true → (items : List Item)
        → scaled_laid (λ place level. scaled depth log2 qp (slice_index factors.now place) level) out.old
        (item ∷ items)
        ≡ scaled_laid (λ place level. scaled depth log2 qp (slice_index factors.now place) level) out.new items }
    ensures none { (depth log2 qp : ℕ) → result ≡ false → (items : List Item)
        → scaled_laid (λ place level. scaled depth log2 qp (slice_index factors.now place) level) out.old
        (item ∷ items)
        ≡ out.new }
    ensures small { All Is16 out.new }
    ensures count { length out.new ≡ length out.old }
{
    match item {
        Item::Level(place, value) => {
            lay_coefficient(out, place, value, scaling, factors);
            true
        }
        _ => false,
    }
}

/// The scaled coefficient of a level at its place.
#[inline(always)]
fn lay_coefficient(out: &mut [i32], place: u16, value: i16, scaling: Scaling, factors: &[u8])
    requires quantizer { scaling.quantizer ≤ 1179648 }
    requires some_shift { 1 ≤ scaling.shift }
    requires shift { scaling.shift ≤ 14 }
    requires factors { length factors.now ≡ length out.old }
    requires small { All Is16 out.old }
    ensures value { (depth log2 qp : ℕ) → scaling.quantizer ≡ quantizer qp → scaling.shift ≡ depth + log2 - 5
        → out.new ≡ set out.old place (scaled depth log2 qp (slice_index factors.now place) value) }
    ensures small { All Is16 out.new }
    ensures count { length out.new ≡ length out.old }
{
    let place = usize::from(place);
    if place < out.len() {
        out[place] = scale_level(i32::from(value), factors[place], scaling);
    }
}
