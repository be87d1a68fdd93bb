//! The motion of a coding tree unit by what was read of it.

ghost use Rattle.std.specs.Prelude.{◌≡◌};
ghost use Rattle.std.specs.List.{All};
ghost use Rattle.ctu_motion.specs.Held.{held, held_beneath};
ghost use Rattle.spec_motion.specs.Units.{IsPlacedItem, item_derived, unit_derived};

use crate::unit_motion::UnitMotion;
use spec_motion::{Item, SliceMotion, is_placed};

/// Derives the prediction units of a coding tree unit in reading order, each over what those before it left. One that
/// doesn't lie in the unit is passed over.
#[tactic(auto, unfolding(spec_motion::specs::Units::unit_derived))]
pub fn derive_motion(items: &[Item], slice: &SliceMotion, motion: &mut UnitMotion)
    ensures places { All IsPlacedItem items.now
        → held motion.new ≡ unit_derived slice.now (held_beneath motion.old) items.now (held motion.old) }
    ensures beneath { held_beneath motion.new ≡ held_beneath motion.old }
{
    for k in 0..items.len() {
        derive_item(items[k], slice, motion);
    }
}

/// Derives an item.
fn derive_item(item: Item, slice: &SliceMotion, motion: &mut UnitMotion)
    ensures places { IsPlacedItem item
        → held motion.new ≡ item_derived slice.now (held_beneath motion.old) (held motion.old) item }
    ensures beneath { held_beneath motion.new ≡ held_beneath motion.old }
{
    match item {
        Item::Prediction(unit) => {
            if is_placed(&unit) {
                motion.derive_unit(slice, &unit);
            }
        }
        Item::Unit(_)
        | Item::Luma(_)
        | Item::Chroma(_)
        | Item::Pcm(_)
        | Item::Sample(_)
        | Item::Transform(_)
        | Item::Delta(_)
        | Item::Block(_)
        | Item::Level(_, _) => {}
    }
}
