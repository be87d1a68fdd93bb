//! The motion of a coding tree unit.

ghost use Rattle.std.specs.Prelude.{◌≡◌, ℕ, ◌+◌, ◌*◌, ◌<◌, ◌≤◌, ◌==◌, ◌&&◌, false, true, None, Some, Option};
ghost use Rattle.std.specs.Prelude.{if◌then◌else◌};
ghost use Rattle.ctu_motion.specs.Held.{held, held_beneath};
ghost use Rattle.spec_motion.specs.Derivation.{IsPlaced, motion_laid, motion_over};

use crate::fill::fill_block;
use motion_candidates::{MotionView, derive, part_block};
use spec_motion::{Collocated, Motion, PredictionUnit, Rectangle, SliceMotion};
use std::marker::Model;

/// The motion that is known while a unit is derived: its own, that beside it, and that of the collocated picture.
#[derive(Drop)]
pub struct UnitMotion {
    places: [Option<Motion>; 578],
    beneath: [Option<Collocated>; 20],
    /// Whether one motion was laid over all places of a unit of the greatest size.
    whole: bool,
}

impl Model for UnitMotion {
    ghost use Rattle.ctu_motion.specs.Held.{AreWhole, Cells};

    ghost Value = { Cells };

    ghost view = { λ m. record { places = m.places; beneath = m.beneath; whole = m.whole } };

    ghost invariant = { λ m. AreWhole m.whole m.places };
}

impl UnitMotion {
    /// No motion.
    #[tactic(auto, unfolding(crate::specs::Held::held, crate::specs::Held::held_beneath))]
    pub fn new() -> UnitMotion
        ensures places { (column row : ℕ) → held result column row ≡ None }
        ensures beneath { (column row : ℕ) → held_beneath result column row ≡ None }
        ensures whole { result.whole ≡ false }
    {
        UnitMotion {
            places: [None; 578],
            beneath: [None; 20],
            whole: false,
        }
    }

    /// A unit begins: nothing is known.
    #[tactic(auto, unfolding(crate::specs::Held::held, crate::specs::Held::held_beneath))]
    pub fn restart(&mut self)
        ensures places { (column row : ℕ) → held self.new column row ≡ None }
        ensures beneath { (column row : ℕ) → held_beneath self.new column row ≡ None }
        ensures whole { self.new.whole ≡ false }
    {
        self.places = [None; 578];
        self.beneath = [None; 20];
        self.whole = false;
    }

    /// What is known of a place.
    #[tactic(auto, unfolding(crate::specs::Held::held, crate::specs::Held::held_beneath))]
    pub fn put(&mut self, column: usize, row: usize, motion: Option<Motion>)
        requires column { column < 34 }
        requires row { row < 17 }
        ensures places { (i j : ℕ)
            → held self.new i j ≡ (if (i == column) && (j == row) then motion else held self.old i j) }
        ensures beneath { held_beneath self.new ≡ held_beneath self.old }
        ensures whole { self.new.whole ≡ false }
    {
        self.whole = false;
        self.places[34 * row + column] = motion;
    }

    /// What the collocated picture has at a block of 4x4 places.
    #[tactic(auto, unfolding(crate::specs::Held::held, crate::specs::Held::held_beneath))]
    pub fn put_beneath(&mut self, column: usize, row: usize, motion: Option<Collocated>)
        requires column { column < 5 }
        requires row { row < 4 }
        ensures places { held self.new ≡ held self.old }
        ensures beneath { (i j : ℕ)
            → held_beneath self.new i j ≡ (if (i == column) && (j == row) then motion else held_beneath self.old i j) }
        ensures whole { self.new.whole ≡ self.old.whole }
    {
        self.beneath[5 * row + column] = motion;
    }

    /// One motion over a block.
    #[tactic(auto, unfolding(crate::specs::Held::held, crate::specs::Held::held_beneath))]
    pub(crate) fn lay(&mut self, block: Rectangle, motion: Motion)
        requires x { block.x + block.width ≤ 16 }
        requires y { block.y + block.height ≤ 16 }
        ensures places { held self.new ≡ motion_over block motion (held self.old) }
        ensures beneath { held_beneath self.new ≡ held_beneath self.old }
        ensures whole { self.new.whole ≡ ((block.width == 16) && (block.height == 16)) }
    {
        fill_block(
            &mut self.places,
            usize::from(block.x) + 1,
            usize::from(block.y) + 1,
            usize::from(block.width),
            usize::from(block.height),
            Some(motion),
        );
        self.whole = block.width == 16 && block.height == 16;
    }

    /// Whether the last motion was laid over all places of a unit of the greatest size.
    #[tactic(auto, unfolding(crate::specs::Held::held))]
    pub fn is_whole(&self) -> bool
        ensures value { result ≡ self.now.whole }
        ensures same { result ≡ true → (i j : ℕ) → i < 16 → j < 16 → held self.now (i + 1) (j + 1) ≡ held self.now 1 1 }
    {
        self.whole
    }
}

impl UnitMotion {
    /// Derives a prediction unit, and lays its motion.
    #[tactic(auto, unfolding(spec_motion::specs::Derivation::motion_laid))]
    pub(crate) fn derive_unit(&mut self, slice: &SliceMotion, unit: &PredictionUnit)
        requires { IsPlaced unit.now }
        ensures places { held self.new ≡ motion_laid slice.now (held_beneath self.old) (held self.old) unit.now }
        ensures beneath { held_beneath self.new ≡ held_beneath self.old }
    {
        let motion = derive(self, slice, unit);
        self.lay(part_block(unit), motion);
    }
}

impl MotionView for UnitMotion {
    ghost motion_at = { λ m. held m };

    ghost collocated_at = { λ m. held_beneath m };

    #[tactic(auto, unfolding(crate::specs::Held::held))]
    fn motion(&self, column: usize, row: usize) -> Option<Motion> {
        if column < 34 && row < 17 {
            self.places[34 * row + column]
        } else {
            None
        }
    }

    #[tactic(auto, unfolding(crate::specs::Held::held_beneath))]
    fn collocated(&self, column: usize, row: usize) -> Option<Collocated> {
        if column < 5 && row < 4 {
            self.beneath[5 * row + column]
        } else {
            None
        }
    }
}
