//! The motion beside a coding tree unit, in it so far, and in the collocated picture.

ghost use Rattle.std.specs.Prelude.{◌≡◌, ℕ, Option};
ghost use Rattle.spec_motion.specs.declared.collocation.Collocated.{Collocated};
ghost use Rattle.spec_motion.specs.declared.vectors.Motion.{Motion};

use spec_motion::{Collocated, Motion};

/// The motion that is known while a coding tree unit is derived. A place is a block of 4x4 luma samples.
pub trait MotionView {
    /// The motion of the place at a column and a row, both counted from 1 at the unit's first place, so that column 0
    /// stands left of the unit and row 0 above it. None where the place isn't available (6.4.2), or isn't decoded yet,
    /// or is predicted in intra mode.
    ghost motion_at: { Self → ℕ → ℕ → Option Motion };

    /// The motion of the collocated picture at the first place of the block of 4x4 places at a column and a row, both
    /// counted from 0 at the unit's first block. None where it is predicted in intra mode.
    ghost collocated_at: { Self → ℕ → ℕ → Option Collocated };

    /// The motion that is known of a place.
    fn motion(&self, column: usize, row: usize) -> Option<Motion>
        ensures { result ≡ motion_at self.now column row };

    /// The motion of the collocated picture at a block.
    fn collocated(&self, column: usize, row: usize) -> Option<Collocated>
        ensures { result ≡ collocated_at self.now column row };
}
