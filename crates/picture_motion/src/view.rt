//! Where the motion that a coding tree unit depends on is taken from.

ghost use Rattle.std.specs.Prelude.{◌≡◌, ℕ, Option};
ghost use Rattle.picture_buffer.specs.declared.place_motion.PlaceMotion.{PlaceMotion};
ghost use Rattle.picture_buffer.specs.Motion.{motions_of};

use picture_buffer::{MotionField, PlaceMotion};

/// The motion of a unit's own picture, of which what stands beside the unit is asked.
pub trait MotionBeside {
    /// By column and row of places of 4x4 luma samples, both counted from 0. `None` outside the picture, where nothing
    /// is derived yet, and where a place is predicted in intra mode.
    ghost motion_at: { Self → ℕ → ℕ → Option PlaceMotion };

    /// The motion of a place.
    fn motion(&self, x: usize, y: usize) -> Option<PlaceMotion>
        ensures { result ≡ motion_at self.now x y };
}

/// The motion of the collocated picture of a unit's slice, of which what lies beneath the unit is asked.
pub trait MotionBeneath {
    /// By column and row of places, as that of the unit's own picture. `None` where there is no collocated picture.
    ghost collocated_at: { Self → ℕ → ℕ → Option PlaceMotion };

    /// The motion of a place.
    fn collocated(&self, x: usize, y: usize) -> Option<PlaceMotion>
        ensures { result ≡ collocated_at self.now x y };
}

impl MotionBeside for MotionField {
    ghost motion_at = { λ f. motions_of f };

    fn motion(&self, x: usize, y: usize) -> Option<PlaceMotion> {
        self.at(x, y)
    }
}

impl MotionBeneath for MotionField {
    ghost collocated_at = { λ f. motions_of f };

    fn collocated(&self, x: usize, y: usize) -> Option<PlaceMotion> {
        self.at(x, y)
    }
}
