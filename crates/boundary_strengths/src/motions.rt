//! The motion of places.

ghost use Rattle.std.specs.Prelude.{◌≡◌, ◌+◌, ◌<◌, ◌≤◌, ℕ, Option, None, true};
ghost use Rattle.spec_boundary_strengths.specs.PictureBuffer.{PlaceMotion};

use spec_boundary_strengths::PlaceMotion;

/// The motion of a coding tree unit and beside it.
pub trait PlaceMotions {
    /// By column and row of places, both counted from 1 at the unit's first place: column 0 stands left of the unit,
    /// row 0 above it. `None` where a place is predicted in intra mode.
    ghost motion_at: { Self → ℕ → ℕ → Option PlaceMotion };

    /// The motion of a place.
    fn motion(&self, column: usize, row: usize) -> Option<PlaceMotion>
        requires column { column ≤ 16 }
        requires row { row ≤ 16 }
        ensures { result ≡ motion_at self.now column row };

    /// Whether none of the unit's first places, so many across and down, has motion.
    fn is_intra(&self, side: usize) -> bool
        requires { side ≤ 16 }
        ensures still { result ≡ true → (x y : ℕ) → x < side → y < side → motion_at self.now (x + 1) (y + 1) ≡ None }
        ensures only { ((x y : ℕ) → x < side → y < side → motion_at self.now (x + 1) (y + 1) ≡ None)
            → result ≡ true };
}
