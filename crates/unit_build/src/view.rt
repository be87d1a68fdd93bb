//! Where what a coding tree unit depends on is taken from, but for the pictures that it refers to.

ghost use Rattle.std.specs.Prelude.{◌≡◌, ℕ, ◌+◌, ◌-◌, ◌*◌, ◌<◌, ◌≤◌, Bool, length, slice_index_or};
ghost use Rattle.picture_motion.specs.PictureLayout.{CodingTreeUnit};
ghost use Rattle.unit_build.specs.Parts.{IsPart, IsRoom};

use crate::part::Part;
use picture_motion::{CodingTreeUnit, MotionBeneath, MotionBeside};

/// What stands beside a coding tree unit in its picture: the line above it, the column on its left, the motion and the
/// coded places there, and the motion of the collocated picture beneath it.
pub trait Beside: MotionBeside + MotionBeneath {
    /// The unit.
    ghost unit_of: { Self → CodingTreeUnit };
    /// The samples of the picture before the loop filters, by component, column and line, counted from 0, as far as
    /// they are built.
    ghost sample_at: { Self → ℕ → ℕ → ℕ → ℕ };
    /// Whether the luma transform block at a place of 4x4 luma samples has levels that aren't 0, by column and row of
    /// places. `false` outside the picture, and where no unit is read yet.
    ghost coded_at: { Self → ℕ → ℕ → Bool };

    /// The unit.
    fn unit(&self) -> CodingTreeUnit
        ensures { result ≡ unit_of self.now };

    /// The samples of the line above a part of the unit, from a column of the picture on as far as another.
    fn above(&self, part: Part, first: usize, end: usize) -> &[u16]
        requires part { IsPart (unit_of self.now).layout (unit_of self.now).address part }
        requires room { IsRoom part }
        requires lower { (1 ≤ part.y) × (part.y ≤ part.height) }
        requires near { (part.x ≤ first + 1) × (end ≤ part.x + 2 * part.side) }
        requires inside { (first ≤ end) × (end ≤ part.width) }
        ensures count { length result.now ≡ end - first }
        ensures samples { (k : ℕ) → k < end - first
            → slice_index_or result.now k 0 ≡ sample_at self.now part.c (first + k) (part.y - 1) };

    /// The sample of the column on the left of a part of the unit, in one of the part's lines.
    fn left(&self, part: Part, line: usize) -> u16
        requires part { IsPart (unit_of self.now).layout (unit_of self.now).address part }
        requires room { IsRoom part }
        requires right { 1 ≤ part.x }
        requires line { (line < part.side) × (part.y + line < part.height) }
        ensures { result ≡ sample_at self.now part.c (part.x - 1) (part.y + line) };

    /// Whether a place is coded.
    fn coded(&self, x: usize, y: usize) -> bool
        ensures { result ≡ coded_at self.now x y };
}
