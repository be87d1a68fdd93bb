//! The unit on the left of the next one.

ghost use Rattle.std.specs.Prelude.{◌≡◌, ℕ, ◌+◌, ◌-◌, ◌*◌, ◌<◌, ◌≤◌, ◌==◌, ◌&&◌, nat_lt, unwrap_or, if◌then◌else◌};
ghost use Rattle.unit_build.specs.CtuBuild.{held};
ghost use Rattle.row_borders.specs.Borders.{coded_left, column_left, motion_left, with_left};
ghost use Rattle.row_borders.specs.Building.{built_coded, built_motion, built_sample};
ghost use Rattle.row_borders.specs.Next.{HasColumn};
ghost use Rattle.row_borders.specs.Strips.{coded_along, motion_along, sample_along};
ghost use Rattle.spec_picture_build.specs.Border.{unit_side};
ghost use Rattle.spec_picture_trees.specs.Places.{unit_places};
ghost use Rattle.spec_slice_data.specs.Residual.{samples_of_place};

use crate::border::RowBorder;
use crate::strip::Strip;
use motion_candidates::MotionView;
use unit_build::{BuiltUnit, pointing_motion};

impl RowBorder {
    /// The unit that was built here is on the left of the next one: its rightmost column is laid there, of samples, of
    /// motion and of coded flags.
    pub fn keep_left(&mut self, built: &BuiltUnit)
        ensures samples { (c k : ℕ) → column_left self.new c k
            ≡ (if nat_lt c 3 && nat_lt k (unit_side self.old.unit.layout c)
            then built_sample built.now c (unit_side self.old.unit.layout c - 1) k
            else column_left self.old c k) }
        ensures motion { (k : ℕ) → motion_left self.new k
            ≡ (if nat_lt k (unit_places self.old.unit.layout)
            then built_motion built.now (unit_places self.old.unit.layout - 1) k
            else motion_left self.old k) }
        ensures coded { (k : ℕ) → coded_left self.new k
            ≡ (if nat_lt k (unit_places self.old.unit.layout)
            then built_coded built.now (unit_places self.old.unit.layout - 1) k
            else coded_left self.old k) }
        ensures column { HasColumn self.new.unit.layout self.new.left built.now }
        ensures same { self.new ≡ with_left self.old self.new.left }
    {
        let side = self.unit.layout.side();
        keep_column(&mut self.left, built, side);
    }
}

/// The last column of a unit of so many places on a side.
fn keep_column(left: &mut Strip, built: &BuiltUnit, side: usize)
    requires some { 1 ≤ side }
    requires few { side ≤ 16 }
    requires room { left.old.places ≡ 16 }
    ensures places { left.new.places ≡ left.old.places }
    ensures samples { (c k : ℕ) → sample_along left.new c k
        ≡ (if nat_lt c 3 && nat_lt k (samples_of_place c * side)
        then built_sample built.now c (samples_of_place c * side - 1) k
        else sample_along left.old c k) }
    ensures motion { (k : ℕ) → motion_along left.new k
        ≡ (if nat_lt k side then built_motion built.now (side - 1) k else motion_along left.old k) }
    ensures coded { (k : ℕ) → coded_along left.new k
        ≡ (if nat_lt k side then built_coded built.now (side - 1) k else coded_along left.old k) }
{
    keep_samples(left, built, 0, 4 * side);
    keep_samples(left, built, 1, 2 * side);
    keep_samples(left, built, 2, 2 * side);
    keep_places(left, built, side);
}

/// The samples of component `c` in the last column of a unit of so many columns and lines.
fn keep_samples(left: &mut Strip, built: &BuiltUnit, c: usize, side: usize)
    requires component { c < 3 }
    requires few { side ≤ 64 }
    requires room { side ≤ samples_of_place c * left.old.places }
    ensures samples { (i k : ℕ) → sample_along left.new i k
        ≡ (if i == c && nat_lt k side then unwrap_or (held built.now.samples c side (k + 1)) 0
        else sample_along left.old i k) }
    ensures places { left.new.places ≡ left.old.places }
    ensures motion { left.new.motion ≡ left.old.motion }
    ensures coded { left.new.coded ≡ left.old.coded }
{
    for k in 0..side {
        left.lay_sample(c, k, built.samples.line(c, k + 1)[side]);
    }
}

/// The motion and the coded flags in its last column of places.
fn keep_places(left: &mut Strip, built: &BuiltUnit, side: usize)
    requires some { 1 ≤ side }
    requires few { side ≤ 16 }
    requires room { side ≤ left.old.places }
    ensures motion { (k : ℕ) → motion_along left.new k
        ≡ (if nat_lt k side then built_motion built.now (side - 1) k else motion_along left.old k) }
    ensures coded { (k : ℕ) → coded_along left.new k
        ≡ (if nat_lt k side then built_coded built.now (side - 1) k else coded_along left.old k) }
    ensures places { left.new.places ≡ left.old.places }
    ensures samples { left.new.samples ≡ left.old.samples }
{
    let last = side - 1;
    for k in 0..side {
        let motion = pointing_motion(&built.slice, built.motion.motion(last + 1, k + 1));
        let coded = built.filters.places[16 * k + last].coded;
        left.lay_place(k, motion, coded);
    }
}
