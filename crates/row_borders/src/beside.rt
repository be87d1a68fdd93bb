//! What a row's border tells of what stands beside its unit.

ghost use Rattle.std.specs.Prelude.{◌≡◌};

use crate::border::RowBorder;
use picture_buffer::PlaceMotion;
use picture_layout::CodingTreeUnit;
use unit_build::{Beside, MotionBeneath, MotionBeside, Part};

impl MotionBeside for RowBorder {
    ghost use Rattle.row_borders.specs.Borders.{motion_at};

    ghost motion_at = { λ b. motion_at b };

    #[tactic(auto, unfolding(crate::specs::Borders::motion_at))]
    fn motion(&self, x: usize, y: usize) -> Option<PlaceMotion> {
        if 1 <= self.row && y == self.row - 1 {
            self.above.motion(x)
        } else if 1 <= self.column && x == self.column - 1 && self.row <= y {
            self.left.motion(y - self.row)
        } else {
            None
        }
    }
}

impl MotionBeneath for RowBorder {
    ghost use Rattle.row_borders.specs.Borders.{collocated_at};

    ghost collocated_at = { λ b. collocated_at b };

    #[tactic(auto, unfolding(crate::specs::Borders::collocated_at))]
    fn collocated(&self, x: usize, y: usize) -> Option<PlaceMotion> {
        if self.column <= x && self.row <= y {
            self.beneath.at((x - self.column) / 4, (y - self.row) / 4)
        } else {
            None
        }
    }
}

impl Beside for RowBorder {
    ghost use Rattle.row_borders.specs.Borders.{coded_at, sample_at};

    ghost unit_of = { λ b. b.unit };

    ghost sample_at = { λ b. sample_at b };

    ghost coded_at = { λ b. coded_at b };

    fn unit(&self) -> CodingTreeUnit {
        self.unit
    }

    fn above(&self, part: Part, first: usize, end: usize) -> &[u16] {
        self.above.part(part.c, first, end)
    }

    fn left(&self, part: Part, line: usize) -> u16 {
        self.left.sample(part.c, line)
    }

    #[tactic(auto, unfolding(crate::specs::Borders::coded_at))]
    fn coded(&self, x: usize, y: usize) -> bool {
        if 1 <= self.row && y == self.row - 1 {
            self.above.coded(x)
        } else if 1 <= self.column && x == self.column - 1 && self.row <= y {
            self.left.coded(y - self.row)
        } else {
            false
        }
    }
}
