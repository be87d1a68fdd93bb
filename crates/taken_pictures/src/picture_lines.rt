//! The lines of a row of a picture.

ghost use Rattle.std.specs.Prelude.{◌≡◌};
ghost use Rattle.hv_base.specs.declared.line.Phase.TheVariants.{B, S};
ghost use Rattle.board_core.specs.Places.{line_of};

use hv_base::{Line, Phase};

/// That of its coding tree units.
#[inline(always)]
pub(crate) fn built_line(picture: u32, row: u32) -> Line
    ensures { result ≡ line_of B picture row }
{
    Line {
        phase: Phase::B,
        picture,
        row,
    }
}

/// That of the row behind all loop filters.
#[inline(always)]
pub(crate) fn final_line(picture: u32, row: u32) -> Line
    ensures { result ≡ line_of S picture row }
{
    Line {
        phase: Phase::S,
        picture,
        row,
    }
}
