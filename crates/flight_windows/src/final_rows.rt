//! Final rows on a board.

ghost use Rattle.std.specs.Prelude.{◌≡◌, ℕ, true};
ghost use Rattle.hv_base.specs.declared.line.Phase.TheVariants.{S};
ghost use Rattle.board_core.specs.Places.{line_of};
ghost use Rattle.sample_words.specs.Words.{IsLine};
ghost use Rattle.flight_windows.specs.Lines.{IsFinalRow, final_unit};
ghost use Rattle.flight_windows.specs.Seen.{is_seen};

use crate::seen_rows::SeenRows;
use hv_base::{Line, Phase};
use line_words::UnitPlace;
use progress_words::Board;
use sample_lines::FlightFacts;
use sample_words::Layout;

/// A row of coding tree blocks of a picture of the flight in its last phase.
#[derive(Clone, Copy)]
pub(crate) struct FinalRow {
    /// The picture, by its place in the flight.
    pub(crate) picture: u32,
    pub(crate) row: u32,
    /// Where it stands on the board, if it is seen.
    pub(crate) at: Option<UnitPlace>,
}

/// The final rows of a board that are seen.
#[derive(Clone, Copy)]
pub(crate) struct FinalRows<'a> {
    pub(crate) board: &'a Board<'a, FlightFacts>,
    pub(crate) layout: Layout,
    pub(crate) seen: &'a SeenRows,
}

impl<'a> FinalRows<'a> {
    /// A row of a picture.
    pub(crate) fn row(&self, picture: u32, row: u32) -> FinalRow
        requires { (j r : ℕ) → is_seen self.now.seen.now j r ≡ true → IsLine self.now.layout (line_of S j r) }
        ensures picture { result.picture ≡ picture }
        ensures row { result.row ≡ row }
        ensures place { IsFinalRow self.now.layout self.now.seen.now result }
    {
        let at = if self.seen.has(picture as usize, row as usize) {
            Some(place_of(&self.layout, picture, row))
        } else {
            None
        };
        FinalRow { picture, row, at }
    }

    /// Another row of the same picture.
    #[inline(always)]
    pub(crate) fn turn_to(&self, last: &mut FinalRow, row: u32)
        requires lines { (j r : ℕ) → is_seen self.now.seen.now j r ≡ true
            → IsLine self.now.layout (line_of S j r) }
        requires last { IsFinalRow self.now.layout self.now.seen.now last.old }
        ensures picture { last.new.picture ≡ last.old.picture }
        ensures row { last.new.row ≡ row }
        ensures place { IsFinalRow self.now.layout self.now.seen.now last.new }
    {
        if last.row != row {
            *last = self.row(last.picture, row);
        }
    }
}

/// Where a row of a picture stands.
fn place_of(layout: &Layout, picture: u32, row: u32) -> UnitPlace
    requires { IsLine layout.now (line_of S picture row) }
    ensures { result ≡ final_unit layout.now picture row }
{
    let line = Line {
        phase: Phase::S,
        picture,
        row,
    };
    UnitPlace::new(layout, line, 0)
}
