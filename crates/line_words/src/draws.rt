//! Drawing the lines of a flight.

ghost use Rattle.std.specs.Prelude.{◌≡◌, ◌+◌, ◌*◌, ◌<◌, MatchOption, false};
ghost use Rattle.board_core.specs.Places.{delay, lines_before, turn_of};
ghost use Rattle.sample_words.specs.Sizes.{rows};
ghost use Rattle.sample_words.specs.Words.{IsLine, line_number, lines};
ghost use Rattle.progress_words.specs.Passes.{IsPassOf, Knows, view};
ghost use Rattle.progress_words.specs.Views.{HasEnded, finding_none, holding, seen_of};
ghost use Rattle.line_words.specs.Places.{HasSizes};

use crate::row_facts::RowFacts;
use board_core::line_in;
use hv_base::Line;
use progress_words::{Board, Pass};
use sample_words::Layout;

/// The next line of the flight that no pass has drawn; none where all are drawn.
pub fn draw_line<F: RowFacts>(
    board: &Board<'_, F>,
    pass: &mut Pass<F>,
    layout: &Layout,
) -> Option<Line>
    requires own { IsPassOf board.now pass.old }
    requires may { ((view pass.old).none ≡ false) × HasEnded (F.meaning board.now.flight) (view pass.old) }
    requires flight { HasSizes (F.flight board.now.flight) layout.now }
    ensures { MatchOption result
        (Knows pass.old pass.new (finding_none (view pass.old)))
        (λ line. IsLine layout.now line
        × Knows pass.old pass.new (holding (view pass.old) (line_number layout.now line))
        × (seen_of (view pass.new) (line_number layout.now line) ≡ 0)) }
{
    match board.draw(pass) {
        Some(ticket) => Some(line_of_ticket(layout, ticket)),
        None => None,
    }
}

/// The line that has a ticket: all pictures of the flight have as many lines.
fn line_of_ticket(layout: &Layout, ticket: usize) -> Line
    requires { ticket < lines layout.now }
    ensures line { IsLine layout.now result }
    ensures ticket { result.picture * (4 * rows layout.now)
        + lines_before (rows layout.now) (turn_of result) (delay result.phase) ≡ ticket }
{
    let _few = layout.lines();
    let rows = layout.rows();
    let lines = 4 * rows;
    let place = ticket as u64;
    line_in((place / lines) as u32, rows as u32, (place % lines) as u32)
}
