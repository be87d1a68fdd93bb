//! Lines of a component as they are built, with those beside them, out of the words of rows of coding tree units.

ghost use Rattle.std.specs.Prelude.{◌≡◌, ◌<◌, ◌≤◌, ◌-◌, ◌*◌, ◌&&◌, ℕ, if◌then◌else◌, length};
ghost use Rattle.std.specs.Prelude.{nat_le, nat_lt};
ghost use Rattle.hv_base.specs.declared.line.Phase.TheVariants.{B};
ghost use Rattle.deblock.specs.Windows.{at};
ghost use Rattle.row_filters.specs.Lines.{HoldLines, count_of, end_line};
ghost use Rattle.board_core.specs.Places.{line_of};
ghost use Rattle.sample_words.specs.Sizes.{columns, rows};
ghost use Rattle.sample_words.specs.Words.{IsLine, line_number};
ghost use Rattle.progress_words.specs.Passes.{IsPassOf, Knows, view};
ghost use Rattle.progress_words.specs.Views.{seen_of};
ghost use Rattle.sample_lines.specs.FactsOfFlights.{flight_in};
ghost use Rattle.sample_lines.specs.FactsOfFlights.{IsOfFlight, samples_at};
ghost use Rattle.filtered_rows.specs.Components.{AreRowsBuilt, HasSidesOf, IsPartOfRow};

use crate::row_lines::row_top;
use hv_base::{Line, Phase};
use loop_filters::Component;
use progress_words::{Board, Pass};
use sample_lines::{FlightFacts, read_built_lines};
use sample_words::Layout;

/// Lines of a component, from one to before another.
#[derive(Clone, Copy)]
struct Span {
    first: usize,
    end: usize,
}

/// A row of the picture of a line as it is built.
fn built_row(line: Line, row: u32) -> Line
    ensures { result ≡ line_of B line.picture row }
{
    Line {
        phase: Phase::B,
        picture: line.picture,
        row,
    }
}

/// Lays some lines of a component of a row of a line's picture, whose units the pass has seen counted as they are
/// built, into their places among other lines of the component in memory.
fn lay_some(
    board: &Board<'_, FlightFacts>,
    pass: &mut Pass<FlightFacts>,
    layout: &Layout,
    line: Line,
    row: u32,
    component: &Component,
    part: Span,
    memory: Span,
    out: &mut [u16],
)
    requires own { IsPassOf board.now pass.old }
    requires flight { IsOfFlight board.now.flight layout.now }
    requires line { IsLine layout.now line }
    requires row { row < rows layout.now }
    requires seen { columns layout.now ≤ seen_of (view pass.old) (line_number layout.now (line_of B line.picture row)) }
    requires component { HasSidesOf layout.now component.now }
    requires some { part.first < part.end }
    requires top { component.now.size * row ≤ part.first }
    requires bottom { part.end ≤ end_line component.now row 0 }
    requires first { memory.first ≤ part.first }
    requires end { part.end ≤ memory.end }
    requires room { length out.old ≡ component.now.width * (memory.end - memory.first) }
    ensures count { length out.new ≡ length out.old }
    ensures value { (x y : ℕ) → x < component.now.width → memory.first ≤ y → y < memory.end
        → at component.now.width out.new x (y - memory.first)
        ≡ (if nat_le part.first y && nat_lt y part.end
        then samples_at (flight_in board.now.flight) line.picture B component.now.c x y
        else at component.now.width out.old x (y - memory.first)) }
    ensures same { Knows pass.old pass.new (view pass.old) }
{
    let top = row_top(layout, component, row);
    let own = built_row(line, row);
    let first = part.first - top;
    let count = part.end - part.first;
    let from = component.width * (part.first - memory.first);
    let to = component.width * (part.end - memory.first);
    read_built_lines(
        board,
        pass,
        layout,
        own,
        component.c,
        first,
        count,
        &mut out[from..to],
    );
}

/// The same where there are such lines.
fn lay_part(
    board: &Board<'_, FlightFacts>,
    pass: &mut Pass<FlightFacts>,
    layout: &Layout,
    line: Line,
    row: u32,
    component: &Component,
    part: Span,
    memory: Span,
    out: &mut [u16],
)
    requires own { IsPassOf board.now pass.old }
    requires flight { IsOfFlight board.now.flight layout.now }
    requires line { IsLine layout.now line }
    requires seen { AreRowsBuilt layout.now (view pass.old) line }
    requires component { HasSidesOf layout.now component.now }
    requires part { part.first < part.end → IsPartOfRow layout.now component.now line row part.first part.end }
    requires first { memory.first ≤ part.first }
    requires end { part.end ≤ memory.end }
    requires room { length out.old ≡ component.now.width * (memory.end - memory.first) }
    ensures count { length out.new ≡ length out.old }
    ensures value { (x y : ℕ) → x < component.now.width → memory.first ≤ y → y < memory.end
        → at component.now.width out.new x (y - memory.first)
        ≡ (if nat_le part.first y && nat_lt y part.end
        then samples_at (flight_in board.now.flight) line.picture B component.now.c x y
        else at component.now.width out.old x (y - memory.first)) }
    ensures same { Knows pass.old pass.new (view pass.old) }
{
    if part.first < part.end {
        lay_some(board, pass, layout, line, row, component, part, memory, out);
    }
}

/// Lines of a component of a row as they are built, with so many lines above and below it, as far as the picture has
/// them, out of the words of the coding tree units of the row and of those above and below it, all of which the pass
/// has seen counted.
pub fn read_rows_around(
    board: &Board<'_, FlightFacts>,
    pass: &mut Pass<FlightFacts>,
    layout: &Layout,
    line: Line,
    component: &Component,
    beside: usize,
    out: &mut [u16],
)
    requires own { IsPassOf board.now pass.old }
    requires flight { IsOfFlight board.now.flight layout.now }
    requires line { IsLine layout.now line }
    requires seen { AreRowsBuilt layout.now (view pass.old) line }
    requires component { HasSidesOf layout.now component.now }
    requires beside { beside ≤ 4 }
    requires room { length out.old ≡ count_of component.now line.row beside }
    ensures count { length out.new ≡ length out.old }
    ensures value { HoldLines component.now line.row beside
        (samples_at (flight_in board.now.flight) line.picture B component.now.c) out.new }
    ensures same { Knows pass.old pass.new (view pass.old) }
{
    let _rows = layout.rows();
    let top = row_top(layout, component, line.row);
    let end = (top + component.size).min(component.height);
    let memory = Span {
        first: top.saturating_sub(beside),
        end: (top + component.size + beside).min(component.height),
    };
    let above = Span {
        first: memory.first,
        end: top,
    };
    let own = Span { first: top, end };
    let below = Span {
        first: end,
        end: memory.end,
    };
    let upper = line.row.saturating_sub(1);
    let lower = line.row + 1;
    lay_part(
        board, pass, layout, line, upper, component, above, memory, out,
    );
    lay_part(
        board, pass, layout, line, line.row, component, own, memory, out,
    );
    lay_part(
        board, pass, layout, line, lower, component, below, memory, out,
    );
}
