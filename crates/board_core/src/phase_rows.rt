//! Rows of one phase of a picture, as filter lines and references need them.

ghost use Rattle.std.specs.Prelude.{◌≡◌, ◌+◌, ◌-◌, ◌++◌};
ghost use Rattle.flight_plan.specs.Flight.{FlightRows};
ghost use Rattle.board_core.specs.Needs.{filter_needs, span_needs};

use hv_base::{Line, Phase};

/// One phase of the rows from `first` to `last` of a picture, both included, as many as the picture has.
#[derive(Clone, Copy, Debug, PartialEq, Eq)]
pub struct PhaseRows {
    /// What is done at the rows.
    pub phase: Phase,
    /// The picture, by its place in the flight.
    pub picture: u32,
    /// The first row of coding tree blocks, counted from the top.
    pub first: u32,
    /// The last row, which may lie below the picture.
    pub last: u64,
}

/// The rows that a filter line needs: of the filter before it, and as they are built.
pub fn filter_rows(line: Line) -> (Option<PhaseRows>, Option<PhaseRows>)
    ensures { (plan : FlightRows) → span_needs plan result.0 ++ span_needs plan result.1 ≡ filter_needs plan line }
{
    match line.phase {
        Phase::B => (None, None),
        Phase::V => (None, Some(own_row(Phase::B, line))),
        Phase::H => (
            Some(rows_around(Phase::V, line)),
            Some(rows_around(Phase::B, line)),
        ),
        Phase::S => (
            Some(rows_around(Phase::H, line)),
            Some(own_row(Phase::B, line)),
        ),
    }
}

/// A phase of the line's row.
fn own_row(phase: Phase, line: Line) -> PhaseRows
    ensures { result ≡ record { phase = phase; picture = line.picture; first = line.row; last = line.row } }
{
    PhaseRows {
        phase,
        picture: line.picture,
        first: line.row,
        last: u64::from(line.row),
    }
}

/// A phase of the line's row and of those above and below it.
fn rows_around(phase: Phase, line: Line) -> PhaseRows
    ensures { result
        ≡ record { phase = phase; picture = line.picture; first = line.row - 1; last = line.row + 1 } }
{
    PhaseRows {
        phase,
        picture: line.picture,
        first: line.row.saturating_sub(1),
        last: u64::from(line.row) + 1,
    }
}
