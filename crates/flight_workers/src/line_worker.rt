//! What works off lines.

ghost use Rattle.std.specs.Prelude.{ℕ};
ghost use Rattle.flight_waits.specs.FactsOfFlights.{FlightFacts};
ghost use Rattle.flight_waits.specs.FactsOfFlights.{IsOfFlight};
ghost use Rattle.sample_words.specs.Words.{IsLine};
ghost use Rattle.progress_words.specs.Passes.{view};
ghost use Rattle.progress_words.specs.Views.{seen_of};
ghost use Rattle.flight_workers.specs.Working.{HasEndedLine, HoldsLine};

use flight_waits::FlightFacts;
use hv_base::Line;
use hv_io::Gate;
use progress_words::{Board, Pass};
use sample_words::Layout;
use std::sync::Wait;

/// Works off lines of a flight over a board, in memory of its own.
pub trait LineWorker {
    /// What holds of it between lines, by how many units of each line its pass has seen counted.
    ghost stands: { Self → FlightFacts → (ℕ → ℕ) → Type 0 };

    /// Works off a line: counts its units one after the other, until all are counted, or a fault is found that isn't
    /// above the next one.
    fn work_line<R: Wait, G: Gate>(
        &mut self,
        rt: &R,
        board: &Board<'_, FlightFacts>,
        pass: Pass<FlightFacts>,
        layout: &Layout,
        line: Line,
        gate: &G,
    ) -> Pass<FlightFacts>
        requires flight { IsOfFlight board.now.flight layout.now }
        requires line { IsLine layout.now line }
        requires holds { HoldsLine board.now layout.now pass line }
        requires stands { stands self.old board.now.flight (seen_of (view pass)) }
        ensures ended { HasEndedLine board.now pass result }
        ensures stands { stands self.new board.now.flight (seen_of (view result)) };
}
