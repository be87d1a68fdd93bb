//! What works off lines of a flight.

ghost use Rattle.std.specs.Prelude.{◌≡◌, ◌≢◌, ℕ, IfOk};
ghost use Rattle.hv_base.specs.declared.line.Phase.TheVariants.{B};
ghost use Rattle.sample_words.specs.Words.{IsLine};
ghost use Rattle.progress_words.specs.Passes.{view};
ghost use Rattle.progress_words.specs.Views.{seen_of};
ghost use Rattle.filtered_rows.specs.FlightFacts.{FlightFacts};
ghost use Rattle.filtered_rows.specs.FlightFacts.{IsOfFlight};
ghost use Rattle.flight_workers.specs.Working.{HasEndedLine, HoldsLine};
ghost use Rattle.flight_views.specs.Views.{IsShared, IsViewOf};
ghost use Rattle.row_workers.specs.Workers.{IsReadyIn};

use built_rows::{RowBuilder, build_row};
use filtered_rows::{FilterMemory, FlightFacts, References, filter_row};
use flight_views::FlightViews;
use flight_workers::LineWorker;
use hv_base::{Line, Phase};
use hv_io::Gate;
use line_words::UnitPlace;
use progress_words::{Board, Pass};
use sample_words::Layout;
use std::alloc::{AllocError, Global};
use std::sync::Wait;

/// Works off lines of a flight: what it shares with the flight's other workers, and memory of its own.
#[derive(Drop)]
pub struct RowWorker<'a> {
    /// What the workers of the flight share.
    pub(crate) views: &'a FlightViews<'a>,
    /// Rows of coding tree units are built with it.
    pub(crate) builder: RowBuilder<'a>,
    /// Rows of coding tree blocks are filtered in it.
    pub(crate) memory: FilterMemory,
}

impl<'a> RowWorker<'a> {
    /// A worker of a flight. `Err` is want of memory, and no other call takes any.
    pub fn new(alloc: Global, views: &'a FlightViews<'a>) -> Result<RowWorker<'a>, AllocError>
        requires shared { IsShared views.now }
        ensures ready { IfOk result (λ worker. (facts : FlightFacts) (seen : ℕ → ℕ) → IsViewOf facts views.now
            → IsReadyIn worker facts seen) }
    {
        let first = views.picture(0);
        let builder = RowBuilder::new(alloc, &first)?;
        let memory = FilterMemory::new(alloc, views.filters(0))?;
        Ok(RowWorker {
            views,
            builder,
            memory,
        })
    }

    /// Works off a row of coding tree units.
    fn build<R: Wait, G: Gate>(
        &mut self,
        rt: &R,
        board: &Board<'_, FlightFacts>,
        pass: Pass<FlightFacts>,
        layout: &Layout,
        line: Line,
        gate: &G,
    ) -> Pass<FlightFacts>
        requires flight { IsOfFlight board.now.flight layout.now }
        requires line { IsLine layout.now line }
        requires phase { line.phase ≡ B }
        requires holds { HoldsLine board.now layout.now pass line }
        requires ready { IsReadyIn self.old board.now.flight (seen_of (view pass)) }
        ensures ended { HasEndedLine board.now pass result }
        ensures ready { IsReadyIn self.new board.now.flight (seen_of (view result)) }
    {
        let picture = self.views.picture(line.picture);
        let bases = References::new(picture.bases, &picture.plan.sps);
        build_row(
            rt,
            board,
            pass,
            &picture,
            bases,
            line.row,
            &mut self.builder,
            gate,
        )
    }

    /// Works off a row of coding tree blocks in a phase of the loop filters.
    fn filter<R: Wait, G: Gate>(
        &mut self,
        rt: &R,
        board: &Board<'_, FlightFacts>,
        pass: Pass<FlightFacts>,
        layout: &Layout,
        line: Line,
        gate: &G,
    ) -> Pass<FlightFacts>
        requires flight { IsOfFlight board.now.flight layout.now }
        requires line { IsLine layout.now line }
        requires phase { line.phase ≢ B }
        requires holds { HoldsLine board.now layout.now pass line }
        requires ready { IsReadyIn self.old board.now.flight (seen_of (view pass)) }
        ensures ended { HasEndedLine board.now pass result }
        ensures ready { IsReadyIn self.new board.now.flight (seen_of (view result)) }
    {
        let mut pass = pass;
        let at = UnitPlace::new(layout, line, 0);
        let picture = self.views.picture(line.picture);
        let format = self.views.filters(line.picture);
        filter_row(
            rt,
            board,
            &mut pass,
            layout,
            picture.frame,
            picture.plan,
            format,
            &at,
            &mut self.memory,
            gate,
        );
        pass
    }
}

impl<'a> LineWorker for RowWorker<'a> {
    ghost use Rattle.row_workers.specs.Workers.{IsReadyIn};

    ghost stands = { λ worker facts seen. IsReadyIn worker facts seen };

    fn work_line<R: Wait, G: Gate>(
        &mut self,
        rt: &R,
        board: &Board<'_, FlightFacts>,
        pass: Pass<FlightFacts>,
        layout: &Layout,
        line: Line,
        gate: &G,
    ) -> Pass<FlightFacts> {
        match line.phase {
            Phase::B => self.build(rt, board, pass, layout, line, gate),
            Phase::V | Phase::H | Phase::S => self.filter(rt, board, pass, layout, line, gate),
        }
    }
}
