//! One worker.

ghost use Rattle.flight_workers.specs.Working.{IsDone, MayWork};

use crate::line_worker::LineWorker;
use flight_waits::FlightFacts;
use hv_io::Gate;
use line_words::draw_line;
use progress_words::{Board, Pass};
use sample_words::Layout;
use std::sync::Wait;

/// Works off the lines that it draws, until none is left.
pub(crate) fn work<R: Wait, G: Gate, W: LineWorker>(
    rt: &R,
    gate: &G,
    board: &Board<'_, FlightFacts>,
    layout: &Layout,
    start: Pass<FlightFacts>,
    worker: &mut W,
) -> Pass<FlightFacts>
    requires may { MayWork W.stands board.now layout.now start worker.old }
    ensures done { IsDone board.now start result }
{
    let mut pass = start;
    for _ in rt.forever() {
        match draw_line(board, &mut pass, layout) {
            Some(line) => pass = worker.work_line(rt, board, pass, layout, line, gate),
            None => return pass,
        }
    }
    unreachable!()
}
