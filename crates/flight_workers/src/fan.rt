//! All workers.

ghost use Rattle.std.specs.Prelude.{◌≡◌, ◌+◌, length};
ghost use Rattle.std.specs.Thread.{IsSync};
ghost use Rattle.progress_words.specs.Passes.{view};
ghost use Rattle.flight_workers.specs.Working.{IsDone, IsGathered, MayFan, MayWork};

use crate::line_worker::LineWorker;
use crate::work::work;
use flight_waits::FlightFacts;
use hv_io::Gate;
use progress_words::{Board, Pass};
use sample_words::Layout;
use std::sync::Wait;
use std::thread::{Threads, join};

/// Works off all lines of a flight: the first worker of some on a thread of its own, while the others are at work,
/// and so each but the last; where a thread can't be started its caller does that work. All passes are joined
/// behind it.
#[tactic(auto, using(crate::proofs::Parts::may_fan_on, crate::proofs::Parts::may_work_on, crate::proofs::Parts::gathered))]
pub fn work_off<R: Threads + Wait + Sync, G: Gate + Sync, W: LineWorker + Send>(
    rt: &R,
    gate: &G,
    board: &Board<'_, FlightFacts>,
    layout: &Layout,
    start: Pass<FlightFacts>,
    first: &mut W,
    others: &mut [W],
) -> Pass<FlightFacts>
    requires may { MayFan W.stands board.now layout.now start first.old others.old }
    ensures gathered { IsGathered board.now start result }
    ensures splits { (view result).splits ≡ (view start).splits + length others.old }
{
    let Some((next, rest)) = others.split_first_mut() else {
        return work(rt, gate, board, layout, start, first);
    };
    let mut pass = start;
    let other = board.split(&mut pass);
    let (mine, theirs) = join(
        rt,
        || -> Pass<FlightFacts>
            requires { IsSync R.row × IsSync G.row
                × MayFan W.stands board.now layout.now pass next.now rest.now }
            ensures { IsGathered board.entry.now pass result
                × ((view result).splits ≡ (view pass).splits + length rest.entry.now) }
        { work_off(rt, gate, board, layout, pass, next, rest) },
        || -> Pass<FlightFacts>
            requires { MayWork W.stands board.now layout.now other first.now }
            ensures { IsDone board.entry.now other result }
        { work(rt, gate, board, layout, other, first) },
    );
    let mut whole = mine;
    board.join(&mut whole, theirs);
    whole
}
