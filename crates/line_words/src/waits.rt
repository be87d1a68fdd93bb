//! Waiting for what a unit needs.

ghost use Rattle.std.specs.Prelude.{◌≡◌, ◌<◌, All};
ghost use Rattle.progress_words.specs.declared.waiting.Waited.TheVariants.{Ready, Stopped};
ghost use Rattle.progress_words.specs.Core.{AreMet};
ghost use Rattle.progress_words.specs.Faults.{IsFault, unit_in};
ghost use Rattle.progress_words.specs.Passes.{IsPassOf, view};
ghost use Rattle.progress_words.specs.Views.{loads_of, seen_of};
ghost use Rattle.flight_lines.specs.Numbers.{AreOfFlight, numbered_needs};
ghost use Rattle.line_words.specs.Passes.{AreSound, HasGone};
ghost use Rattle.line_words.specs.Places.{HasSizes};

use crate::row_facts::RowFacts;
use board_core::Needs;
use flight_lines::need_at;
use hv_base::UnitNumber;
use progress_words::{Board, Gate, Pass, Waited};
use sample_words::Layout;
use std::sync::Wait;

/// Waits for each of the needs of a unit, one after the other, or until a fault is found before the unit.
pub fn wait_for<R: Wait, G: Gate, F: RowFacts>(
    rt: &R,
    board: &Board<'_, F>,
    pass: &mut Pass<F>,
    layout: &Layout,
    needs: &Needs<'_>,
    unit: UnitNumber,
    gate: &G,
) -> Waited
    requires own { IsPassOf board.now pass.old }
    requires flight { HasSizes (F.flight board.now.flight) layout.now }
    requires lines { AreOfFlight layout.now needs.now }
    ensures ready { result ≡ Ready
        → AreMet (F.meaning board.now.flight) (seen_of (view pass.new)) (numbered_needs layout.now needs.now) }
    ensures waited { result ≡ Ready
        → All (λ need. loads_of (view pass.old) need.0 < loads_of (view pass.new) need.0)
        (numbered_needs layout.now needs.now) }
    ensures stopped { result ≡ Stopped → (unit_in (view pass.new).least < unit)
        × ((view pass.old).fault_loads < (view pass.new).fault_loads)
        × IsFault (F.meaning board.now.flight) (view pass.new).least }
    ensures kept { IsPassOf board.now pass.new
        × HasGone (view pass.old) (numbered_needs layout.now needs.now) (view pass.new) }
    ensures sound { AreSound (F.meaning board.now.flight) (view pass.old) (view pass.new) }
{
    let mut index: usize = 0;
    for _ in rt.forever() {
        let Some((line, count)) = need_at(layout, needs, index) else {
            return Waited::Ready;
        };
        match board.wait_line(rt, pass, line, count, unit, gate) {
            Waited::Ready => index = index.saturating_add(1),
            Waited::Stopped => return Waited::Stopped,
        }
    }
    unreachable!()
}
