//! Waiting for a count.
ghost use Rattle.std.specs.Prelude.{◌≡◌, ◌<◌, ◌≤◌};
ghost use Rattle.progress_words.specs.declared.waiting.Waited.TheVariants.{Ready, Stopped};
ghost use Rattle.progress_words.specs.Faults.{unit_in, IsFault};
ghost use Rattle.progress_words.specs.Views.{seen_of, AllSound};
ghost use Rattle.progress_words.specs.Passes.{view, IsPassOf, HasLooked};

use crate::board::Board;
use crate::facts::Facts;
use crate::pass::Pass;
use crossbeam_utils::Backoff;
use hv_io::{Gate, UnitNumber};
use std::sync::Wait;

/// How a wait ended.
#[derive(Clone, Copy, Debug, PartialEq, Eq)]
pub enum Waited {
    /// The line has reached the count.
    Ready,
    /// A fault stands before the unit that waited.
    Stopped,
}

impl<'a, F: Facts> Board<'a, F> {
    /// Waits until at least n units of the line are counted, or a fault is found before the unit that waits. Calls the
    /// gate with that unit between two looks.
    pub fn wait_line<R: Wait, G: Gate>(
        &self,
        rt: &R,
        pass: &mut Pass<F>,
        line: usize,
        n: u64,
        unit: UnitNumber,
        gate: &G,
    ) -> Waited
        requires own { IsPassOf self.now pass.old }
        requires line { line < (F.meaning self.now.flight).lines }
        ensures ready { result ≡ Ready → n ≤ seen_of (view pass.new) line }
        ensures stopped { result ≡ Stopped → (unit_in (view pass.new).least < unit)
            × ((view pass.old).fault_loads < (view pass.new).fault_loads)
            × IsFault (F.meaning self.now.flight) (view pass.new).least }
        ensures kept { IsPassOf self.now pass.new × HasLooked (view pass.old) line (view pass.new) }
        ensures sound { AllSound (F.meaning self.now.flight) line (seen_of (view pass.new) line) }
    {
        let backoff = Backoff::new();
        for _ in rt.forever() {
            let found = self.seen(pass, line);
            if found >= n {
                return Waited::Ready;
            }
            let least = self.least(pass);
            if least / 32 < unit {
                return Waited::Stopped;
            }
            gate.turn(unit);
            backoff.snooze();
        }
        unreachable!()
    }
}
