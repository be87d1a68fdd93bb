//! A gate that keeps one unit back, for tests of what runs at the same time.

use crate::gate::Gate;
use hv_base::UnitNumber;
use std::sync::atomic::{AtomicBool, Ordering};
use std::thread;

/// A gate that keeps one unit back until another one has come to it, or its turns have run out.
#[derive(Drop)]
pub struct HoldGate {
    hold: UnitNumber,
    until: UnitNumber,
    turns: u64,
    passed: AtomicBool,
    gave_up: AtomicBool,
}

impl HoldGate {
    /// It keeps the unit `hold` until `until` has come, for so many turns at most.
    pub fn new(hold: UnitNumber, until: UnitNumber, turns: u64) -> HoldGate {
        HoldGate {
            hold,
            until,
            turns,
            passed: AtomicBool::new(false),
            gave_up: AtomicBool::new(false),
        }
    }

    /// Whether `until` has come, and no turns ran out before it.
    pub fn released(&self) -> bool {
        self.passed.load(Ordering::SeqCst) && !self.gave_up.load(Ordering::SeqCst)
    }

    // Keeps back the unit that has come, until the other one has.
    fn keep(&self) {
        for _ in 0..self.turns {
            if self.passed.load(Ordering::SeqCst) || self.gave_up.load(Ordering::SeqCst) {
                return;
            }
            thread::yield_now();
        }
        self.gave_up.store(true, Ordering::SeqCst);
    }
}

impl Gate for HoldGate {
    fn turn(&self, unit: UnitNumber) {
        if unit == self.until {
            self.passed.store(true, Ordering::SeqCst);
        }
        if unit == self.hold {
            self.keep();
        }
    }
}
