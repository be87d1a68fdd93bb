//! What stands before each unit of work.

use hv_base::UnitNumber;

/// What may keep back a unit of work. No clause reads it.
pub trait Gate {
    /// Called before a unit is built, and at each turn of waiting.
    fn turn(&self, unit: UnitNumber);
}

/// A gate that keeps nothing back.
#[derive(Clone, Copy, Debug, PartialEq, Eq)]
pub struct OpenGate;

impl Gate for OpenGate {
    fn turn(&self, _unit: UnitNumber) {}
}
