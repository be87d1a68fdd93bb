//! Which units of a flight are bad, by unit.

ghost use Rattle.std.specs.Prelude.{ℕ, ◌≡◌, ◌↔◌, IfOk, false, true, slice_index_or};
ghost use Rattle.board_core.specs.States.{IsBad};

use flight_plan::FlightPlan;
use std::alloc::{AllocError, Global};

/// By unit, whether it is bad.
pub fn bad_flags(alloc: Global, plan: &FlightPlan) -> Result<Vec<bool>, AllocError>
    ensures { IfOk result (λ flags. (u : ℕ) → (slice_index_or flags.items u false ≡ true) ↔ IsBad plan.now u) }
{
    let mut flags = vec![in alloc; false; plan.units() as usize]?;
    for unit in plan.bad() {
        flags[*unit as usize] = true;
    }
    Ok(flags)
}
