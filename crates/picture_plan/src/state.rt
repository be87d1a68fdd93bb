//! What a planner knows while nothing stopped the stream.

ghost use Rattle.std.specs.Prelude.{◌≡◌, [], IfOk};
ghost use Rattle.spec_picture_plan.specs.Pictures.{beginning};

use crate::flight::Flight;
use header_types::{Former, Sets};
use plan_types::Between;
use std::alloc::{AllocError, Global};
use std::marker::Model;

/// How many pictures a flight has at most, the pictures that wait for their flight's end, and what is known between two
/// units.
#[derive(Drop)]
pub(crate) struct State {
    /// Where memory is taken.
    pub(crate) alloc: Global,
    /// How many pictures a flight has at most.
    pub(crate) ahead: u32,
    /// The pictures that wait for their flight's end, in decoding order.
    pub(crate) pending: Flight,
    /// What is known between two units.
    pub(crate) between: Between,
}

impl Model for State {
    ghost use Rattle.picture_plan.specs.Bounds.{IsBetween};
    ghost use Rattle.picture_plan.specs.States.{Held};

    ghost Value = { Held };

    ghost view = { λ s. record { ahead = s.ahead; pending = s.pending; between = s.between } };

    ghost invariant = { λ s. IsBetween s.between };
}

impl State {
    /// Before the first unit.
    #[tactic(auto, unfolding(spec_picture_plan::specs::Pictures::beginning))]
    pub(crate) fn new(alloc: Global, ahead: u32) -> Result<State, AllocError>
        ensures { IfOk result (λ s. s ≡ record { ahead = ahead; pending = []; between = beginning }) }
    {
        Ok(State {
            alloc,
            ahead,
            pending: Flight::new(alloc),
            between: Between {
                sets: Sets::new(alloc)?,
                former: Former::new(alloc),
                drops_rasl: false,
                picture: None,
            },
        })
    }
}
