//! Memory that one board after another lies in.

use crate::first::FirstWords;
use bumpalo::Bump;
use std::alloc::Global;

/// Memory for one board after another, and the words that each begins with. It grows where a board is larger than those
/// before.
#[derive(Drop)]
pub struct BoardMemory {
    pub(crate) arena: Bump<Global>,
    pub(crate) first: FirstWords,
}

impl BoardMemory {
    /// Memory for no board yet.
    pub fn new(alloc: Global) -> BoardMemory {
        BoardMemory {
            arena: Bump::new(alloc),
            first: FirstWords::new(alloc),
        }
    }
}
