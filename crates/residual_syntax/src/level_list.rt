//! The levels of a transform block.

ghost use Rattle.std.specs.Prelude.{◌≡◌, ◌<◌, ◌≤◌, ◌++◌, ◌∷◌, [], false, length, IfOk, vec_capacity};

use spec_residuals::Level;
use std::alloc::{AllocError, Global};
use std::marker::Model;

/// How many levels a block has at most.
const MOST: usize = 1024;

/// transform_skip_flag and the coded levels of a block, from the last one in the order of the scan back to the first.
#[derive(Debug, Drop)]
pub struct Levels {
    transform_skip: bool,
    levels: Vec<Level>,
}

impl Model for Levels {
    ghost use Rattle.std.specs.Prelude.{◌≤◌, vec_capacity};
    ghost use Rattle.spec_residuals.specs.Levels.{Residual};

    ghost Value = { Residual };

    ghost view = { λ l. record { transform_skip = l.transform_skip; levels = l.levels.items } };

    ghost invariant = { λ l. 1024 ≤ vec_capacity l.levels };
}

impl Levels {
    /// No levels, with room for those of a block.
    pub fn new(alloc: Global) -> Result<Levels, AllocError>
        ensures { IfOk result (λ l. l ≡ record { transform_skip = false; levels = [] }) }
    {
        let levels = Vec::with_capacity(alloc, MOST)?;
        Ok(Levels {
            transform_skip: false,
            levels,
        })
    }

    /// transform_skip_flag, 0 where it isn't there.
    pub fn transform_skip(&self) -> bool
        ensures { result ≡ self.now.transform_skip }
    {
        self.transform_skip
    }

    /// The levels.
    pub fn as_slice(&self) -> &[Level]
        ensures { result.now ≡ self.now.levels }
    {
        &self.levels
    }

    pub(crate) fn restart(&mut self, transform_skip: bool)
        ensures { self.new ≡ record { transform_skip = transform_skip; levels = [] } }
    {
        self.transform_skip = transform_skip;
        self.levels.clear();
    }

    pub(crate) fn push(&mut self, level: Level)
        requires { length self.old.levels < 1024 }
        ensures { self.new
            ≡ record { transform_skip = self.old.transform_skip; levels = self.old.levels ++ level ∷ [] } }
    {
        let _pushed = self.levels.push(level);
    }
}
