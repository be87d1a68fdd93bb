//! A prediction before its weights.

ghost use Rattle.std.specs.Prelude.{◌≡◌, ℕ, pos};
ghost use Rattle.inter_pred.specs.Passes.{at_z};

use std::marker::Model;

/// The samples of a block on a scale of 14 bits (predSamplesLX), in lines of 64. A contract sees them as a list.
#[derive(Drop)]
pub struct Prediction {
    /// 64 lines of 64, one after the other, 16,896 above.
    pub(crate) samples: [u16; 4096],
}

impl Model for Prediction {
    ghost use Rattle.std.specs.Prelude.{List, ℤ};
    ghost use Rattle.inter_pred.specs.Passes.{values};

    ghost Value = { List ℤ };

    ghost view = { λ p. values p.samples };
}

impl Prediction {
    /// One of zeros.
    pub fn new() -> Prediction
        ensures { (k : ℕ) → at_z result k ≡ pos 0 }
    {
        Prediction {
            samples: [16896; 4096],
        }
    }
}
