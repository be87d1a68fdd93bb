//! What a block is predicted in.

use inter_pred::{Prediction, Scratch};

/// Room for the predictions of one block, which is made once and used for each. What stands in it before a call tells
/// nothing.
#[derive(Drop)]
pub struct InterScratch {
    /// The prediction by list 0, or by the one list that there is.
    pub(crate) first: Prediction,
    /// That by list 1, where there are both.
    pub(crate) second: Prediction,
    /// What one prediction is interpolated in.
    pub(crate) scratch: Scratch,
}

impl InterScratch {
    /// Room of zeros.
    pub fn new() -> InterScratch {
        InterScratch {
            first: Prediction::new(),
            second: Prediction::new(),
            scratch: Scratch::new(),
        }
    }
}
