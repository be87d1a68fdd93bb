//! What blocks are built in.

use inter_samples::InterScratch;

/// Room for one block, which is made once and used for each. What stands in it before a call tells nothing.
#[derive(Drop)]
pub struct Scratch {
    /// The neighbours of an intra block of 2^n samples on a side: four times as many and one, at most 129.
    pub(crate) edge: [u16; 129],
    /// The predicted samples of an intra block, line after line, or those of pulse code modulation.
    pub(crate) samples: [u16; 1024],
    /// Lines of 64.
    pub(crate) predicted: [u16; 4096],
    /// What a prediction unit is predicted in.
    pub(crate) inter: InterScratch,
    /// The levels of a block, line after line.
    pub(crate) levels: [i32; 1024],
    /// Its scaled coefficients.
    pub(crate) scaled: [i32; 1024],
    /// Its residuals.
    pub(crate) residuals: [i32; 1024],
}

impl Scratch {
    /// Room of zeros.
    pub fn new() -> Scratch {
        Scratch {
            edge: [0; 129],
            samples: [0; 1024],
            predicted: [0; 4096],
            inter: InterScratch::new(),
            levels: [0; 1024],
            scaled: [0; 1024],
            residuals: [0; 1024],
        }
    }
}
