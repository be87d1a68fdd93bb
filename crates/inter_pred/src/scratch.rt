//! What interpolation of a block works on.

ghost use Rattle.std.specs.List.{All};
ghost use Rattle.inter_pred.specs.Passes.{IsByte, IsMiddle, IsRaised};

/// A window of a reference picture and what its lines give. It can be used for one block after the other.
#[derive(Drop)]
pub struct Scratch {
    /// 71 lines of 71 samples of 14 bits, 72 apart.
    pub(crate) window: [u16; 5112],
    /// 71 lines of 71 samples of 8 bits, 72 apart.
    pub(crate) bytes: [u16; 5112],
    /// 71 lines of 64, 6,144 above.
    pub(crate) middle: [u16; 4544],
    ghost invariant: { All IsRaised window × All IsByte bytes × All IsMiddle middle },
}

impl Scratch {
    /// One that holds nothing.
    pub fn new() -> Scratch {
        Scratch {
            window: [0; 5112],
            bytes: [0; 5112],
            middle: [0; 4544],
        }
    }
}
