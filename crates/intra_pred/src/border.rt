//! What stands beside a block.

ghost use Rattle.std.specs.Prelude.{◌≡◌, ℕ, Option};

/// The samples of a picture that may be predicted from.
pub trait Border {
    /// The sample of a component at a column and a line, none where it isn't available. Columns and lines are counted
    /// from 1, so that 0 stands before the first.
    ghost known: { Self → ℕ → ℕ → ℕ → Option ℕ };

    /// The sample of component `c` at column `x` and line `y`, both counted from 1. It is none where the place is not
    /// available (6.4.1), or where prediction is constrained to intra samples and it isn't one (8.4.4.2.2).
    fn sample(&self, c: u8, x: u32, y: u32) -> Option<u16>
        ensures { result ≡ known self.now c x y };
}
