//! How many lines of cells are in use.

ghost use Rattle.std.specs.Prelude.{◌≡◌, ◌≤◌, ◌<◌, ℕ};
ghost use Rattle.ctu_build.specs.Held.{lines_of};

/// From which line on no sample of a component is known.
#[derive(Clone, Copy, Debug, PartialEq, Eq)]
pub struct Extents {
    /// Luma.
    pub luma: usize,
    /// Cb.
    pub cb: usize,
    /// Cr.
    pub cr: usize,
}

impl Extents {
    /// With so many lines of a component, where it has fewer.
    pub(crate) fn with(self, c: usize, lines: usize) -> Extents
        requires c { c < 3 }
        ensures more { (d : ℕ) → lines_of self d ≤ lines_of result d }
        ensures here { lines ≤ lines_of result c }
        ensures few { (d n : ℕ) → lines ≤ n → lines_of self d ≤ n → lines_of result d ≤ n }
    {
        match c {
            0 => Extents {
                luma: self.luma.max(lines),
                cb: self.cb,
                cr: self.cr,
            },
            1 => Extents {
                luma: self.luma,
                cb: self.cb.max(lines),
                cr: self.cr,
            },
            _ => Extents {
                luma: self.luma,
                cb: self.cb,
                cr: self.cr.max(lines),
            },
        }
    }
}
