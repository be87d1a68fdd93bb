//! Reference pictures.

ghost use Rattle.std.specs.Prelude.{◌≡◌, ◌<◌, ◌≤◌, ◌+◌, ◌*◌, ℕ, ℤ, pos, ◌+ℤ◌, ◌≤ℤ◌, length};
ghost use Rattle.std.specs.List.{All};
ghost use Rattle.inter_pred.specs.Passes.{at, IsByte};

/// A rectangle of a component of a reference picture. It may begin and end outside the picture.
#[derive(Clone, Copy)]
pub struct Window {
    /// The picture, by its place in the decoded picture buffer.
    pub picture: u32,
    /// 0 for luma, 1 for Cb, 2 for Cr.
    pub component: u8,
    /// The first column, in samples of the component.
    pub x: i32,
    /// The first line.
    pub y: i32,
    /// How many columns it has, at most 71.
    pub width: usize,
    /// How many lines it has, at most 71.
    pub height: usize,
}

/// The samples of reference pictures.
pub trait RefWindow {
    /// The sample of a picture and a component at a column and a line. Outside the picture it is the nearest one
    /// inside, as 8.5.3.3.3 clamps coordinates.
    ghost reference_at: { Self → ℕ → ℕ → ℤ → ℤ → ℕ };

    /// Writes the samples of a line from a column on, both in samples of the component. The view may change by it (a
    /// load of shared words may note what was seen), and tells the same samples.
    fn row(&mut self, picture: u32, component: u8, x: i32, y: i32, out: &mut [u16])
        requires count { length out.old ≤ 71 }
        requires place { x ≤ℤ pos 1073741824 }
        ensures value { (k : ℕ) → k < length out.old
            → at out.new k ≡ reference_at self.old picture component (x +ℤ pos k) y }
        ensures same { reference_at self.new ≡ reference_at self.old };

    /// Writes the samples of a window, in lines of 72. Where those of its component have 8 bits, and what stood there
    /// before has them, what stands there has 8 bits.
    fn window(&mut self, from: Window, out: &mut [u16; 5112])
        requires size { (from.width ≤ 71) × (from.height ≤ 71) }
        requires place { (from.x ≤ℤ pos 1073741824) × (from.y ≤ℤ pos 1073741824) }
        ensures value { (i j : ℕ) → i < from.width → j < from.height
            → at out.new (72 * j + i)
            ≡ reference_at self.old from.picture from.component (from.x +ℤ pos i) (from.y +ℤ pos j) }
        ensures bytes { ((x y : ℤ) → reference_at self.old from.picture from.component x y < 256)
            → All IsByte out.old → All IsByte out.new }
        ensures same { reference_at self.new ≡ reference_at self.old };
}
