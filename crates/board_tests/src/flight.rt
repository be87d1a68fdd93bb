//! The flight, and what stands for it on the board.
ghost use Rattle.std.specs.Prelude.{◌≡◌, ◌<◌, ◌≤◌, ◌+◌, ◌*◌, vec_len, slice_index, IfSome};

use progress_words::Layout;
use std::snapshot::Snapshot;

/// Rows of units with an input each, in raster order. A row breaks a rule at its mark, where it has one.
#[derive(Drop)]
pub struct Sums {
    pub(crate) input: Vec<u64>,
    pub(crate) marks: Vec<usize>,
    pub(crate) rows: usize,
    pub(crate) width: usize,
    ghost covered: { vec_len input ≡ rows * width },
    ghost marked: { vec_len marks ≡ rows },
    ghost some_width: { 0 < width },
    ghost small: { (8 * rows + 16) + rows * width * 2 < 288230376151711744 },
    ghost narrow: { width < 288230376151711744 },
}

impl Sums {
    /// None where the sides are too large, or there isn't one input a unit and one mark a row. A mark that is no unit
    /// of its row breaks no rule.
    pub fn new(input: Vec<u64>, marks: Vec<usize>, rows: usize, width: usize) -> Option<Sums>
        ensures { IfSome result (λ f. (f.input.items ≡ input.items) × (f.marks.items ≡ marks.items)
            × (f.rows ≡ rows) × (f.width ≡ width)) }
    {
        if rows >= 1 << 24 || width >= 1 << 24 || width == 0 {
            return None;
        }
        if input.len() != rows * width || marks.len() != rows {
            return None;
        }
        Some(Sums {
            input,
            marks,
            rows,
            width,
        })
    }

    /// The number of rows.
    pub fn rows(&self) -> usize
        ensures { result ≡ self.now.rows }
    {
        self.rows
    }

    /// The number of units in a row.
    pub fn width(&self) -> usize
        ensures { result ≡ self.now.width }
    {
        self.width
    }

    pub(crate) fn input_at(&self, line: usize, unit: usize) -> u64
        requires line { line < self.now.rows }
        requires unit { unit < self.now.width }
        ensures { result ≡ slice_index self.now.input.items (line * self.now.width + unit) }
    {
        self.input[line * self.width + unit]
    }

    pub(crate) fn mark_at(&self, line: usize) -> usize
        requires { line < self.now.rows }
        ensures { result ≡ slice_index self.now.marks.items line }
    {
        self.marks[line]
    }

    /// How many lines and words it has.
    pub fn layout(&self) -> Layout
        ensures { (result.lines ≡ self.now.rows)
            × (result.words ≡ (8 * self.now.rows + 16) + self.now.rows * self.now.width * 2) }
    {
        Layout {
            lines: self.rows,
            words: (8 * self.rows + 16) + self.rows * self.width * 2,
        }
    }
}

/// Stands for a flight on a board, in contracts alone.
#[derive(Drop)]
pub struct Meant {
    pub(crate) sums: Snapshot<Sums>,
}

impl Meant {
    /// What stands for this flight.
    pub fn of(sums: &Sums) -> Meant
        ensures { result.sums.value ≡ sums.now }
    {
        Meant {
            sums: Snapshot::of(sums),
        }
    }
}
