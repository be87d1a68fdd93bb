//! The words of a line that have its samples from a column on.

ghost use Rattle.std.specs.Prelude.{◌≡◌, ◌+◌, ◌-◌, ◌*◌, ◌<◌, ◌≤◌, ℕ, pos, negsuc, ◌+ℤ◌, ◌-ℤ◌, ◌≤ℤ◌};
ghost use Rattle.sample_words.specs.Sizes.{samples_a_word};
ghost use Rattle.spec_inter_prediction.specs.Taps.{clamped};
ghost use Rattle.flight_windows.specs.Lines.{IsSpan};

use crate::places::component_side;
use inter_pred::clamped;
use sample_words::Layout;

/// Whole words of a line that have its samples from a column on, as far as the picture goes.
#[derive(Clone, Copy)]
pub(crate) struct Span {
    /// The column, which may lie outside the picture.
    pub(crate) column: i32,
    /// The first word.
    pub(crate) word: usize,
    /// How many samples are taken, from the first one of that word on.
    pub(crate) count: usize,
    /// The column, counted from the first of these.
    pub(crate) left: i32,
}

impl Span {
    /// The words of so many samples of a line of component `c`.
    pub(crate) fn of(layout: &Layout, c: usize, column: i32, count: usize) -> Span
        requires some { 0 < count }
        requires few { count ≤ 71 }
        requires place { column ≤ℤ pos 1073741824 }
        ensures span { IsSpan layout.now c count result }
        ensures column { result.column ≡ column }
    {
        let sizes = layout.sizes();
        let width = component_side(c, sizes.width);
        let per = samples_of_word(layout);
        Span::of_words(column, count, width, per)
    }

    /// The same by the width of the component, and by how many samples a word has.
    fn of_words(column: i32, count: usize, width: u32, per: u32) -> Span
        requires some { 0 < count }
        requires few { count ≤ 71 }
        requires place { column ≤ℤ pos 1073741824 }
        requires width { (0 < width) × (width ≤ 8192) }
        requires samples { (4 ≤ per) × (per ≤ 8) }
        ensures column { result.column ≡ column }
        ensures some { 0 < result.count }
        ensures few { result.count ≤ 78 }
        ensures inside { per * result.word + result.count ≤ width }
        ensures place { result.left ≤ℤ pos 1073741824 }
        ensures held { (k : ℕ) → k < count → per * result.word + clamped (result.left +ℤ pos k) result.count
            ≡ clamped (column +ℤ pos k) width }
    {
        let first = clamped(column, width);
        let last = clamped(last_column(column, count), width);
        Span::of_columns(column, count, width, per, first, last)
    }

    /// The same by the first column and the last one, as they are held inside the picture.
    #[inline(always)]
    fn of_columns(column: i32, count: usize, width: u32, per: u32, first: u32, last: u32) -> Span
        requires some { 0 < count }
        requires few { count ≤ 71 }
        requires place { column ≤ℤ pos 1073741824 }
        requires samples { (4 ≤ per) × (per ≤ 8) }
        requires first { first ≡ clamped column width }
        requires last { last ≡ clamped (column +ℤ pos (count - 1)) width }
        requires inside { (last < width) × (width ≤ 8192) }
        ensures column { result.column ≡ column }
        ensures some { 0 < result.count }
        ensures few { result.count ≤ 78 }
        ensures inside { per * result.word + result.count ≤ width }
        ensures place { result.left ≤ℤ pos 1073741824 }
        ensures held { (k : ℕ) → k < count → per * result.word + clamped (result.left +ℤ pos k) result.count
            ≡ clamped (column +ℤ pos k) width }
    {
        let word = first / per;
        let skipped = word * per;
        Span {
            column,
            word: word as usize,
            count: (last + 1 - skipped) as usize,
            left: left_of(column, skipped),
        }
    }
}

/// How many samples a word has.
fn samples_of_word(layout: &Layout) -> u32
    ensures value { result ≡ samples_a_word layout.now }
    ensures few { (4 ≤ result) × (result ≤ 8) }
{
    layout.samples_a_word() as u32
}

/// The last of so many columns.
fn last_column(column: i32, count: usize) -> i32
    requires some { 0 < count }
    requires few { count ≤ 71 }
    requires place { column ≤ℤ pos 1073741824 }
    ensures { result ≡ column +ℤ pos (count - 1) }
{
    column + (count as i32 - 1)
}

/// A column, counted from another one.
fn left_of(column: i32, first: u32) -> i32
    requires least { negsuc 2147483647 ≤ℤ (column -ℤ pos first) }
    requires most { (column -ℤ pos first) ≤ℤ pos 1073741824 }
    requires few { first ≤ 8192 }
    ensures { result ≡ column -ℤ pos first }
{
    column - first as i32
}
