//! The row of coding tree blocks that has a line.

ghost use Rattle.std.specs.Prelude.{◌≡◌, ◌+◌, ◌-◌, ◌*◌, ◌/◌, ◌%◌, ◌^◌, ◌<◌, ◌≤◌, min};
ghost use Rattle.sample_lines.specs.LocalityLaws.{luma_line};
ghost use Rattle.sample_words.specs.Contents.{component_side};
ghost use Rattle.flight_windows.specs.Lines.{IsRowPlace};

use crate::places::{component_side, luma_line};
use inter_pred::clamped;
use sample_words::Layout;

/// A line of a component of a picture, by its row of coding tree blocks.
#[derive(Clone, Copy)]
pub(crate) struct RowPlace {
    /// The line as it is asked for, which may lie outside the picture.
    pub(crate) y: i32,
    /// The row that has it, or the nearest line inside.
    pub(crate) row: u32,
    /// Which of the row's lines that is.
    pub(crate) line: u32,
}

impl RowPlace {
    /// Where a line of component `c` is.
    #[inline(always)]
    pub(crate) fn of(layout: &Layout, c: usize, y: i32) -> RowPlace
        ensures place { IsRowPlace layout.now c result }
        ensures y { result.y ≡ y }
    {
        let sizes = layout.sizes();
        let line = clamped(y, component_side(c, sizes.height));
        RowPlace::of_line(c, y, line, sizes.height, sizes.ctb_log2)
    }

    /// That of a line inside the picture, which has so many luma lines and coding tree blocks of this size.
    #[inline(always)]
    fn of_line(c: usize, y: i32, line: u32, height: u32, ctb_log2: u32) -> RowPlace
        requires line { line < component_side c height }
        requires height { (height ≤ 8192) × (height % 8 ≡ 0) }
        requires size { (4 ≤ ctb_log2) × (ctb_log2 ≤ 6) }
        ensures y { result.y ≡ y }
        ensures row { result.row ≡ luma_line c line / 2 ^ ctb_log2 }
        ensures line { component_side c (result.row * 2 ^ ctb_log2) + result.line ≡ line }
        ensures inside { result.line < component_side c (min (2 ^ ctb_log2) (height - result.row * 2 ^ ctb_log2)) }
    {
        let luma = luma_line(c, line);
        let row = luma >> ctb_log2;
        let first = component_side(c, row << ctb_log2);
        RowPlace {
            y,
            row,
            line: line - first,
        }
    }
}
