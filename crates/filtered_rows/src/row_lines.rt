//! The lines of a row of coding tree blocks in a component.

ghost use Rattle.std.specs.Prelude.{◌≡◌, ◌<◌, ◌≤◌, ◌+◌, ◌*◌};
ghost use Rattle.row_filters.specs.Lines.{count_of};
ghost use Rattle.sample_words.specs.Sizes.{rows};
ghost use Rattle.filtered_rows.specs.Components.{HasSidesOf};

use loop_filters::Component;
use sample_words::Layout;

/// The first line of a row.
#[inline(always)]
pub(crate) fn row_top(layout: &Layout, component: &Component, row: u32) -> usize
    requires component { HasSidesOf layout.now component.now }
    requires row { row < rows layout.now }
    ensures value { result ≡ component.now.size * row }
    ensures inside { result < component.now.height }
    ensures least { 8 ≤ component.now.size }
    ensures greatest { component.now.size ≤ 64 }
    ensures width { component.now.width ≤ 8192 }
    ensures height { component.now.height ≤ 8192 }
{
    let _side = layout.ctb_size();
    let _rows = layout.rows();
    component.size * row as usize
}

/// How many samples its lines have with so many on each side, as far as the component has them.
pub(crate) fn count_of(layout: &Layout, component: &Component, row: u32, beside: usize) -> usize
    requires component { HasSidesOf layout.now component.now }
    requires row { row < rows layout.now }
    requires beside { beside ≤ 4 }
    ensures value { result ≡ count_of component.now row beside }
    ensures few { result ≤ component.now.width * (64 + 2 * beside) }
{
    let top = row_top(layout, component, row);
    let first = top.saturating_sub(beside);
    let end = (top + component.size + beside).min(component.height);
    component.width * (end - first)
}
