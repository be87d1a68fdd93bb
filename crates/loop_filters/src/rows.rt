//! The rows of coding tree blocks of a plane, one after the other.

ghost use Rattle.std.specs.Prelude.{◌≡◌, ◌<◌, ◌≤◌, ◌+◌, ◌-◌, ◌*◌, ◌^◌, ℕ, length};
ghost use Rattle.deblock.specs.Samples.{IsBounded};
ghost use Rattle.deblock.specs.Windows.{at};
ghost use Rattle.loop_filters.specs.Formats.{IsComponent};
ghost use Rattle.loop_filters.specs.Rows.{IsBetween, filtered_of};

use crate::component::Component;
use crate::edges::filter_edges;
use crate::offsets::offset_lines;
use crate::view::FilterView;

/// Filters the edges of a row, and then adds the offsets of the row above it, all of whose lines are deblocked.
fn filter_row<V: FilterView>(
    view: &V,
    component: &Component,
    row: usize,
    samples: &mut [u16],
    lines: &mut [u16],
    last: &mut [u16],
)
    requires component { IsComponent (V.shape view.now) component.now }
    requires row { row < component.now.rows }
    requires samples { length samples.old ≡ component.now.width * component.now.height }
    requires bounded { IsBounded (2 ^ component.now.depth - 1) samples.old }
    requires lines { component.now.width * 66 ≤ length lines.old }
    requires last { component.now.width ≤ length last.old }
    ensures { (before : ℕ → ℕ → ℕ)
        → IsBetween (V.shape view.now) component.now (V.place_at view.now) (V.unit_at view.now) before row samples.old
        last.old
        → IsBetween (V.shape view.now) component.now (V.place_at view.now) (V.unit_at view.now) before (row + 1)
        samples.new last.new }
{
    filter_edges(view, component, row, samples);
    if 0 < row {
        offset_lines(view, component, row - 1, samples, lines, last);
    }
}

/// Takes a plane through its filters, row by row: so most samples are filtered while they are at hand.
pub fn filter_rows<V: FilterView>(
    view: &V,
    component: &Component,
    samples: &mut [u16],
    lines: &mut [u16],
    last: &mut [u16],
)
    requires component { IsComponent (V.shape view.now) component.now }
    requires samples { length samples.old ≡ component.now.width * component.now.height }
    requires bounded { IsBounded (2 ^ component.now.depth - 1) samples.old }
    requires lines { component.now.width * 66 ≤ length lines.old }
    requires last { component.now.width ≤ length last.old }
    ensures { (x y : ℕ) → x < component.now.width → y < component.now.height
        → at component.now.width samples.new x y
        ≡ filtered_of (V.shape view.now) component.now (V.place_at view.now) (V.unit_at view.now)
        (at component.now.width samples.old) x y }
{
    for row in 0..component.rows {
        filter_row(view, component, row, samples, lines, last);
    }
    offset_lines(view, component, component.rows - 1, samples, lines, last);
}
