//! The edges of a row of coding tree blocks.

ghost use Rattle.std.specs.Prelude.{◌≡◌, ◌<◌, ◌≤◌, ◌+◌, ◌-◌, ◌*◌, ◌%◌, ◌^◌, ℕ, length};
ghost use Rattle.deblock.specs.Samples.{IsBounded};
ghost use Rattle.loop_filters.specs.Formats.{IsPlane};
ghost use Rattle.loop_filters.specs.Rows.{IsStage, row_of};

use crate::component::Component;
use deblock::{PlaceView, Row, horizontal_row, vertical_row};

/// A row of coding tree blocks of a plane, all of whose lines are there.
fn row_of(component: &Component, row: usize) -> Row
    requires component { IsPlane component.now }
    requires row { component.now.size * row < component.now.height }
    requires size { component.now.size ≤ 64 }
    ensures { result ≡ row_of component.now row }
{
    let top = component.size * row;
    Row {
        plane: component.plane,
        bit_depth: component.depth,
        width: component.width,
        height: component.height,
        first: 0,
        end: component.height,
        top,
        bottom: (top + component.size).min(component.height),
    }
}

/// Filters the vertical edges of a row of coding tree blocks, and then its horizontal ones, where the edges of all rows
/// above it are filtered and those below it aren't. The row's last four lines wait for the row below.
pub fn filter_edges<V: PlaceView>(view: &V, component: &Component, row: usize, samples: &mut [u16])
    requires component { IsPlane component.now }
    requires size { component.now.size ≤ 64 }
    requires grid { component.now.size % 8 ≡ 0 }
    requires row { component.now.size * row < component.now.height }
    requires samples { length samples.old ≡ component.now.width * component.now.height }
    requires bounded { IsBounded (2 ^ component.now.depth - 1) samples.old }
    ensures value { (done : ℕ) (before behind : ℕ → ℕ → ℕ) → done ≤ component.now.size * row - 4
        → IsStage component.now (V.place_at view.now) before behind done (component.now.size * row)
        (component.now.size * row) samples.old
        → IsStage component.now (V.place_at view.now) before behind done (component.now.size * row + component.now.size)
        (component.now.size * row + component.now.size) samples.new }
    ensures bounded { IsBounded (2 ^ component.now.depth - 1) samples.new }
{
    let row = row_of(component, row);
    vertical_row(view, &row, samples);
    horizontal_row(view, &row, samples);
}
