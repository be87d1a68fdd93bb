//! Lines in memory as a row of a plane.

ghost use Rattle.std.specs.Prelude.{◌≡◌, ◌<◌, ◌≤◌, ◌+◌, ◌-◌, ◌*◌, ◌^◌, ◌%◌, min, ℕ};
ghost use Rattle.loop_filters.specs.Formats.{IsPlane};
ghost use Rattle.row_filters.specs.Lines.{all_lines, end_line, first_line, row_around};

use deblock::Row;
use loop_filters::Component;

/// The lines of a row of coding tree blocks and so many on each side, as far as the plane has them: a row of the plane
/// that ends with the last of these lines.
pub(crate) fn row_around(component: &Component, row: usize, beside: usize) -> Row
    requires component { IsPlane component.now }
    requires row { component.now.size * row < component.now.height }
    requires size { component.now.size ≤ 64 }
    requires beside { beside ≤ 4 }
    ensures { result ≡ row_around component.now row beside }
{
    let top = component.size * row;
    let end = (top + component.size + beside).min(component.height);
    Row {
        plane: component.plane,
        bit_depth: component.depth,
        width: component.width,
        height: component.height,
        first: top.saturating_sub(beside),
        end,
        top,
        bottom: end,
    }
}

/// The same lines with four on each side, all of them as the row's own.
pub(crate) fn all_lines(component: &Component, row: usize) -> Row
    requires component { IsPlane component.now }
    requires row { component.now.size * row < component.now.height }
    requires size { component.now.size ≤ 64 }
    ensures { result ≡ all_lines component.now row }
{
    let around = row_around(component, row, 4);
    Row {
        top: around.first,
        ..around
    }
}
