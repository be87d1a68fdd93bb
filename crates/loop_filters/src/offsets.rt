//! The offsets of a plane.

ghost use Rattle.std.specs.Prelude.{◌≡◌, ◌<◌, ◌≤◌, ◌+◌, ◌-◌, ◌*◌, ◌&&◌, ℕ, cond, length, min, nat_le, nat_lt};
ghost use Rattle.std.specs.Prelude.{slice_index_or};
ghost use Rattle.deblock.specs.Windows.{at};
ghost use Rattle.spec_loop_filters.specs.Filters.{offset_plane};
ghost use Rattle.spec_sample_adaptive_offset.specs.Plane.{offset_sample};
ghost use Rattle.loop_filters.specs.Formats.{IsComponent, filters_of};
ghost use Rattle.loop_filters.specs.Rows.{StandsAround, lines_of};

use crate::component::Component;
use crate::copying::copy_part;
use crate::view::FilterView;
use sao_filter::{OffsetRow, has_offset, sao_row};

/// Adds the offsets of a row of coding tree blocks to its deblocked samples, by deblocked lines: its own, with the one
/// above and the one below, where there are such.
fn offset_row<V: FilterView>(
    view: &V,
    component: &Component,
    row: usize,
    lines: &[u16],
    out: &mut [u16],
)
    requires component { IsComponent (V.shape view.now) component.now }
    requires row { row < component.now.rows }
    requires lines { component.now.width * (min (component.now.size * row + component.now.size + 1) component.now.height
        - (component.now.size * row - 1)) ≤ length lines.now }
    requires room { component.now.width * lines_of component.now row ≤ length out.old }
    ensures { (f : ℕ → ℕ → ℕ)
        → ((x y : ℕ) → x < component.now.width → y < component.now.height → component.now.size * row ≤ y + 1
        → y ≤ component.now.size * row + component.now.size
        → f x y ≡ at component.now.width lines.now x (y - (component.now.size * row - 1)))
        → (i j : ℕ) → i < component.now.width → j < lines_of component.now row
        → at component.now.width out.old i j ≡ f i (component.now.size * row + j)
        → at component.now.width out.new i j
        ≡ offset_sample
        (offset_plane (filters_of (V.shape view.now) (V.place_at view.now) (V.unit_at view.now)) component.now.c)
        f i (component.now.size * row + j) }
{
    let offsets = OffsetRow {
        width: component.width,
        height: component.height,
        size: component.size,
        depth: component.depth,
        row,
        above: view.units(component.c, row.saturating_sub(1)),
        here: view.units(component.c, row),
        below: view.units(component.c, (row + 1).min(component.rows - 1)),
        place_log2: component.place_log2,
        places: component.places,
        kept: view.kept(row),
    };
    sao_row(&offsets, lines, out);
}

/// Gathers the lines that a row of coding tree blocks from line `top` on reads: the one above it from `last`, the
/// others from the plane.
fn gather_lines(component: &Component, top: usize, samples: &[u16], last: &[u16], lines: &mut [u16])
    requires width { component.now.width ≤ 8192 }
    requires size { component.now.size ≤ 64 }
    requires height { component.now.height ≤ 8192 }
    requires begins { top < component.now.height }
    requires samples { length samples.now ≡ component.now.width * component.now.height }
    requires last { component.now.width ≤ length last.now }
    requires room { component.now.width * 66 ≤ length lines.old }
    ensures own { (x y : ℕ) → x < component.now.width → y < component.now.height → top ≤ y
        → y ≤ top + component.now.size
        → at component.now.width lines.new x (y - (top - 1)) ≡ at component.now.width samples.now x y }
    ensures above { 0 < top → (x : ℕ) → x < component.now.width
        → at component.now.width lines.new x 0 ≡ slice_index_or last.now x 0 }
{
    let behind = (top + component.size + 1).min(component.height);
    let count = component.width * (behind - top);
    copy_part(
        samples,
        component.width * top,
        count,
        lines,
        component.width * top.min(1),
    );
    if 0 < top {
        copy_part(last, 0, component.width, lines, 0);
    }
}

/// Adds the offsets of a row of coding tree blocks to a plane that is deblocked from the row's first line to the one
/// below it. `last` has the last deblocked line above the row, and then that of the row.
pub fn offset_lines<V: FilterView>(
    view: &V,
    component: &Component,
    row: usize,
    samples: &mut [u16],
    lines: &mut [u16],
    last: &mut [u16],
)
    requires component { IsComponent (V.shape view.now) component.now }
    requires row { row < component.now.rows }
    requires samples { length samples.old ≡ component.now.width * component.now.height }
    requires lines { component.now.width * 66 ≤ length lines.old }
    requires last { component.now.width ≤ length last.old }
    ensures value { (f : ℕ → ℕ → ℕ) → StandsAround component.now row f samples.old last.old
        → (x y : ℕ) → x < component.now.width → y < component.now.height
        → at component.now.width samples.new x y
        ≡ cond (nat_le (component.now.size * row) y && nat_lt y (component.now.size * row + component.now.size))
        (offset_sample
        (offset_plane (filters_of (V.shape view.now) (V.place_at view.now) (V.unit_at view.now)) component.now.c)
        f x y)
        (at component.now.width samples.old x y) }
    ensures last { (f : ℕ → ℕ → ℕ) → StandsAround component.now row f samples.old last.old
        → (x : ℕ) → x < component.now.width → component.now.size * row + component.now.size ≤ component.now.height
        → slice_index_or last.new x 0 ≡ f x (component.now.size * row + component.now.size - 1) }
{
    let width = component.width;
    let top = component.size * row;
    let end = (top + component.size).min(component.height);
    if has_offset(view.units(component.c, row)) {
        gather_lines(component, top, samples, last, lines);
        copy_part(samples, width * (end - 1), width, last, 0);
        offset_row(
            view,
            component,
            row,
            lines,
            &mut samples[width * top..width * end],
        );
    } else {
        copy_part(samples, width * (end - 1), width, last, 0);
    }
}
