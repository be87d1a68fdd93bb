//! The offsets of a row of coding tree blocks.

ghost use Rattle.std.specs.Prelude.{◌≡◌, ◌<◌, ◌≤◌, ◌+◌, ◌-◌, ◌*◌, ℕ, length, min, slice_index_or};
ghost use Rattle.deblock.specs.Windows.{at};
ghost use Rattle.spec_deblocking.specs.declared.place.Place.{Place};
ghost use Rattle.spec_loop_filters.specs.Filters.{offset_plane};
ghost use Rattle.spec_sample_adaptive_offset.specs.declared.unit.OffsetUnit.{OffsetUnit};
ghost use Rattle.spec_sample_adaptive_offset.specs.Plane.{offset_sample};
ghost use Rattle.loop_filters.specs.Formats.{IsComponent, IsFormat, filters_of};
ghost use Rattle.loop_filters.specs.Rows.{lines_of};
ghost use Rattle.row_filters.specs.Known.{AreKept, AreUnits};
ghost use Rattle.row_filters.specs.Lines.{HoldLines, HoldRow, count_of, first_line};

use loop_filters::{Component, FilterView};
use sao_filter::{OffsetRow, has_offset, sao_row};

/// Adds the offsets of a row of coding tree blocks to its deblocked samples, by deblocked lines: its own, with the one
/// above and the one below, where there are such.
fn offset_row<V: FilterView>(
    view: &V,
    component: &Component,
    row: usize,
    lines: &[u16],
    out: &mut [u16],
)
    requires format { IsFormat (V.shape view.now) }
    requires component { IsComponent (V.shape view.now) component.now }
    requires row { row < component.now.rows }
    requires lines { count_of component.now row 1 ≤ length lines.now }
    requires room { component.now.width * lines_of component.now row ≤ length out.old }
    ensures { (places : ℕ → ℕ → Place) (units : ℕ → ℕ → ℕ → OffsetUnit) (f : ℕ → ℕ → ℕ)
        → AreKept (V.shape view.now) row places (V.place_at view.now)
        → AreUnits (V.shape view.now) component.now.c row units (V.unit_at view.now)
        → HoldLines component.now row 1 f lines.now
        → (i j : ℕ) → i < component.now.width → j < lines_of component.now row
        → at component.now.width out.old i j ≡ f i (component.now.size * row + j)
        → at component.now.width out.new i j
        ≡ offset_sample (offset_plane (filters_of (V.shape view.now) places units) component.now.c) f i
        (component.now.size * row + j) }
{
    let offsets = OffsetRow {
        width: component.width,
        height: component.height,
        size: component.size,
        depth: component.depth,
        row,
        above: view.units(component.c, row.saturating_sub(1)),
        here: view.units(component.c, row),
        below: view.units(component.c, (row + 1).min(component.rows - 1)),
        place_log2: component.place_log2,
        places: component.places,
        kept: view.kept(row),
    };
    sao_row(&offsets, lines, out);
}

/// Copies samples to the begin of others.
fn copy_lines(samples: &[u16], out: &mut [u16])
    requires { length samples.now ≤ length out.old }
    ensures { (q : ℕ) → q < length samples.now → slice_index_or out.new q 0 ≡ slice_index_or samples.now q 0 }
{
    out[..samples.len()].copy_from_slice(samples);
}

/// Adds the offsets of a row of coding tree blocks to its deblocked samples, which are in its lines with the one above
/// and the one below them, where there are such. `lines` is room for a copy of these: neighbours are compared as they
/// were deblocked. A row without offsets stays as it is. What becomes of the lines beside the row is not told.
pub fn offset_lines<V: FilterView>(
    view: &V,
    component: &Component,
    row: usize,
    samples: &mut [u16],
    lines: &mut [u16],
)
    requires format { IsFormat (V.shape view.now) }
    requires component { IsComponent (V.shape view.now) component.now }
    requires row { row < component.now.rows }
    requires samples { length samples.old ≡ count_of component.now row 1 }
    requires room { count_of component.now row 1 ≤ length lines.old }
    ensures { (places : ℕ → ℕ → Place) (units : ℕ → ℕ → ℕ → OffsetUnit) (f : ℕ → ℕ → ℕ)
        → AreKept (V.shape view.now) row places (V.place_at view.now)
        → AreUnits (V.shape view.now) component.now.c row units (V.unit_at view.now)
        → HoldLines component.now row 1 f samples.old
        → HoldRow component.now row 1
        (offset_sample (offset_plane (filters_of (V.shape view.now) places units) component.now.c) f) samples.new }
{
    if has_offset(view.units(component.c, row)) {
        let width = component.width;
        let top = component.size * row;
        copy_lines(samples, lines);
        let above = top.min(1);
        let behind = above + component.size.min(component.height - top);
        offset_row(
            view,
            component,
            row,
            lines,
            &mut samples[width * above..width * behind],
        );
    }
}
