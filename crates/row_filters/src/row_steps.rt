//! All loop filters of a row of coding tree blocks, one after the other.

ghost use Rattle.std.specs.Prelude.{◌≡◌, ◌<◌, ◌≤◌, ◌-◌, ◌^◌, ℕ, length};
ghost use Rattle.deblock.specs.Samples.{IsBounded};
ghost use Rattle.spec_deblocking.specs.declared.place.Place.{Place};
ghost use Rattle.spec_loop_filters.specs.Filters.{offset_plane};
ghost use Rattle.spec_sample_adaptive_offset.specs.declared.unit.OffsetUnit.{OffsetUnit};
ghost use Rattle.spec_sample_adaptive_offset.specs.Plane.{offset_sample};
ghost use Rattle.filter_locality_laws.specs.Rows.{behind_horizontal, behind_vertical};
ghost use Rattle.loop_filters.specs.Formats.{IsComponent, IsFormat, filters_of};
ghost use Rattle.row_filters.specs.Known.{AreKept, ArePlaces, AreUnits};
ghost use Rattle.row_filters.specs.Lines.{HoldLines, HoldRow, count_of};

use crate::edges::{horizontal_lines, vertical_lines};
use crate::offsets::offset_lines;
use loop_filters::{Component, FilterView};

/// Adds the offsets of a row to its deblocked samples, which are in its lines with four above and four below them. Of
/// these, the lines with one above and one below are taken.
fn offset_among<V: FilterView>(
    view: &V,
    component: &Component,
    row: usize,
    samples: &mut [u16],
    copy: &mut [u16],
)
    requires format { IsFormat (V.shape view.now) }
    requires component { IsComponent (V.shape view.now) component.now }
    requires row { row < component.now.rows }
    requires samples { length samples.old ≡ count_of component.now row 4 }
    requires copy { count_of component.now row 1 ≤ length copy.old }
    ensures { (places : ℕ → ℕ → Place) (units : ℕ → ℕ → ℕ → OffsetUnit) (f : ℕ → ℕ → ℕ)
        → AreKept (V.shape view.now) row places (V.place_at view.now)
        → AreUnits (V.shape view.now) component.now.c row units (V.unit_at view.now)
        → HoldLines component.now row 4 f samples.old
        → HoldRow component.now row 4
        (offset_sample (offset_plane (filters_of (V.shape view.now) places units) component.now.c) f) samples.new }
{
    let width = component.width;
    let top = component.size * row;
    let above = top.min(4) - top.min(1);
    let end = (top + component.size + 1).min(component.height);
    let behind = above + (end - top.saturating_sub(1));
    offset_lines(
        view,
        component,
        row,
        &mut samples[width * above..width * behind],
        copy,
    );
}

/// Takes a row of coding tree blocks through all loop filters, in its lines as they are built with four above and four
/// below them, where there are such. `copy` is room for the lines with one above and one below. What becomes of the
/// lines beside the row is not told.
pub fn final_lines<V: FilterView>(
    view: &V,
    component: &Component,
    row: usize,
    samples: &mut [u16],
    copy: &mut [u16],
)
    requires format { IsFormat (V.shape view.now) }
    requires component { IsComponent (V.shape view.now) component.now }
    requires row { row < component.now.rows }
    requires samples { length samples.old ≡ count_of component.now row 4 }
    requires bounded { IsBounded (2 ^ component.now.depth - 1) samples.old }
    requires copy { count_of component.now row 1 ≤ length copy.old }
    ensures { (places : ℕ → ℕ → Place) (units : ℕ → ℕ → ℕ → OffsetUnit) (f : ℕ → ℕ → ℕ)
        → ArePlaces (V.shape view.now) row 2 places (V.place_at view.now)
        → AreUnits (V.shape view.now) component.now.c row units (V.unit_at view.now)
        → HoldLines component.now row 4 f samples.old
        → HoldRow component.now row 4
        (offset_sample (offset_plane (filters_of (V.shape view.now) places units) component.now.c)
        (behind_horizontal (V.shape view.now) places component.now.c
        (behind_vertical (V.shape view.now) places component.now.c f)))
        samples.new }
{
    vertical_lines(view, component, row, samples);
    horizontal_lines(view, component, row, samples);
    offset_among(view, component, row, samples, copy);
}
