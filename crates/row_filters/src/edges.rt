//! The edges of a row of coding tree blocks.

ghost use Rattle.std.specs.Prelude.{◌≡◌, ◌<◌, ◌≤◌, ◌-◌, ◌+◌, ◌*◌, ◌^◌, ℕ, length};
ghost use Rattle.deblock.specs.Samples.{IsBounded};
ghost use Rattle.spec_deblocking.specs.declared.place.Place.{Place};
ghost use Rattle.filter_locality_laws.specs.Rows.{behind_horizontal, behind_vertical};
ghost use Rattle.loop_filters.specs.Formats.{IsComponent, IsFormat};
ghost use Rattle.row_filters.specs.Known.{ArePlaces};
ghost use Rattle.row_filters.specs.Lines.{HoldLines, count_of};

use crate::lines::{all_lines, row_around};
use deblock::{horizontal_row, vertical_row};
use loop_filters::{Component, FilterView};

/// Filters the vertical edges of a row of coding tree blocks, in its lines with four above and four below them, where
/// there are such.
pub fn vertical_lines<V: FilterView>(
    view: &V,
    component: &Component,
    row: usize,
    samples: &mut [u16],
)
    requires format { IsFormat (V.shape view.now) }
    requires component { IsComponent (V.shape view.now) component.now }
    requires row { row < component.now.rows }
    requires samples { length samples.old ≡ count_of component.now row 4 }
    requires bounded { IsBounded (2 ^ component.now.depth - 1) samples.old }
    ensures value { (places : ℕ → ℕ → Place) (f : ℕ → ℕ → ℕ)
        → ArePlaces (V.shape view.now) row 2 places (V.place_at view.now)
        → HoldLines component.now row 4 f samples.old
        → HoldLines component.now row 4 (behind_vertical (V.shape view.now) places component.now.c f) samples.new }
    ensures bounded { IsBounded (2 ^ component.now.depth - 1) samples.new }
{
    let lines = all_lines(component, row);
    vertical_row(view, &lines, samples);
}

/// Filters the horizontal edges of a row of coding tree blocks, in its lines behind vertical edges with four above and
/// four below them, where there are such. The edge at its top changes its first lines and those above them, and the
/// edge below the row its last ones and those below them.
pub fn horizontal_lines<V: FilterView>(
    view: &V,
    component: &Component,
    row: usize,
    samples: &mut [u16],
)
    requires format { IsFormat (V.shape view.now) }
    requires component { IsComponent (V.shape view.now) component.now }
    requires row { row < component.now.rows }
    requires samples { length samples.old ≡ count_of component.now row 4 }
    requires bounded { IsBounded (2 ^ component.now.depth - 1) samples.old }
    ensures value { (places : ℕ → ℕ → Place) (f : ℕ → ℕ → ℕ)
        → ArePlaces (V.shape view.now) row 1 places (V.place_at view.now)
        → HoldLines component.now row 4 f samples.old
        → HoldLines component.now row 4 (behind_horizontal (V.shape view.now) places component.now.c f) samples.new }
    ensures bounded { IsBounded (2 ^ component.now.depth - 1) samples.new }
{
    let lines = row_around(component, row, 4);
    horizontal_row(view, &lines, samples);
}
