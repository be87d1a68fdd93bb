//! The filters of a plane, one after the other.

ghost use Rattle.std.specs.Prelude.{◌≡◌, ◌<◌, ◌≤◌, ◌-◌, ◌*◌, ◌==◌, ◌^◌, ℕ, false, length};
ghost use Rattle.picture_buffer.specs.Planes.{HasSides, samples_of};
ghost use Rattle.spec_loop_filters.specs.Filters.{final_samples};
ghost use Rattle.loop_filters.specs.Formats.{IsComponent, filters_of};

use crate::component::Component;
use crate::rows::filter_rows;
use crate::view::FilterView;
use picture_buffer::Planes;
use spec_loop_filters::FilterFormat;

/// Takes a component of a picture through its filters, with room for 66 lines and for one.
pub(crate) fn filter_plane<V: FilterView>(
    view: &V,
    format: &FilterFormat,
    component: &Component,
    lines: &mut [u16],
    last: &mut [u16],
    planes: &mut Planes,
)
    requires shape { V.shape view.now ≡ format.now }
    requires component { IsComponent format.now component.now }
    requires sides { HasSides planes.old format.now.width format.now.height }
    requires bounded { (x y : ℕ) → samples_of planes.old component.now.c x y ≤ 2 ^ component.now.depth - 1 }
    requires lines { component.now.width * 66 ≤ length lines.old }
    requires last { component.now.width ≤ length last.old }
    ensures value { (x y : ℕ) → x < component.now.width → y < component.now.height
        → samples_of planes.new component.now.c x y
        ≡ final_samples (filters_of format.now (V.place_at view.now) (V.unit_at view.now))
        (samples_of planes.old) component.now.c x y }
    ensures others { (i x y : ℕ) → (i == component.now.c) ≡ false
        → samples_of planes.new i x y ≡ samples_of planes.old i x y }
    ensures sides { HasSides planes.new format.now.width format.now.height }
{
    let samples = planes.samples_mut(component.c);
    filter_rows(view, component, samples, lines, last);
}
