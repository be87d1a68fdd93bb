//! The loop filters of a picture.

ghost use Rattle.std.specs.Prelude.{◌≡◌, ◌<◌, ◌≤◌, ◌-◌, ◌^◌, ℕ};
ghost use Rattle.picture_buffer.specs.Planes.{HasSides, samples_of};
ghost use Rattle.spec_loop_filters.specs.Filters.{depth_of, final_samples, height_of, width_of};
ghost use Rattle.loop_filters.specs.Formats.{IsFormat, filters_of};
ghost use Rattle.loop_filters.specs.Scratch.{HasRoom};

use crate::component::component_of;
use crate::scratch::FilterScratch;
use crate::view::FilterView;
use picture_buffer::Planes;
use spec_loop_filters::FilterFormat;

/// Takes each component of a picture through its filters, by what `view` knows of its places and units. It takes no
/// memory.
pub fn filter_picture<V: FilterView>(
    view: &V,
    format: &FilterFormat,
    scratch: &mut FilterScratch,
    planes: &mut Planes,
)
    requires shape { V.shape view.now ≡ format.now }
    requires format { IsFormat format.now }
    requires sides { HasSides planes.old format.now.width format.now.height }
    requires bounded { (c x y : ℕ) → c < 3 → samples_of planes.old c x y ≤ 2 ^ depth_of format.now c - 1 }
    requires room { HasRoom scratch.old format.now.width format.now.height }
    ensures value { (c x y : ℕ) → c < 3 → x < width_of format.now c → y < height_of format.now c
        → samples_of planes.new c x y
        ≡ final_samples (filters_of format.now (V.place_at view.now) (V.unit_at view.now))
        (samples_of planes.old) c x y }
    ensures sides { HasSides planes.new format.now.width format.now.height }
    ensures room { HasRoom scratch.new format.now.width format.now.height }
{
    for c in 0..3 {
        let component = component_of(format, c);
        scratch.filter_component(view, format, &component, planes);
    }
}
