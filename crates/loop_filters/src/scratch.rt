//! Memory for lines of the components of a picture, while their offsets are added.

ghost use Rattle.std.specs.Prelude.{◌≡◌, ◌<◌, ◌≤◌, ◌-◌, ◌==◌, ◌^◌, ℕ, IfOk, false};
ghost use Rattle.picture_buffer.specs.Planes.{HasSides, samples_of};
ghost use Rattle.spec_loop_filters.specs.Filters.{final_samples};
ghost use Rattle.loop_filters.specs.Formats.{IsComponent, filters_of};
ghost use Rattle.loop_filters.specs.Scratch.{HasRoom};

use crate::component::Component;
use crate::joining::filter_plane;
use crate::view::FilterView;
use picture_buffer::Planes;
use spec_loop_filters::FilterFormat;
use std::alloc::{AllocError, Global};
use std::marker::Model;

/// The most lines that the offsets of a row of coding tree blocks read: its own 64, one above and one below.
const MOST_LINES: usize = 66;

/// Room for the deblocked lines that the offsets of a row of coding tree blocks read, and for the last one of the row
/// before. It serves one picture after the other. Contracts see of how many columns the lines may be, and nothing of
/// what stands in them.
#[derive(Drop)]
pub struct FilterScratch {
    lines: Vec<u16>,
    last: Vec<u16>,
}

impl Model for FilterScratch {
    ghost use Rattle.std.specs.Prelude.{◌≤◌, ◌*◌, ℕ, vec_len};

    ghost Value = { ℕ };

    ghost view = { λ s. vec_len s.last };

    ghost invariant = { λ s. vec_len s.last * 66 ≤ vec_len s.lines };
}

impl FilterScratch {
    /// Room for no sample. It takes no memory.
    pub fn new(alloc: Global) -> FilterScratch
        ensures { result ≡ 0 }
    {
        FilterScratch {
            lines: Vec::new(alloc),
            last: Vec::new(alloc),
        }
    }

    /// Room for pictures of `width` luma columns: what there was, where it is enough.
    pub fn fitted(self, alloc: Global, width: u32) -> Result<FilterScratch, AllocError>
        requires { width ≤ 8192 }
        ensures { IfOk result (λ s. width ≤ s) }
    {
        let columns = width as usize;
        if columns <= self.last.len() {
            return Ok(self);
        }
        let lines = vec![in alloc; 0; columns * MOST_LINES]?;
        let last = vec![in alloc; 0; columns]?;
        Ok(FilterScratch { lines, last })
    }

    /// Takes a component of a picture through its filters.
    pub(crate) fn filter_component<V: FilterView>(
        &mut self,
        view: &V,
        format: &FilterFormat,
        component: &Component,
        planes: &mut Planes,
    )
        requires shape { V.shape view.now ≡ format.now }
        requires component { IsComponent format.now component.now }
        requires sides { HasSides planes.old format.now.width format.now.height }
        requires bounded { (x y : ℕ) → samples_of planes.old component.now.c x y ≤ 2 ^ component.now.depth - 1 }
        requires room { HasRoom self.old format.now.width format.now.height }
        ensures value { (x y : ℕ) → x < component.now.width → y < component.now.height
            → samples_of planes.new component.now.c x y
            ≡ final_samples (filters_of format.now (V.place_at view.now) (V.unit_at view.now))
            (samples_of planes.old) component.now.c x y }
        ensures others { (i x y : ℕ) → (i == component.now.c) ≡ false
            → samples_of planes.new i x y ≡ samples_of planes.old i x y }
        ensures sides { HasSides planes.new format.now.width format.now.height }
        ensures room { self.new ≡ self.old }
    {
        filter_plane(
            view,
            format,
            component,
            &mut self.lines,
            &mut self.last,
            planes,
        );
    }
}
