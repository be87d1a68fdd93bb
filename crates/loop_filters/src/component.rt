//! A component of a picture.

ghost use Rattle.std.specs.Prelude.{◌<◌, ◌≡◌, ℕ};
ghost use Rattle.spec_loop_filters.specs.Filters.{plane_of, depth_of, width_of, height_of, size_of};
ghost use Rattle.loop_filters.specs.Formats.{IsComponent, IsFormat, halved};

use spec_loop_filters::{FilterFormat, Plane};

/// A component of a picture. Sides are in its own samples.
#[derive(Clone, Copy)]
pub struct Component {
    /// 0 for luma, 1 for Cb, 2 for Cr.
    pub c: usize,
    /// Luma or chroma, as deblocking takes it.
    pub plane: Plane,
    /// The bit depth, from 8 to 14.
    pub depth: u32,
    /// The columns of the picture.
    pub width: usize,
    /// The lines of the picture.
    pub height: usize,
    /// The side of a coding tree block.
    pub size: usize,
    /// The side of a place, as a power of 2.
    pub place_log2: u32,
    /// The places of a line.
    pub places: usize,
    /// The rows of coding tree blocks.
    pub rows: usize,
}

/// Component `c` of a picture.
pub fn component_of(format: &FilterFormat, c: usize) -> Component
    requires format { IsFormat format.now }
    requires component { c < 3 }
    ensures component { IsComponent format.now result }
    ensures c { result.c ≡ c }
{
    let luma = Component {
        c,
        plane: Plane::Luma,
        depth: format.luma_depth,
        width: format.width,
        height: format.height,
        size: format.ctb_size,
        place_log2: 2,
        places: format.width / 4,
        rows: (format.height + format.ctb_size - 1) / format.ctb_size,
    };
    match c {
        0 => luma,
        1 => halved(format, luma, format.pps_cb_qp_offset),
        _ => halved(format, luma, format.pps_cr_qp_offset),
    }
}

/// A component of chroma, by what luma has.
fn halved(format: &FilterFormat, luma: Component, qp_pic_offset: i8) -> Component
    ensures { result ≡ halved format.now luma qp_pic_offset }
{
    Component {
        plane: Plane::Chroma { qp_pic_offset },
        depth: format.chroma_depth,
        width: luma.width / 2,
        height: luma.height / 2,
        size: luma.size / 2,
        place_log2: 1,
        ..luma
    }
}
