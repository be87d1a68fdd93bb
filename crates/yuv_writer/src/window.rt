//! The part of a plane that goes out.

ghost use Rattle.std.specs.Prelude.{◌≡◌, ℕ, ◌+◌, ◌/◌, ◌<◌, ◌≤◌};
ghost use Rattle.header_types.specs.SequenceParameterSets.{IsPictureFormat};
ghost use Rattle.spec_picture_build.specs.Output.{has_two_bytes, window_of, luma_samples};
ghost use Rattle.yuv_writer.specs.Parts.{below, row_size, LiesIn};

use header_types::PictureFormat;
use std::marker::Model;

/// A part of a plane, in samples of its component.
#[derive(Drop)]
pub(crate) struct PlaneWindow {
    /// Its first column in the plane.
    pub left: u32,
    /// Its first row in the plane.
    pub top: u32,
    /// How many columns it has.
    pub width: u32,
    /// How many rows it has.
    pub height: u32,
    /// Whether a sample goes out as two bytes.
    pub two_bytes: bool,
}

impl Model for PlaneWindow {
    ghost use Rattle.spec_picture_build.specs.Output.{Window};

    ghost Value = { Window };

    ghost view = { λ w. record {
      left = w.left;
      top = w.top;
      width = w.width;
      height = w.height;
      two_bytes = w.two_bytes;
    } };
}

impl PlaneWindow {
    /// So many of its rows, from one on.
    pub(crate) fn below(&self, first: u32, rows: u32) -> PlaneWindow
        requires { self.now.top + first < 65536 }
        ensures { result ≡ below self.now first rows }
    {
        PlaneWindow {
            left: self.left,
            top: self.top + first,
            width: self.width,
            height: rows,
            two_bytes: self.two_bytes,
        }
    }

    /// How many bytes a row of it has.
    #[tactic(auto, unfolding(crate::specs::Parts::size_of))]
    pub(crate) fn row_size(&self) -> u32
        requires { self.now.width ≤ 8192 }
        ensures value { result ≡ row_size self.now }
        ensures few { result ≤ 16384 }
    {
        if self.two_bytes {
            2 * self.width
        } else {
            self.width
        }
    }
}

/// Whether a sample of a picture goes out as two bytes.
fn has_two_bytes(format: &PictureFormat) -> bool
    ensures { result ≡ has_two_bytes format.now }
{
    format.bit_depth_luma_minus8 > 0 || format.bit_depth_chroma_minus8 > 0
}

/// The conformance window in samples of component `c`.
#[tactic(auto, unfolding(spec_picture_build::specs::Output::window_of))]
pub(crate) fn window_of(format: &PictureFormat, c: usize) -> PlaneWindow
    requires { IsPictureFormat format.now }
    ensures value { result ≡ window_of format.now c }
    ensures lies { LiesIn result (format.now.pic_width_in_luma_samples / luma_samples c)
        (format.now.pic_height_in_luma_samples / luma_samples c) }
{
    let width = format.pic_width_in_luma_samples;
    let height = format.pic_height_in_luma_samples;
    let luma_samples = if c == 0 { 1 } else { 2 };
    let two_bytes = has_two_bytes(format);
    match format.conformance_window {
        None => PlaneWindow {
            left: 0,
            top: 0,
            width: width / luma_samples,
            height: height / luma_samples,
            two_bytes,
        },
        Some(w) => PlaneWindow {
            left: 2 * w.conf_win_left_offset / luma_samples,
            top: 2 * w.conf_win_top_offset / luma_samples,
            width: (width - 2 * (w.conf_win_left_offset + w.conf_win_right_offset)) / luma_samples,
            height: (height - 2 * (w.conf_win_top_offset + w.conf_win_bottom_offset))
                / luma_samples,
            two_bytes,
        },
    }
}
