//! The samples of the pictures that a picture refers to (8.5.3.3.3).

ghost use Rattle.std.specs.Prelude.{◌≡◌, ◌+◌, ◌-◌, ◌*◌, ◌^◌, ◌<◌, ◌≤◌, ℕ, ℤ, pos, ◌+ℤ◌, ◌≤ℤ◌, length, true, false};
ghost use Rattle.std.specs.Prelude.{Some};
ghost use Rattle.std.specs.List.{All};
ghost use Rattle.inter_pred.specs.Passes.{at, IsByte};
ghost use Rattle.unit_build.specs.InterSamples.{AreSmall};
ghost use Rattle.picture_buffer.specs.Planes.{plane_height, plane_width, samples_of};
ghost use Rattle.picture_build.specs.Pictures.{buffer_of, decoded_of};
ghost use Rattle.picture_build.specs.Formats.{HasDepths};
ghost use Rattle.spec_picture_build.specs.References.{greatest_sample, pictures_of, reference_sample};
ghost use Rattle.spec_reconstruction.specs.declared.format.UnitFormat.{UnitFormat};

use crate::held::{clamped_row, clear_window, component_window};
use header_types::Sps;
use inter_pred::{RefWindow, Window};
use picture_buffer::{Bases, Picture, Planes};

/// The pictures of the decoded picture buffer, by their places, for a picture that refers to them.
#[derive(Clone, Copy)]
pub struct References<'a> {
    /// The pictures of the buffer.
    pub bases: &'a Bases,
    /// That picture's sequence parameter set.
    pub sps: &'a Sps,
}

impl<'a> References<'a> {
    /// Those of a buffer, for a picture of this sequence parameter set. Their samples are in the range of its bit
    /// depths.
    pub fn new(bases: &'a Bases, sps: &'a Sps) -> References<'a>
        ensures value { result.bases.now ≡ bases.now }
        ensures sps { result.sps.now ≡ sps.now }
        ensures small { (format : UnitFormat) → HasDepths sps.now format
            → AreSmall format (pictures_of sps.now.format (buffer_of bases.now)) }
    {
        References { bases, sps }
    }
}

impl<'a> RefWindow for References<'a> {
    ghost use Rattle.picture_build.specs.Pictures.{buffer_of};
    ghost use Rattle.spec_picture_build.specs.References.{pictures_of};

    ghost reference_at = { λ r. pictures_of r.sps.now.format (buffer_of r.bases.now) };

    fn row(&mut self, picture: u32, component: u8, x: i32, y: i32, out: &mut [u16]) {
        match self.bases.get(picture) {
            Some(held) => picture_row(held, self.sps, component as usize, x, y, out),
            None => clear(out),
        }
    }

    fn window(&mut self, from: Window, out: &mut [u16; 5112]) {
        match self.bases.get(from.picture) {
            Some(held) => picture_window(held, self.sps, from, out),
            None => clear_window(out),
        }
    }
}

/// The greatest sample of component `c` of pictures of this sequence parameter set.
fn greatest_sample(sps: &Sps, c: usize) -> u16
    ensures { result ≡ greatest_sample sps.now.format c }
{
    let format = &sps.fields().format;
    let minus8 = if c == 0 {
        format.bit_depth_luma_minus8
    } else {
        format.bit_depth_chroma_minus8
    };
    greatest_of(minus8)
}

/// That of a bit depth less 8.
fn greatest_of(minus8: u32) -> u16
    requires { minus8 ≤ 2 }
    ensures { result ≡ 2 ^ (8 + minus8) - 1 }
{
    match minus8 {
        0 => 255,
        1 => 511,
        _ => 1023,
    }
}

/// The samples of a line of component `c` from a column on, for a picture of this sequence parameter set; 0 where it
/// has none.
fn picture_row(picture: &Picture, sps: &Sps, c: usize, x: i32, y: i32, out: &mut [u16])
    requires count { length out.old ≤ 71 }
    requires place { x ≤ℤ pos 1073741824 }
    ensures { (k : ℕ) → k < length out.old
        → at out.new k ≡ reference_sample sps.now.format (Some (decoded_of picture.now)) c (x +ℤ pos k) y }
{
    let _ = picture.format();
    let planes = picture.planes();
    if has_samples(planes, c) {
        let greatest = greatest_sample(sps, c);
        clamped_row(planes, c, greatest, x, y, out);
    } else {
        clear(out);
    }
}

/// The samples of a window, in lines of 72, for a picture of this sequence parameter set; 0 where it has none.
fn picture_window(picture: &Picture, sps: &Sps, from: Window, out: &mut [u16; 5112])
    requires size { (from.width ≤ 71) × (from.height ≤ 71) }
    requires place { (from.x ≤ℤ pos 1073741824) × (from.y ≤ℤ pos 1073741824) }
    ensures value { (i j : ℕ) → i < from.width → j < from.height
        → at out.new (72 * j + i)
        ≡ reference_sample sps.now.format (Some (decoded_of picture.now)) from.component (from.x +ℤ pos i)
        (from.y +ℤ pos j) }
    ensures bytes { ((x y : ℤ)
        → reference_sample sps.now.format (Some (decoded_of picture.now)) from.component x y < 256)
        → All IsByte out.old → All IsByte out.new }
{
    let _ = picture.format();
    let planes = picture.planes();
    if has_samples(planes, from.component as usize) {
        let greatest = greatest_sample(sps, from.component as usize);
        component_window(planes, greatest, from, out);
    } else {
        clear_window(out);
    }
}

/// Whether component `c` has samples.
#[tactic(auto, unfolding(picture_buffer::specs::Planes::samples_of, picture_buffer::specs::Planes::plane_at))]
fn has_samples(planes: &Planes, c: usize) -> bool
    ensures some { result ≡ true → (c < 3) × (0 < plane_width planes.now c) × (0 < plane_height planes.now c) }
    ensures none { result ≡ false → (x y : ℕ) → samples_of planes.now c x y ≡ 0 }
{
    c < 3 && planes.width(c) > 0 && planes.height(c) > 0
}

/// Samples where there is no picture.
fn clear(line: &mut [u16])
    ensures { (k : ℕ) → k < length line.old → at line.new k ≡ 0 }
{
    for k in 0..line.len() {
        line[k] = 0;
    }
}
