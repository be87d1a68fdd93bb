//! The samples of a picture.

ghost use Rattle.std.specs.Prelude.{◌≡◌, ℕ, ◌+◌, ◌-◌, ◌*◌, ◌<◌, ◌≤◌, ◌==◌, ◌&&◌, nat_le, nat_lt, length, IfOk};
ghost use Rattle.std.specs.Prelude.{slice_index, slice_index_or, if◌then◌else◌};
ghost use Rattle.picture_buffer.specs.Planes.{samples_of, plane_samples, plane_width, plane_height, HasSides};

use crate::plane::Plane;
use std::alloc::{AllocError, Global};
use std::marker::Model;

/// The planes of a picture: luma, and Cb and Cr of half as many samples across and down. Components are counted 0, 1
/// and 2.
#[derive(Drop)]
pub struct Planes {
    luma: Plane,
    cb: Plane,
    cr: Plane,
}

impl Model for Planes {
    ghost use Rattle.picture_buffer.specs.Planes.{PictureSamples};

    ghost Value = { PictureSamples };

    ghost view = { λ p. record { luma = p.luma; cb = p.cb; cr = p.cr } };
}

impl Planes {
    ghost use Rattle.std.specs.Borrow.{sem};
    ghost use Rattle.picture_buffer.specs.PictureLending.{LendsComponent};

    /// Planes of zeros of `width` times `height` luma samples.
    #[tactic(auto, unfolding(crate::specs::Planes::samples_of))]
    pub fn new(alloc: Global, width: u32, height: u32) -> Result<Planes, AllocError>
        requires columns { width ≤ 8192 }
        requires rows { height ≤ 8192 }
        ensures sides { IfOk result (λ p. HasSides p width height) }
        ensures samples { IfOk result (λ p. (c x y : ℕ) → samples_of p c x y ≡ 0) }
    {
        let luma = Plane::new(alloc, width, height)?;
        let cb = Plane::new(alloc, width / 2, height / 2)?;
        let cr = Plane::new(alloc, width / 2, height / 2)?;
        Ok(Planes { luma, cb, cr })
    }

    /// All samples are 0 again. It takes no memory.
    #[tactic(auto, unfolding(crate::specs::Planes::samples_of))]
    pub fn restart(&mut self)
        ensures sides { (width height : ℕ) → HasSides self.old width height → HasSides self.new width height }
        ensures samples { (c x y : ℕ) → samples_of self.new c x y ≡ 0 }
    {
        self.luma.restart();
        self.cb.restart();
        self.cr.restart();
    }

    /// How many samples a row of component `c` has.
    pub fn width(&self, c: usize) -> u32
        requires { c < 3 }
        ensures { result ≡ plane_width self.now c }
    {
        match c {
            0 => self.luma.width(),
            1 => self.cb.width(),
            _ => self.cr.width(),
        }
    }

    /// How many rows component `c` has.
    pub fn height(&self, c: usize) -> u32
        requires { c < 3 }
        ensures { result ≡ plane_height self.now c }
    {
        match c {
            0 => self.luma.height(),
            1 => self.cb.height(),
            _ => self.cr.height(),
        }
    }

    /// Row `y` of component `c`.
    #[tactic(auto, unfolding(crate::specs::Planes::samples_of))]
    pub fn row(&self, c: usize, y: u32) -> &[u16]
        requires component { c < 3 }
        requires row { y < plane_height self.now c }
        ensures count { length result.now ≡ plane_width self.now c }
        ensures samples { (x : ℕ) → x < plane_width self.now c
            → slice_index_or result.now x 0 ≡ samples_of self.now c x y }
    {
        match c {
            0 => self.luma.row(y),
            1 => self.cb.row(y),
            _ => self.cr.row(y),
        }
    }

    /// Samples over a part of row `y` of component `c`, from column `x` on.
    #[tactic(auto, unfolding(crate::specs::Planes::samples_of))]
    pub fn lay(&mut self, c: usize, x: u32, y: u32, samples: &[u16])
        requires component { c < 3 }
        requires columns { x + length samples.now ≤ plane_width self.old c }
        requires row { y < plane_height self.old c }
        ensures sides { (w h : ℕ) → HasSides self.old w h → HasSides self.new w h }
        ensures samples { (i j k : ℕ) → samples_of self.new i j k
            ≡ (if i == c && (k == y && (nat_le x j && nat_lt j (x + length samples.now)))
            then slice_index samples.now (j - x)
            else samples_of self.old i j k) }
    {
        match c {
            0 => self.luma.lay(x, y, samples),
            1 => self.cb.lay(x, y, samples),
            _ => self.cr.lay(x, y, samples),
        }
    }

    /// The samples of component `c`, row after row, for writing.
    pub fn samples_mut(&mut self, c: usize) -> &mut [u16]
        requires { c < 3 }
        ensures* writes_back { sem 𝓛 (LendsComponent self.entry c result) }
        ensures value { result.now ≡ plane_samples self.old c }
        ensures count { length result.now ≡ plane_width self.old c * plane_height self.old c }
    {
        match c {
            0 => self.luma.samples_mut(),
            1 => self.cb.samples_mut(),
            _ => self.cr.samples_mut(),
        }
    }
}
