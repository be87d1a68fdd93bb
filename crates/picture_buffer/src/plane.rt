//! The samples of one component.

ghost use Rattle.std.specs.Prelude.{◌≡◌, ℕ, ◌+◌, ◌-◌, ◌*◌, ◌<◌, ◌≤◌, ◌==◌, ◌&&◌, nat_le, nat_lt, length, IfOk};
ghost use Rattle.std.specs.Prelude.{slice_index, slice_index_or, if◌then◌else◌};
ghost use Rattle.picture_buffer.specs.Planes.{plane_at};

use std::alloc::{AllocError, Global};
use std::marker::Model;

/// A plane, in rows of `width` samples.
#[derive(Drop)]
pub(crate) struct Plane {
    width: u32,
    height: u32,
    samples: Vec<u16>,
}

impl Model for Plane {
    ghost use Rattle.picture_buffer.specs.Planes.{PlaneSamples, IsPlane};

    ghost Value = { PlaneSamples };

    ghost view = { λ p. record { width = p.width; height = p.height; samples = p.samples.items } };

    ghost invariant = { λ p. IsPlane p.width p.height p.samples.items };
}

impl Plane {
    ghost use Rattle.std.specs.Borrow.{sem};
    ghost use Rattle.picture_buffer.specs.Lending.{LendsSamples};

    /// A plane of zeros.
    #[tactic(auto, unfolding(crate::specs::Planes::plane_at))]
    pub(crate) fn new(alloc: Global, width: u32, height: u32) -> Result<Plane, AllocError>
        requires columns { width ≤ 8192 }
        requires rows { height ≤ 8192 }
        ensures width { IfOk result (λ p. p.width ≡ width) }
        ensures height { IfOk result (λ p. p.height ≡ height) }
        ensures samples { IfOk result (λ p. (x y : ℕ) → plane_at p x y ≡ 0) }
    {
        let samples = vec![in alloc; 0; width as usize * height as usize]?;
        Ok(Plane {
            width,
            height,
            samples,
        })
    }

    /// All samples are 0 again.
    #[tactic(auto, unfolding(crate::specs::Planes::plane_at))]
    pub(crate) fn restart(&mut self)
        ensures width { self.new.width ≡ self.old.width }
        ensures height { self.new.height ≡ self.old.height }
        ensures samples { (x y : ℕ) → plane_at self.new x y ≡ 0 }
    {
        self.samples.fill(0);
    }

    /// How many samples a row has.
    pub(crate) fn width(&self) -> u32
        ensures { result ≡ self.now.width }
    {
        self.width
    }

    /// How many rows there are.
    pub(crate) fn height(&self) -> u32
        ensures { result ≡ self.now.height }
    {
        self.height
    }

    /// A row.
    #[tactic(auto, unfolding(crate::specs::Planes::plane_at))]
    pub(crate) fn row(&self, y: u32) -> &[u16]
        requires { y < self.now.height }
        ensures count { length result.now ≡ self.now.width }
        ensures samples { (x : ℕ) → x < self.now.width → slice_index_or result.now x 0 ≡ plane_at self.now x y }
    {
        let width = self.width as usize;
        let first = width * y as usize;
        &self.samples[first..first + width]
    }

    /// Samples over a part of a row.
    #[tactic(auto, unfolding(crate::specs::Planes::plane_at))]
    pub(crate) fn lay(&mut self, x: u32, y: u32, samples: &[u16])
        requires columns { x + length samples.now ≤ self.old.width }
        requires row { y < self.old.height }
        ensures width { self.new.width ≡ self.old.width }
        ensures height { self.new.height ≡ self.old.height }
        ensures samples { (i j : ℕ) → plane_at self.new i j
            ≡ (if j == y && (nat_le x i && nat_lt i (x + length samples.now)) then slice_index samples.now (i - x)
            else plane_at self.old i j) }
    {
        let first = self.width as usize * y as usize + x as usize;
        copy(&mut self.samples[first..first + samples.len()], samples);
    }

    /// The samples, row after row, for writing.
    pub(crate) fn samples_mut(&mut self) -> &mut [u16]
        ensures* writes_back { sem 𝓛 (LendsSamples self.entry result) }
        ensures value { result.now ≡ self.old.samples }
        ensures count { length result.now ≡ self.old.width * self.old.height }
    {
        self.samples.as_mut_slice()
    }
}

/// Samples over as many others. Most lines of units have one of a few lengths.
#[inline(always)]
fn copy(out: &mut [u16], samples: &[u16])
    requires { length out.old ≡ length samples.now }
    ensures { out.new ≡ samples.now }
{
    match samples.len() {
        64 => copy_some::<64>(out, samples),
        32 => copy_some::<32>(out, samples),
        _ => out.copy_from_slice(samples),
    }
}

/// The same of `N` samples, which is a few stores.
#[inline(always)]
fn copy_some<const N: usize>(out: &mut [u16], samples: &[u16])
    requires out { length out.old ≡ N }
    requires samples { length samples.now ≡ N }
    ensures { out.new ≡ samples.now }
{
    out.copy_from_slice(&samples[..N]);
}
