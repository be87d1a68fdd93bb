//! Samples, motion and coded flags along a row of places, or along a column.

ghost use Rattle.std.specs.Prelude.{◌≡◌, ℕ, ◌+◌, ◌-◌, ◌*◌, ◌<◌, ◌≤◌, ◌==◌, ◌&&◌, nat_le, nat_lt, length, IfOk};
ghost use Rattle.std.specs.Prelude.{slice_index, slice_index_or, None, false, if◌then◌else◌};
ghost use Rattle.row_borders.specs.Strips.{coded_along, motion_along, sample_along, with_places, with_samples};
ghost use Rattle.spec_slice_data.specs.Residual.{samples_of_place};

use picture_buffer::{MotionField, PlaceMotion, Planes};
use place_grid::Grid;
use std::alloc::{AllocError, Global};
use std::marker::Model;

/// What stands along places of 4x4 luma samples, one after the other: a line of samples of each component, and of each
/// place its motion, and whether its luma transform block has levels that aren't 0.
#[derive(Drop)]
pub(crate) struct Strip {
    /// How many places there are.
    places: u32,
    /// The line of samples is the first one of each plane. Planes have an even number of luma lines.
    samples: Planes,
    motion: MotionField,
    coded: Grid<bool>,
}

impl Model for Strip {
    ghost use Rattle.row_borders.specs.Strips.{IsStrip, StripPlaces};

    ghost Value = { StripPlaces };

    ghost view = { λ s. record { places = s.places; samples = s.samples; motion = s.motion; coded = s.coded } };

    ghost invariant = { λ s. IsStrip s.places s.samples s.motion s.coded };
}

impl Strip {
    /// So many places, along which nothing is laid. It takes memory, and no other call does.
    pub(crate) fn new(alloc: Global, places: u32) -> Result<Strip, AllocError>
        requires { places ≤ 2048 }
        ensures places { IfOk result (λ s. s.places ≡ places) }
        ensures samples { IfOk result (λ s. (c k : ℕ) → sample_along s c k ≡ 0) }
        ensures motion { IfOk result (λ s. (k : ℕ) → motion_along s k ≡ None) }
        ensures coded { IfOk result (λ s. (k : ℕ) → coded_along s k ≡ false) }
    {
        let samples = Planes::new(alloc, 4 * places, 2)?;
        let motion = MotionField::new(alloc, places, 1)?;
        let coded = Grid::new(alloc, places, 1, false)?;
        Ok(Strip {
            places,
            samples,
            motion,
            coded,
        })
    }

    /// Nothing is laid any more.
    pub(crate) fn restart(&mut self)
        ensures places { self.new.places ≡ self.old.places }
        ensures samples { (c k : ℕ) → sample_along self.new c k ≡ 0 }
        ensures motion { (k : ℕ) → motion_along self.new k ≡ None }
        ensures coded { (k : ℕ) → coded_along self.new k ≡ false }
    {
        self.samples.restart();
        self.motion.restart();
        self.coded.fill(false);
    }

    /// Samples of component `c` along the places, from sample `first` on.
    pub(crate) fn lay_samples(&mut self, c: usize, first: usize, samples: &[u16])
        requires component { c < 3 }
        requires inside { first + length samples.now ≤ samples_of_place c * self.old.places }
        ensures samples { (i k : ℕ) → sample_along self.new i k
            ≡ (if i == c && (nat_le first k && nat_lt k (first + length samples.now))
            then slice_index samples.now (k - first)
            else sample_along self.old i k) }
        ensures same { self.new ≡ with_samples self.old self.new.samples }
    {
        self.samples.lay(c, first as u32, 0, samples);
    }

    /// The motion of a place, and whether it is coded.
    pub(crate) fn lay_place(&mut self, k: usize, motion: Option<PlaceMotion>, coded: bool)
        requires { k < self.old.places }
        ensures motion { (i : ℕ) → motion_along self.new i ≡ (if i == k then motion else motion_along self.old i) }
        ensures coded { (i : ℕ) → coded_along self.new i ≡ (if i == k then coded else coded_along self.old i) }
        ensures same { self.new ≡ with_places self.old self.new.motion self.new.coded }
    {
        self.motion.put(k, 0, motion);
        self.coded.put(k, 0, coded);
    }

    /// A sample of component `c` along the places.
    pub(crate) fn lay_sample(&mut self, c: usize, k: usize, sample: u16)
        requires component { c < 3 }
        requires inside { k < samples_of_place c * self.old.places }
        ensures samples { (i j : ℕ) → sample_along self.new i j
            ≡ (if i == c && j == k then sample else sample_along self.old i j) }
        ensures same { self.new ≡ with_samples self.old self.new.samples }
    {
        self.lay_samples(c, k, &[sample]);
    }

    /// The samples of component `c` from one on as far as another.
    pub(crate) fn part(&self, c: usize, first: usize, end: usize) -> &[u16]
        requires component { c < 3 }
        requires inside { (first ≤ end) × (end ≤ samples_of_place c * self.now.places) }
        ensures count { length result.now ≡ end - first }
        ensures samples { (k : ℕ) → k < end - first
            → slice_index_or result.now k 0 ≡ sample_along self.now c (first + k) }
    {
        &self.samples.row(c, 0)[first..end]
    }

    /// A sample of component `c`; 0 behind the last one.
    #[tactic(auto, using(crate::proofs::Parts::past_line))]
    pub(crate) fn sample(&self, c: usize, k: usize) -> u16
        requires { c < 3 }
        ensures { result ≡ sample_along self.now c k }
    {
        let row = self.samples.row(c, 0);
        if k < row.len() { row[k] } else { 0 }
    }

    /// The motion of a place; `None` behind the last one.
    pub(crate) fn motion(&self, k: usize) -> Option<PlaceMotion>
        ensures { result ≡ motion_along self.now k }
    {
        self.motion.at(k, 0)
    }

    /// Whether a place is coded; `false` behind the last one.
    pub(crate) fn coded(&self, k: usize) -> bool
        ensures { result ≡ coded_along self.now k }
    {
        self.coded.at(k, 0, false)
    }
}
