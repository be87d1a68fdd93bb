//! The planes of a picture while its coding tree units are laid.

ghost use Rattle.std.specs.Prelude.{◌≡◌, ℕ, ◌+◌, ◌*◌, ◌<◌, ◌≤◌, max, true, length, slice_index_or};
ghost use Rattle.unit_build.specs.CtuBuild.{held};
ghost use Rattle.picture_buffer.specs.Planes.{HasSides, samples_of};
ghost use Rattle.picture_trees.specs.PictureLayout.{IsShape};
ghost use Rattle.spec_picture_build.specs.Border.{has_sample, height_of, unit_side, width_of};
ghost use Rattle.spec_picture_build.specs.Built.{unit_laid};
ghost use Rattle.picture_trees.specs.SpecPictureTrees.{unit_at};

use crate::lines::lay_unit;
use picture_buffer::Planes;
use picture_trees::{CodingTreeUnit, Layout};
use std::marker::Model;
use unit_build::UnitSamples;

/// Planes of which so many coding tree units are laid, in order of address. What stands in the others counts as 0, so
/// that nothing has to be cleared where all of them are laid.
#[derive(Drop)]
pub(crate) struct FreshPlanes {
    pub(crate) planes: Planes,
    layout: Layout,
    laid: u64,
}

impl Model for FreshPlanes {
    ghost use Rattle.std.specs.Prelude.{◌*◌};
    ghost use Rattle.picture_buffer.specs.Planes.{HasSides};
    ghost use Rattle.picture_build.specs.Fresh.{Fresh, laid_planes};

    ghost Value = { Fresh };

    ghost view = { λ f. record {
      planes = laid_planes f.layout f.laid f.planes;
      picture = f.layout;
      laid = f.laid;
    } };

    ghost invariant = { λ f. HasSides f.planes (4 * f.layout.across) (4 * f.layout.down) };
}

impl FreshPlanes {
    /// Planes of a picture of this layout, of which no unit is laid, whatever stands in them.
    pub(crate) fn new(planes: Planes, layout: Layout) -> FreshPlanes
        requires { HasSides planes (4 * layout.across) (4 * layout.down) }
        ensures picture { result.picture ≡ layout }
        ensures samples { (c x y : ℕ) → samples_of result.planes c x y ≡ 0 }
    {
        FreshPlanes {
            planes,
            layout,
            laid: 0,
        }
    }

    /// Row `y` of component `c`, which tells the samples of units that are laid.
    pub(crate) fn row(&self, c: usize, y: u32) -> &[u16]
        requires component { c < 3 }
        requires row { y < height_of self.now.picture c }
        ensures count { length result.now ≡ width_of self.now.picture c }
        ensures samples { (x : ℕ) → x < width_of self.now.picture c
            → unit_at self.now.picture (unit_side self.now.picture c) x y < self.now.laid
            → slice_index_or result.now x 0 ≡ samples_of self.now.planes c x y }
    {
        self.planes.row(c, y)
    }

    /// Lays the samples of a unit, with none before it missing.
    pub(crate) fn lay_unit(&mut self, unit: &CodingTreeUnit, samples: &UnitSamples)
        requires picture { unit.now.layout ≡ self.old.picture }
        requires order { unit.now.address ≤ self.old.laid }
        ensures value { samples_of self.new.planes
            ≡ unit_laid unit.now.layout unit.now.address (held samples.now) (samples_of self.old.planes) }
        ensures picture { self.new.picture ≡ self.old.picture }
        ensures laid { self.new.laid ≡ max self.old.laid (unit.now.address + 1) }
        ensures shape { IsShape unit.now.layout }
    {
        lay_unit(unit, samples, &mut self.planes);
        self.laid = self.laid.max(u64::from(unit.address) + 1);
    }

    /// Lays zeros, as which they count, over units before an address that are missing. Where units come in order none
    /// is.
    pub(crate) fn reach(&mut self, address: u64)
        requires { address ≤ 4294967296 }
        ensures samples { samples_of self.new.planes ≡ samples_of self.old.planes }
        ensures picture { self.new.picture ≡ self.old.picture }
        ensures laid { address ≤ self.new.laid }
    {
        if self.laid < address {
            self.lay_zeros(address);
        }
    }

    /// Lays zeros over the units from the first that is missing as far as an address.
    #[inline(never)]
    fn lay_zeros(&mut self, address: u64)
        requires few { address ≤ 4294967296 }
        requires some { self.old.laid ≤ address }
        ensures samples { samples_of self.new.planes ≡ samples_of self.old.planes }
        ensures picture { self.new.picture ≡ self.old.picture }
        ensures laid { address ≤ self.new.laid }
    {
        let none = UnitSamples::new();
        let layout = self.layout;
        for next in self.laid..address {
            let unit = CodingTreeUnit {
                layout,
                slice: 0,
                address: next as u32,
            };
            self.tell_zeros();
            self.lay_unit(&unit, &none);
        }
    }

    /// Samples of units that aren't laid count as 0.
    fn tell_zeros(&self)
        ensures { (c x y : ℕ) → self.now.laid ≤ unit_at self.now.picture (unit_side self.now.picture c) x y
            → samples_of self.now.planes c x y ≡ 0 }
    {
        let _laid = self.laid;
    }

    /// The layout of the picture.
    fn layout(&self) -> Layout
        ensures { result ≡ self.now.picture }
    {
        self.layout
    }

    /// The planes, with zeros in the units that are missing.
    pub(crate) fn into_planes(self) -> Planes
        ensures samples { samples_of result ≡ samples_of self.planes }
        ensures sides { HasSides result (4 * self.picture.across) (4 * self.picture.down) }
    {
        let mut whole = self;
        whole.finish();
        whole.into_laid()
    }

    /// Lays zeros over all units that are missing.
    fn finish(&mut self)
        ensures samples { samples_of self.new.planes ≡ samples_of self.old.planes }
        ensures picture { self.new.picture ≡ self.old.picture }
        ensures all { (c x y : ℕ) → has_sample self.new.picture c x y ≡ true
            → unit_at self.new.picture (unit_side self.new.picture c) x y < self.new.laid }
    {
        let units = units_of(self.layout());
        self.reach(units);
    }

    /// The planes of a picture of which all units are laid.
    fn into_laid(self) -> Planes
        requires { (c x y : ℕ) → has_sample self.picture c x y ≡ true
            → unit_at self.picture (unit_side self.picture c) x y < self.laid }
        ensures samples { samples_of result ≡ samples_of self.planes }
        ensures sides { HasSides result (4 * self.picture.across) (4 * self.picture.down) }
    {
        self.planes
    }
}

/// How many units a picture has.
fn units_of(layout: Layout) -> u64
    ensures all { (c x y : ℕ) → has_sample layout c x y ≡ true → unit_at layout (unit_side layout c) x y < result }
    ensures few { result ≤ 4294967296 }
{
    let rows = (layout.down() as usize).div_ceil(layout.side());
    u64::from(layout.width()) * rows as u64
}
