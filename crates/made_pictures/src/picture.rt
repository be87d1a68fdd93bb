//! Made pictures.

ghost use Rattle.std.specs.Prelude.{◌≡◌, length, IfOk};
ghost use Rattle.spec_made.specs.Planes.{blank, no_planes, pcm_planes, moved_planes, mean_planes, predicted_planes};
ghost use Rattle.spec_made.specs.Planes.{predicted_by};

use crate::planes::{
    mean_plane, moved_chroma_plane, moved_luma_plane, pcm_chroma_plane, pcm_luma_plane,
};
use spec_made::{Motion, PcmUnit, Shift};
use std::alloc::{AllocError, Global};
use std::marker::Model;

/// A picture of 128x96 luma samples. Contracts see its planes.
#[derive(Debug, Drop)]
pub struct Picture {
    luma: Vec<u8>,
    cb: Vec<u8>,
    cr: Vec<u8>,
}

impl Model for Picture {
    ghost use Rattle.std.specs.Prelude.{◌≡◌, length};
    ghost use Rattle.spec_made.specs.Planes.{Planes};

    ghost Value = { Planes };

    ghost view = { λ p. record { luma = p.luma.items; cb = p.cb.items; cr = p.cr.items } };

    ghost invariant = { λ p. (length p.luma.items ≡ 12288) × (length p.cb.items ≡ 3072) × (length p.cr.items ≡ 3072) };
}

/// So many zeros.
#[tactic(auto, unfolding(spec_made::specs::Planes::blank))]
fn zeros(alloc: Global, n: usize) -> Result<Vec<u8>, AllocError>
    ensures value { IfOk result (λ plane. plane.items ≡ blank n) }
    ensures length { IfOk result (λ plane. length plane.items ≡ n) }
{
    let zeros = vec![in alloc; 0u8; n]?;
    Ok(zeros)
}

impl Picture {
    /// A black picture.
    #[tactic(auto, unfolding(spec_made::specs::Planes::no_planes))]
    pub fn black(alloc: Global) -> Result<Picture, AllocError>
        ensures { IfOk result (λ picture. picture ≡ no_planes) }
    {
        let luma = zeros(alloc, 12288)?;
        let cb = zeros(alloc, 3072)?;
        let cr = zeros(alloc, 3072)?;
        Ok(Picture { luma, cb, cr })
    }

    /// The picture of units by pulse code modulation.
    pub fn of_units(alloc: Global, units: &[PcmUnit]) -> Result<Picture, AllocError>
        requires { length units.now ≡ 48 }
        ensures { IfOk result (λ picture. picture ≡ pcm_planes units.now) }
    {
        let luma = pcm_luma_plane(alloc, units)?;
        let cb = pcm_chroma_plane(alloc, units, 256, 64)?;
        let cr = pcm_chroma_plane(alloc, units, 320, 80)?;
        Ok(Picture { luma, cb, cr })
    }

    /// This picture, moved.
    fn moved(&self, alloc: Global, shift: Shift) -> Result<Picture, AllocError>
        ensures { IfOk result (λ picture. picture ≡ moved_planes self.now shift) }
    {
        let luma = moved_luma_plane(alloc, self.luma.as_slice(), shift)?;
        let cb = moved_chroma_plane(alloc, self.cb.as_slice(), shift)?;
        let cr = moved_chroma_plane(alloc, self.cr.as_slice(), shift)?;
        Ok(Picture { luma, cb, cr })
    }

    /// The mean of this picture and another.
    fn mean(&self, alloc: Global, other: &Picture) -> Result<Picture, AllocError>
        ensures { IfOk result (λ picture. picture ≡ mean_planes self.now other.now) }
    {
        let luma = mean_plane(alloc, self.luma.as_slice(), other.luma.as_slice())?;
        let cb = mean_plane(alloc, self.cb.as_slice(), other.cb.as_slice())?;
        let cr = mean_plane(alloc, self.cr.as_slice(), other.cr.as_slice())?;
        Ok(Picture { luma, cb, cr })
    }

    /// The picture that is predicted from two: by one vector from `last`, by two from `older` and `last`.
    pub fn predicted(
        alloc: Global,
        older: &Picture,
        last: &Picture,
        motion: Motion,
    ) -> Result<Picture, AllocError>
        ensures { IfOk result (λ picture. picture ≡ predicted_planes older.now last.now motion) }
    {
        match motion.second {
            None => last.moved(alloc, motion.first),
            Some(second) => {
                let first = older.moved(alloc, motion.first)?;
                let moved = last.moved(alloc, second)?;
                first.mean(alloc, &moved)
            }
        }
    }

    /// The luma samples.
    pub fn luma(&self) -> &[u8]
        ensures { result.now ≡ self.now.luma }
    {
        self.luma.as_slice()
    }

    /// The Cb samples.
    pub fn cb(&self) -> &[u8]
        ensures { result.now ≡ self.now.cb }
    {
        self.cb.as_slice()
    }

    /// The Cr samples.
    pub fn cr(&self) -> &[u8]
        ensures { result.now ≡ self.now.cr }
    {
        self.cr.as_slice()
    }
}
