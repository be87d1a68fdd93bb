//! Pictures that are drawn one after the other.

ghost use Rattle.std.specs.Prelude.{◌≡◌, ◌%◌, ◌++◌, map, IfOk, OnOk};
ghost use Rattle.std.specs.List.{concat, range_with_len};
ghost use Rattle.spec_drawn_pictures.specs.Drawn.{averaged, moved, picture_of, sampled, start_of};
ghost use Rattle.spec_drawn_pictures.specs.Shown.{bytes_drawn, planes_bytes};

use made_pictures::{Picture, inter_units, motion, pcm_units};
use rand_core::SeedableRng;
use rand_pcg::Lcg64Xsh32;
use std::alloc::{AllocError, Global};
use std::marker::Model;

/// Between two pictures: the generator, and the two pictures that others may be drawn of. Contracts see them.
#[derive(Drop)]
pub struct Drawing {
    generator: Lcg64Xsh32,
    older: Picture,
    last: Picture,
}

impl Model for Drawing {
    ghost use Rattle.spec_drawn_pictures.specs.Drawn.{Between};

    ghost Value = { Between };

    ghost view = { λ d. record { generator = d.generator; older = d.older; last = d.last } };
}

/// Appends the bytes of a picture: its planes of luma, Cb and Cr.
#[tactic(auto, using(crate::proofs::Lists::appended))]
fn append_planes(bytes: &mut Vec<u8>, picture: &Picture) -> Result<(), AllocError>
    ensures { OnOk result (bytes.new.items ≡ bytes.old.items ++ planes_bytes picture.now) }
{
    bytes.extend_from_slice(picture.luma())?;
    bytes.extend_from_slice(picture.cb())?;
    bytes.extend_from_slice(picture.cr())?;
    Ok(())
}

impl Drawing {
    /// What stands before the first picture of a seed.
    pub fn new(alloc: Global, seed: u64) -> Result<Drawing, AllocError>
        ensures { IfOk result (λ drawing. drawing ≡ start_of seed) }
    {
        let older = Picture::black(alloc)?;
        let last = Picture::black(alloc)?;
        Ok(Drawing {
            generator: Lcg64Xsh32::seed_from_u64(seed),
            older,
            last,
        })
    }

    /// Draws a picture that has samples of its own, and appends its bytes.
    #[tactic(auto, unfolding(spec_drawn_pictures::specs::Drawn::sampled))]
    fn sampled(self, alloc: Global, bytes: &mut Vec<u8>) -> Result<Drawing, AllocError>
        ensures bytes { OnOk result (bytes.new.items ≡ bytes.old.items ++ planes_bytes (sampled self).0) }
        ensures behind { IfOk result (λ behind. behind ≡ (sampled self).1) }
    {
        let mut generator = self.generator;
        let units = pcm_units(alloc, &mut generator)?;
        let picture = Picture::of_units(alloc, units.as_slice())?;
        append_planes(bytes, &picture)?;
        Ok(Drawing {
            generator,
            older: self.older,
            last: picture,
        })
    }

    /// Moves the last picture, and appends the bytes of that.
    #[tactic(auto, unfolding(spec_drawn_pictures::specs::Drawn::moved, spec_made::specs::Draws::motion_of))]
    fn moved(self, alloc: Global, bytes: &mut Vec<u8>) -> Result<Drawing, AllocError>
        ensures bytes { OnOk result (bytes.new.items ≡ bytes.old.items ++ planes_bytes (moved self).0) }
        ensures behind { IfOk result (λ behind. behind ≡ (moved self).1) }
    {
        let mut generator = self.generator;
        let motion = motion(&mut generator, false);
        let _units = inter_units(alloc, &mut generator)?;
        let picture = Picture::predicted(alloc, &self.older, &self.last, motion)?;
        append_planes(bytes, &picture)?;
        Ok(Drawing {
            generator,
            older: self.last,
            last: picture,
        })
    }

    /// Draws the mean of both pictures, and appends its bytes.
    #[tactic(auto, unfolding(spec_drawn_pictures::specs::Drawn::averaged, spec_made::specs::Draws::motion_of))]
    fn averaged(self, alloc: Global, bytes: &mut Vec<u8>) -> Result<Drawing, AllocError>
        ensures bytes { OnOk result (bytes.new.items ≡ bytes.old.items ++ planes_bytes (averaged self).0) }
        ensures behind { IfOk result (λ behind. behind ≡ (averaged self).1) }
    {
        let mut generator = self.generator;
        let motion = motion(&mut generator, true);
        let _units = inter_units(alloc, &mut generator)?;
        let picture = Picture::predicted(alloc, &self.older, &self.last, motion)?;
        append_planes(bytes, &picture)?;
        Ok(Drawing {
            generator,
            older: self.older,
            last: self.last,
        })
    }

    /// Draws the picture of a number, which is the next one, appends its bytes, and answers what stands behind it.
    #[tactic(auto, unfolding(spec_drawn_pictures::specs::Drawn::picture_of))]
    pub fn draw(self, alloc: Global, j: u32, bytes: &mut Vec<u8>) -> Result<Drawing, AllocError>
        ensures bytes { OnOk result (bytes.new.items ≡ bytes.old.items ++ planes_bytes (picture_of (j % 8) self).0) }
        ensures behind { IfOk result (λ behind. behind ≡ (picture_of (j % 8) self).1) }
    {
        let g = j % 8;
        if g == 0 {
            self.sampled(alloc, bytes)
        } else if g % 2 == 1 {
            self.moved(alloc, bytes)
        } else {
            self.averaged(alloc, bytes)
        }
    }
}

/// The bytes of so many pictures of a seed, one after the other in the order of drawing.
pub fn draw_pictures(alloc: Global, seed: u64, pictures: u32) -> Result<Vec<u8>, AllocError>
    ensures { IfOk result (λ bytes. bytes.items ≡ concat (map (bytes_drawn seed) (range_with_len 0 pictures))) }
{
    let mut bytes = Vec::new(alloc);
    let mut drawing = Drawing::new(alloc, seed)?;
    for j in 0..pictures {
        drawing = drawing.draw(alloc, j, &mut bytes)?;
    }
    Ok(bytes)
}
