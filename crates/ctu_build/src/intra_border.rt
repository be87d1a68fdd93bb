//! What intra blocks are predicted from.

ghost use Rattle.std.specs.Prelude.{◌≡◌, ◌+◌, ◌*◌, ◌^◌, ◌≤◌, length, take};
ghost use Rattle.ctu_build.specs.Held.{IsInside, held};
ghost use Rattle.ctu_build.specs.Inter.{intra_known};
ghost use Rattle.ctu_motion.specs.Held.{held as motion_held};
ghost use Rattle.spec_intra_prediction.specs.Neighbours.{beside};
ghost use Rattle.spec_intra_prediction.specs.Substitution.{substituted};
ghost use Rattle.spec_reconstruction.specs.Parameters.{depth_of};
ghost use Rattle.spec_reconstruction.specs.Prediction.{is_inter, offered, place_of_sample};
ghost use Rattle.spec_reconstruction.specs.Sound.{IsFormat};

use crate::edge::write_edge;
use crate::parameters::depth_of;
use crate::place::Place;
use crate::unit_samples::UnitSamples;
use ctu_motion::{MotionView, UnitMotion};
use intra_pred::{Border, neighbours};
use spec_reconstruction::UnitFormat;

/// What the intra blocks of a unit depend on apart from its samples.
#[derive(Clone, Copy)]
pub(crate) struct IntraUnit<'a> {
    /// What all samples of the unit depend on.
    pub(crate) format: &'a UnitFormat,
    /// The motion of the unit and beside it, which tells what is predicted in inter mode.
    pub(crate) motion: &'a UnitMotion,
}

/// The samples that aren't predicted in inter mode.
#[derive(Clone, Copy)]
struct IntraSamples<'a> {
    samples: &'a UnitSamples,
    motion: &'a UnitMotion,
}

impl<'a> Border for IntraSamples<'a> {
    ghost known = { λ s. intra_known (motion_held s.motion.now) (held s.samples.now) };

    #[tactic(auto, unfolding(crate::specs::Inter::intra_known))]
    fn sample(&self, c: u8, x: u32, y: u32) -> Option<u16> {
        let sample = self.samples.sample(c, x, y);
        if sample.is_some() && is_inter(self.motion, c, x, y) {
            None
        } else {
            sample
        }
    }
}

/// Whether a sample is predicted in inter mode.
fn is_inter(motion: &UnitMotion, c: u8, x: u32, y: u32) -> bool
    ensures { result ≡ is_inter (motion_held motion.now) c x y }
{
    let place = motion.motion(place_of_sample(c, x), place_of_sample(c, y));
    place.is_some()
}

/// The column of the place that has a sample, or its row.
fn place_of_sample(c: u8, k: u32) -> usize
    ensures { result ≡ place_of_sample c k }
{
    if c == 0 {
        (k as usize + 3) / 4
    } else {
        (k as usize + 1) / 2
    }
}

/// Writes the neighbours of a block, substituted where they aren't offered.
pub(crate) fn gather(intra: &IntraUnit<'_>, place: Place, samples: &UnitSamples, edge: &mut [u16])
    requires format { IsFormat intra.now.format.now }
    requires place { IsInside place }
    requires room { 4 * 2 ^ place.log2 + 1 ≤ length edge.old }
    ensures { take (4 * 2 ^ place.log2 + 1) edge.new
        ≡ substituted (depth_of intra.now.format.now place.c)
        (beside (offered intra.now.format.now (motion_held intra.now.motion.now) (held samples.now) place.c)
        (2 ^ place.log2) place.x place.y) }
{
    let depth = depth_of(intra.format, place.c);
    if intra.format.constrained_intra {
        let offered = IntraSamples {
            samples,
            motion: intra.motion,
        };
        neighbours(&offered, place.c, place.x, place.y, place.log2, depth, edge);
    } else {
        write_edge(samples, place, depth, edge);
    }
}
