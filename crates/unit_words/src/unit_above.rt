//! What the units of the next row ask of a unit, out of the unit's words.

ghost use Rattle.std.specs.Prelude.{◌≡◌, ℕ, ◌≤◌, Option, None, Some, cond, length, nat_lt, slice_index, if◌then◌else◌};
ghost use Rattle.ctu_records.specs.Tree.{Ctu, no_side, side};
ghost use Rattle.spec_motion.specs.declared.vectors.Motion.{Motion};
ghost use Rattle.unit_trees.specs.Edges.{bottom_of};
ghost use Rattle.sample_words.specs.Values.{modes_in};
ghost use Rattle.sample_words.specs.declared.modes.PlaceModes.{PlaceModes};
ghost use Rattle.unit_words.specs.Above.{AreBottom, ArePlace};

use ctu_records::Side;
use sample_words::{PlaceModes, unpack_modes, unpack_motion, unpack_offsets};
use spec_motion::Motion;
use unit_trees::Edge;

/// A place of which nothing was read.
const NO_SIDE: Side = Side {
    depth: 0,
    skipped: false,
    intra: false,
    luma_mode: 1,
    qp: 0,
};

/// What a unit leaves to the one below it, by the words of the modes of its lowest places, from the left one on, and
/// those of its offsets.
pub fn unpack_bottom(modes: &[u64], offsets: [u64; 2]) -> Edge
    requires { length modes.now ≤ 16 }
    ensures { (n : ℕ) (ctu : Ctu) → AreBottom n ctu modes.now offsets → result ≡ bottom_of n ctu }
{
    Edge {
        places: sides_in(modes),
        sao: unpack_offsets(offsets[0], offsets[1]),
    }
}

/// What was read of the places that have such modes.
fn sides_in(modes: &[u64]) -> [Side; 16]
    requires { length modes.now ≤ 16 }
    ensures { result ≡ side 16 (λ k. if nat_lt k (length modes.now)
        then (modes_in (slice_index modes.now k)).side else no_side) }
{
    let mut places = [NO_SIDE; 16];
    for k in 0..16usize {
        places[k] = side_in(modes, k);
    }
    places
}

/// What was read of one of them.
fn side_in(modes: &[u64], k: usize) -> Side
    ensures { result ≡ (if nat_lt k (length modes.now) then (modes_in (slice_index modes.now k)).side else no_side) }
{
    if k < modes.len() {
        unpack_modes(modes[k]).side
    } else {
        NO_SIDE
    }
}

/// What is known of a place of 4x4 luma samples.
#[derive(Clone, Copy)]
pub struct KnownPlace {
    /// Its motion; `None` where it is predicted in intra mode.
    pub motion: Option<Motion>,
    /// What else is known of it.
    pub modes: PlaceModes,
}

/// What both words of a place have.
pub fn unpack_place(vectors: u64, modes: u64) -> KnownPlace
    ensures { (motion : Option Motion) (place : PlaceModes) → ArePlace motion place vectors modes
        → result ≡ record { motion = motion; modes = place } }
{
    let place = unpack_modes(modes);
    KnownPlace {
        motion: inter_motion(place.side.intra, unpack_motion(vectors, modes)),
        modes: place,
    }
}

/// The motion of a place that isn't predicted in intra mode.
#[inline(always)]
fn inter_motion(intra: bool, motion: Motion) -> Option<Motion>
    ensures { result ≡ cond intra None (Some motion) }
{
    if intra { None } else { Some(motion) }
}
