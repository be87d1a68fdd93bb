//! Places of 4x4 luma samples of a coding tree unit as words.

ghost use Rattle.std.specs.Prelude.{◌≡◌, ℕ, ◌<◌, ◌≤◌, length, slice_index};
ghost use Rattle.sample_words.specs.Values.{IsModes, IsMotion, modes_word, vectors_word};
ghost use Rattle.unit_trees.specs.SpecSliceData.{side_of};
ghost use Rattle.unit_words.specs.Units.{unit_modes, unit_motion};

use ctu_records::{Records, Side};
use sample_words::{PlaceModes, pack_modes, pack_vectors};
use spec_motion::Motion;
use unit_build::{MotionView, UnitFilters, UnitMotion};

/// A place without vectors.
const NO_MOTION: Motion = Motion {
    list_0: None,
    list_1: None,
};

/// The words of the vectors of a row of places, from the left one on.
pub(crate) fn pack_vectors_row(motion: &UnitMotion, y: usize, words: &mut [u64])
    requires row { y < 16 }
    requires few { length words.old ≤ 16 }
    ensures count { length words.new ≡ length words.old }
    ensures value { (x : ℕ) → x < length words.old
        → slice_index words.new x ≡ vectors_word (unit_motion motion.now x y) }
{
    for x in 0..words.len() {
        words[x] = pack_vectors(&unit_motion(motion, x, y));
    }
}

/// What was read of a unit and what its work left, as far as the modes of its places depend on it.
#[derive(Clone, Copy)]
pub(crate) struct PlaceSource<'a> {
    /// What was read of it.
    pub(crate) records: &'a Records,
    /// Its motion.
    pub(crate) motion: &'a UnitMotion,
    /// What it gives the loop filters.
    pub(crate) filters: &'a UnitFilters,
    /// The number of its slice segment.
    pub(crate) segment: u32,
}

/// The words of the modes of a row of places, from the left one on.
pub(crate) fn pack_modes_row(source: &PlaceSource<'_>, y: usize, words: &mut [u64])
    requires row { y < 16 }
    requires few { length words.old ≤ 16 }
    requires modes { (x : ℕ) → x < length words.old
        → IsModes (unit_modes source.now.records.now source.now.filters.now source.now.segment x y) }
    requires motion { (x : ℕ) → x < length words.old → IsMotion (unit_motion source.now.motion.now x y) }
    ensures count { length words.new ≡ length words.old }
    ensures value { (x : ℕ) → x < length words.old → slice_index words.new x
        ≡ modes_word (unit_modes source.now.records.now source.now.filters.now source.now.segment x y)
        (unit_motion source.now.motion.now x y) }
{
    for x in 0..words.len() {
        let modes = unit_modes(source, x, y);
        words[x] = pack_modes(&modes, &unit_motion(source.motion, x, y));
    }
}

/// The motion of a place.
#[inline(always)]
fn unit_motion(motion: &UnitMotion, x: usize, y: usize) -> Motion
    requires column { x < 16 }
    requires row { y < 16 }
    ensures { result ≡ unit_motion motion.now x y }
{
    match motion.motion(x + 1, y + 1) {
        Some(motion) => motion,
        None => NO_MOTION,
    }
}

/// What else is known of a place.
#[inline(always)]
fn unit_modes(source: &PlaceSource<'_>, x: usize, y: usize) -> PlaceModes
    requires column { x < 16 }
    requires row { y < 16 }
    ensures { result ≡ unit_modes source.now.records.now source.now.filters.now source.now.segment x y }
{
    let place = source.filters.places[16 * y + x];
    PlaceModes {
        segment: source.segment,
        side: side_of(source.records, x, y),
        left_strength: place.left_strength,
        top_strength: place.top_strength,
        kept: place.kept,
        coded: place.coded,
    }
}

/// What was read of a place.
#[inline(always)]
fn side_of(records: &Records, x: usize, y: usize) -> Side
    requires column { x < 16 }
    requires row { y < 16 }
    ensures { result ≡ side_of records.now x y }
{
    let coding = records.coding(x, y);
    Side {
        depth: coding.depth,
        skipped: coding.skipped,
        intra: coding.intra,
        luma_mode: records.luma_mode(x, y),
        qp: records.qp(x, y),
    }
}
