//! Places that stand side by side, by the words of their modes.

ghost use Rattle.std.specs.Prelude.{◌+◌, ◌*◌, ◌/◌, ◌-◌, ◌<◌, ◌≤◌, length, slice_index};
ghost use Rattle.sample_words.specs.Values.{modes_in};
ghost use Rattle.spec_picture_filters.specs.Units.{place_of};
ghost use Rattle.filter_words.specs.Filters.{known_place};
ghost use Rattle.filter_words.specs.Regions.{LaysPlaces, is_inside};

use crate::segment_places::{SegmentPlaces, word_place};
use row_filters::RowPlaces;

/// Lays places of a segment that stand side by side in a row of places, by the words of their modes: the column of the
/// first one in the picture, and the row.
pub(crate) fn lay_words(
    words: &[u64],
    segment: &SegmentPlaces,
    x: usize,
    y: usize,
    around: &mut RowPlaces,
)
    requires offset { segment.now.qp_bd_offset ≤ 48 }
    requires few { x + length words.now ≤ 2048 }
    requires columns { x + length words.now ≤ around.old.format.width / 4 }
    requires first { around.old.format.ctb_size / 4 * around.old.above ≤ y }
    requires last { y < around.old.format.ctb_size / 4 * (around.old.above + 3) }
    ensures { LaysPlaces (is_inside x (x + length words.now) y (y + 1))
        (λ i j. place_of segment.now.deblocking
        (known_place segment.now.qp_bd_offset (modes_in (slice_index words.now (i - x))))) around.old around.new }
{
    for k in 0..words.len() {
        around.lay_place(x + k, y, word_place(words[k], segment));
    }
}
