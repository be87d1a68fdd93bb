//! Where the words of a coding tree unit's places stand among the words of the unit.

ghost use Rattle.std.specs.Prelude.{◌≡◌, ◌+◌, ◌*◌, ◌<◌, ◌≤◌};
ghost use Rattle.border_words.specs.Units.{ArePlaceWords};
ghost use Rattle.hv_base.specs.declared.line.Phase.TheVariants.{B};
ghost use Rattle.line_words.specs.Places.{IsUnit};

use line_words::UnitPlace;
use sample_words::{Layout, UnitContent};

/// How many places of 4x4 luma samples a unit has, and where their words and those of its sample adaptive offset
/// stand.
#[derive(Clone, Copy)]
pub(crate) struct PlaceWords {
    /// How many places it has across.
    pub columns: usize,
    /// How many it has down.
    pub rows: usize,
    /// Which word has the vectors of the first place.
    pub vectors: usize,
    /// Which word has its modes.
    pub modes: usize,
    /// Which word is the first of the two of sample adaptive offset.
    pub offsets: usize,
}

impl PlaceWords {
    /// Those of a unit.
    pub(crate) fn new(layout: &Layout, at: &UnitPlace) -> PlaceWords
        requires place { at.now.sizes ≡ layout.now }
        requires phase { at.now.line.phase ≡ B }
        ensures words { ArePlaceWords at.now result }
        ensures unit { IsUnit at.now }
    {
        let line = at.line();
        let unit = at.unit();
        let column = u64::from(unit);
        let _sizes = layout.sizes();
        let shape = layout.unit_shape(line, column);
        let index = layout.index_of(shape, UnitContent::Offsets(0));
        let offsets = index as usize;
        let (columns, rows) = (shape.width as usize / 4, shape.height as usize / 4);
        let places = columns * rows;
        PlaceWords {
            columns,
            rows,
            vectors: offsets - 2 * places,
            modes: offsets - places,
            offsets,
        }
    }
}
