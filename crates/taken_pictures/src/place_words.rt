//! Where the words of a coding tree unit's places stand among the words of the unit.

ghost use Rattle.std.specs.Prelude.{◌≡◌};
ghost use Rattle.hv_base.specs.declared.line.Phase.TheVariants.{B};
ghost use Rattle.line_words.specs.Places.{IsUnit};
ghost use Rattle.taken_pictures.specs.Places.{ArePlaceWords};

use line_words::UnitPlace;
use sample_words::{Layout, UnitContent};

/// How many places of 4x4 luma samples the picture has of a unit, and where their words stand.
#[derive(Clone, Copy)]
pub(crate) struct PlaceWords {
    /// How many there are across.
    pub(crate) columns: usize,
    /// How many there are down.
    pub(crate) rows: usize,
    /// Which word has the vectors of the first place.
    pub(crate) vectors: usize,
    /// Which word has its modes.
    pub(crate) modes: usize,
}

impl PlaceWords {
    /// Those of a unit.
    pub(crate) fn new(layout: &Layout, at: &UnitPlace) -> PlaceWords
        requires place { at.now.sizes ≡ layout.now }
        requires phase { at.now.line.phase ≡ B }
        ensures words { ArePlaceWords at.now result }
        ensures unit { IsUnit at.now }
    {
        let line = at.line();
        let unit = at.unit();
        let column = u64::from(unit);
        let _sizes = layout.sizes();
        let shape = layout.unit_shape(line, column);
        let index = layout.index_of(shape, UnitContent::Offsets(0));
        let behind = index as usize;
        let (columns, rows) = (shape.width as usize / 4, shape.height as usize / 4);
        let places = columns * rows;
        PlaceWords {
            columns,
            rows,
            vectors: behind - 2 * places,
            modes: behind - places,
        }
    }
}
