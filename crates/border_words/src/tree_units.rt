//! Coding tree units of a flight by their place in their picture.

ghost use Rattle.std.specs.Prelude.{◌≡◌, ◌+◌, ◌*◌, ◌<◌, ◌≤◌};
ghost use Rattle.hv_base.specs.declared.line.Phase.TheVariants.{B};
ghost use Rattle.picture_layout.specs.Shape.{IsShape};
ghost use Rattle.spec_picture_trees.specs.Places.{unit_places};

use line_words::UnitPlace;
use picture_layout::{CodingTreeUnit, Layout as PictureLayout};
use sample_words::Layout;

/// A unit in a picture of this shape. Which slice it is of is left open: the motion that a picture keeps of it doesn't
/// depend on that.
pub(crate) fn unit_of(layout: &Layout, at: &UnitPlace, picture: PictureLayout) -> CodingTreeUnit
    requires place { at.now.sizes ≡ layout.now }
    requires phase { at.now.line.phase ≡ B }
    ensures layout { result.layout ≡ picture }
    ensures address { result.address ≡ at.now.line.row * picture.width + at.now.unit }
    ensures unit { at.now.unit < 512 }
    ensures side { unit_places picture ≤ 16 }
    ensures shape { IsShape picture }
{
    let _rows = layout.rows();
    let _columns = layout.columns();
    let _side = picture.side();
    let line = at.line();
    let unit = at.unit();
    let width = picture.width();
    let first = line.row * width;
    let address = first + unit;
    CodingTreeUnit {
        layout: picture,
        slice: 0,
        address,
    }
}
