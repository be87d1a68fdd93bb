//! The order in which drawn pictures are shown.

ghost use Rattle.std.specs.Prelude.{◌≡◌, ◌<◌};
ghost use Rattle.spec_drawn_pictures.specs.Shown.{shown_at};

/// Which of so many pictures is shown at a place, by its number in the order of drawing.
pub fn shown_at(pictures: u32, place: u32) -> u32
    requires { place < pictures }
    ensures { result ≡ shown_at pictures place }
{
    if place % 8 == 0 {
        place
    } else if place % 2 == 0 {
        place - 1
    } else if place % 8 == 7 || place + 1 == pictures {
        place
    } else {
        place + 1
    }
}
