//! Laws of short-term reference picture sets (H.265 7.4.8).

ghost use Rattle.spec_reference_pictures.specs.ShortTermSets.{KeepsOrder, StaysNear};

/// A set that is read has its entries the nearest first, those before the picture apart from those after it, where all
/// sets read before it have.
pub fn sets_are_nearest_first()
    ensures { KeepsOrder }
{}

/// A set that is read has at most 16 entries; where those of the sets read before are within 32768 n of the picture, n
/// above 13, they are within 32768 (n + 1).
pub fn sets_are_near()
    ensures { StaysNear }
{}
