//! The order in which coding tree units are decoded (6.5.1).

ghost use Rattle.std.specs.Prelude.{◌≡◌, ℕ};
ghost use Rattle.block_geometry.specs.CodingTreeBlocks.{ctb_place, ctb_scan};

/// Each coding tree unit is decoded in one place, and in each place one unit: addresses and places are each other's.
pub fn each_unit_has_one_place()
    ensures place { (place : ℕ) → ctb_place (ctb_scan place) ≡ place }
    ensures address { (address : ℕ) → ctb_scan (ctb_place address) ≡ address }
{}
