//! What follows from the definitions, as a row goes from one of its units to the next.

ghost use Rattle.std.specs.Prelude.{◌≡◌, ◌≢◌, ℕ, ◌+◌, ◌-◌, ◌*◌, ◌<◌, ◌≤◌, Bool, List, Option, length, min, slice_index};
ghost use Rattle.picture_buffer.specs.declared.place_motion.PlaceMotion.{PlaceMotion};
ghost use Rattle.picture_layout.specs.declared.coding_tree_unit.CodingTreeUnit.{CodingTreeUnit};
ghost use Rattle.picture_layout.specs.Shape.{IsShape};
ghost use Rattle.plan_types.specs.declared.picture_plan.PicturePlan.{PicturePlan};
ghost use Rattle.plan_types.specs.declared.segment_plan.SegmentPlan.{SegmentPlan};
ghost use Rattle.row_borders.specs.Borders.{Bordering, at_unit};
ghost use Rattle.row_borders.specs.Building.{HoldsUnit, IsAbove, IsAtLeft, IsBeside};
ghost use Rattle.row_borders.specs.Next.{HasColumn, HasLine, HasPlaces, IsLaid, IsNextInRow, LaysPlace, LaysSamples};
ghost use Rattle.row_borders.specs.Strips.{StripPlaces};
ghost use Rattle.known_picture_laws.specs.SpecDecodedPictures.{DecodedUnits, unit_decoded};
ghost use Rattle.spec_picture_build.specs.Border.{unit_side, width_of};
ghost use Rattle.spec_picture_build.specs.References.{DecodedPicture};
ghost use Rattle.spec_picture_trees.specs.Picture.{TreeUnit};
ghost use Rattle.spec_picture_trees.specs.Places.{first_column, unit_places};
ghost use Rattle.spec_picture_trees.specs.Shapes.{picture_shape};
ghost use Rattle.spec_slice_data.specs.Segment.{PictureShape, column_of, row_of};
ghost use Rattle.unit_build.specs.declared.built.BuiltUnit.{BuiltUnit};

/// A border that has on its left the last column of what was built at the unit there has on its left what units make of
/// the picture that has what was built (`left`). So a border that goes to the next unit of a row, with what was built
/// kept on its left, is beside that unit where it is above it (`beside`); and what is above it may be that before the
/// unit that was built (`behind`). Nothing is on the left of the first unit of a row (`first`).
pub fn borders_stand_beside_the_next_unit()
    ensures left { (p : PicturePlan) (address : ℕ) (border : Bordering) (built : BuiltUnit) (units : DecodedUnits)
        → IsShape border.unit.layout → border.unit.layout ≡ picture_shape p.sps p.pps
        → border.unit.address ≡ address + 1 → 1 ≤ column_of border.unit.layout border.unit.address
        → HoldsUnit p address built units → HasColumn border.unit.layout border.left built
        → IsAtLeft border units }
    ensures beside { (p : PicturePlan) (border : Bordering) (built : BuiltUnit) (units : DecodedUnits)
        (next : CodingTreeUnit)
        → IsShape border.unit.layout → border.unit.layout ≡ picture_shape p.sps p.pps
        → HoldsUnit p border.unit.address built units → HasColumn border.unit.layout border.left built
        → IsNextInRow border.unit next → IsAbove (at_unit border next) units
        → IsBeside (at_unit border next) units }
    ensures behind { (others : List DecodedPicture) (p : PicturePlan) (s : SegmentPlan) (unit : TreeUnit)
        (border : Bordering) (built : BuiltUnit) (units : DecodedUnits) (next : CodingTreeUnit)
        → IsShape border.unit.layout → border.unit.layout ≡ picture_shape p.sps p.pps
        → unit.ctu ≡ border.unit.address
        → HoldsUnit p border.unit.address built (unit_decoded others p s unit units)
        → HasColumn border.unit.layout border.left built
        → IsNextInRow border.unit next → IsAbove (at_unit border next) units
        → IsBeside (at_unit border next) (unit_decoded others p s unit units) }
    ensures first { (border : Bordering) (units : DecodedUnits)
        → first_column border.unit.layout border.unit.address ≡ 0 → IsAtLeft border units }
{}

/// A unit leaves what is above its row, and above the rows over it: so a border that is above its unit as units make
/// the picture is so behind that unit too (`above`), and what is laid above a row stays what units make (`laid`).
pub fn units_leave_what_is_above_them()
    ensures above { (others : List DecodedPicture) (p : PicturePlan) (s : SegmentPlan) (unit : TreeUnit)
        (border : Bordering) (units : DecodedUnits)
        → IsShape border.unit.layout → border.unit.layout ≡ picture_shape p.sps p.pps
        → row_of border.unit.layout border.unit.address ≤ row_of border.unit.layout unit.ctu
        → IsAbove border units → IsAbove border (unit_decoded others p s unit units) }
    ensures laid { (others : List DecodedPicture) (p : PicturePlan) (s : SegmentPlan) (unit : TreeUnit)
        (picture : PictureShape) (row : ℕ) (above : StripPlaces) (units : DecodedUnits) (end : ℕ)
        → IsShape picture → picture ≡ picture_shape p.sps p.pps → row ≤ row_of picture unit.ctu
        → IsLaid picture row above units end
        → IsLaid picture row above (unit_decoded others p s unit units) end }
{}

/// What is laid above a row of units, as far as the end of the unit behind one of them or of the picture, is above that
/// unit (`above`), and it is laid above the next one too (`next`). Before anything is laid, no column is (`none`);
/// above the first row all are, for want of a line there (`top`).
pub fn laid_lines_stand_above()
    ensures above { (border : Bordering) (units : DecodedUnits) (end : ℕ)
        → IsLaid border.unit.layout (row_of border.unit.layout border.unit.address) border.above units end
        → min (first_column border.unit.layout border.unit.address + 2 * unit_places border.unit.layout)
        border.unit.layout.across ≤ end
        → IsAbove border units }
    ensures next { (unit next : CodingTreeUnit) (above : StripPlaces) (units : DecodedUnits) (end : ℕ)
        → IsShape unit.layout → IsNextInRow unit next
        → IsLaid unit.layout (row_of unit.layout unit.address) above units end
        → IsLaid next.layout (row_of next.layout next.address) above units end }
    ensures none { (picture : PictureShape) (row : ℕ) (above : StripPlaces) (units : DecodedUnits)
        → IsLaid picture row above units 0 }
    ensures top { (picture : PictureShape) (above : StripPlaces) (units : DecodedUnits) (end : ℕ)
        → IsLaid picture 0 above units end }
{}

/// A line that is laid goes on by samples that are laid where it ends (`samples`), and those of other components stay
/// (`others`); places go on by one that is laid where they end (`places`).
pub fn laid_lines_go_on()
    ensures samples { (picture : PictureShape) (row : ℕ) (old new : StripPlaces) (units : DecodedUnits)
        (c first : ℕ) (samples : List ℕ)
        → LaysSamples old new c first samples
        → ((k : ℕ) → 1 ≤ row → k < length samples → first + k < width_of picture c
        → slice_index samples k ≡ units.samples c (first + k) (unit_side picture c * row - 1))
        → HasLine picture row old units c first
        → HasLine picture row new units c (first + length samples) }
    ensures others { (picture : PictureShape) (row : ℕ) (old new : StripPlaces) (units : DecodedUnits)
        (c first : ℕ) (samples : List ℕ) (i end : ℕ)
        → LaysSamples old new c first samples
        → i ≢ c → HasLine picture row old units i end → HasLine picture row new units i end }
    ensures places { (picture : PictureShape) (row : ℕ) (old new : StripPlaces) (units : DecodedUnits) (x : ℕ)
        (motion : Option PlaceMotion) (coded : Bool)
        → LaysPlace old new x motion coded
        → (1 ≤ row → x < picture.across → motion ≡ units.motions x (unit_places picture * row - 1))
        → (1 ≤ row → x < picture.across → coded ≡ units.filters.coded x (unit_places picture * row - 1))
        → HasPlaces picture row old units x → HasPlaces picture row new units (x + 1) }
{}
