//! Laws of the definitions.

ghost use Rattle.std.specs.Prelude.{◌≡◌, ℕ, ◌≤◌, List, ◌∷◌, ◌++◌, length, Ok};
ghost use Rattle.std.specs.List.{range_with_len, flat_map};
ghost use Rattle.spec_slice_headers.specs.PlanTypes.{PicturePlan};
ghost use Rattle.spec_slice_headers.specs.PlanTypes.{SegmentPlan};
ghost use Rattle.spec_picture_trees.specs.Picture.{Progress, TreeUnit, forgotten, picture_data, picture_read};
ghost use Rattle.spec_picture_trees.specs.Shapes.{end_of};
ghost use Rattle.spec_slice_headers.specs.PlanTypes.{AreInOrder, address_of};
ghost use Rattle.spec_picture_trees.specs.Units.{addresses, picture_units, segment_units, shared_units, with_segments};

/// Reading a picture's units, each handed over, is reading the data of its segments one after the other.
pub fn picture_is_its_segments()
    ensures { (p : PicturePlan) (given : List TreeUnit) → forgotten (picture_read p given) ≡ picture_data p }
{}

/// Where addresses rise inside the picture, a segment ends at the next one's address.
pub fn segments_end_where_the_next_begins()
    ensures { (size first : ℕ) (next : SegmentPlan) (later : List SegmentPlan) → first ≤ address_of next
        → address_of next ≤ size → end_of size first (next ∷ later) ≡ address_of next }
{}

/// The coding tree units of the segments, one segment after the other, are all units of the picture, each once, where
/// the segments are in order.
pub fn segments_share_out_the_units()
    ensures { (p : PicturePlan) → AreInOrder p
        → flat_map (segment_units p) (range_with_len 0 (length p.segments)) ≡ picture_units p }
{}

/// Where the segments are in order, a picture that is read without a broken rule has all its units, and each is read as
/// one of the segment that it belongs to.
pub fn pictures_have_all_units()
    ensures all { (p : PicturePlan) (given : List TreeUnit) (read : Progress) → AreInOrder p
        → picture_read p given ≡ Ok read → addresses read.given ≡ addresses given ++ picture_units p }
    ensures shared { (p : PicturePlan) (given : List TreeUnit) (read : Progress) → AreInOrder p
        → picture_read p given ≡ Ok read → with_segments read.given ≡ with_segments given ++ shared_units p }
{}
