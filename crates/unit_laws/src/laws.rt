//! Laws of the definitions.

ghost use Rattle.std.specs.Prelude.{◌≡◌, ℕ, ◌-◌, ◌^◌, ◌<◌, ◌≤◌, pos, true, List, [], Ok, Err};
ghost use Rattle.std.specs.List.{All};
ghost use Rattle.block_geometry.specs.Availability.{available};
ghost use Rattle.header_types.specs.SequenceParameterSets.{IsSps, min_tb_log2};
ghost use Rattle.spec_picture_build.specs.PlanTypes.{PicturePlan};
ghost use Rattle.spec_picture_build.specs.PlanTypes.{SegmentPlan};
ghost use Rattle.spec_picture_build.specs.SpecPictureTrees.{TreeUnit, Progress, Halt, picture_read};
ghost use Rattle.spec_picture_build.specs.Format.{unit_format};
ghost use Rattle.spec_picture_build.specs.SpecReconstruction.{IsFormat, AreSound};
ghost use Rattle.spec_cabac.specs.Bins.{State, read};
ghost use Rattle.ctu_records.specs.Tree.{Ctu};
ghost use Rattle.spec_picture_build.specs.SpecPictureTrees.{first_column, first_row, is_available};
ghost use Rattle.spec_picture_build.specs.SpecPictureTrees.{unit_at as unit_of};
ghost use Rattle.spec_picture_build.specs.SpecPictureTrees.{unit_places};
ghost use Rattle.spec_picture_build.specs.SpecPictureTrees.{in_places, picture_shape, segment_syntax};
ghost use Rattle.block_geometry.specs.CodingTreeBlocks.{is_from};
ghost use Rattle.spec_slice_data.specs.Segment.{Between, PictureShape, SegmentShape, unit_at};
ghost use Rattle.spec_slice_data.specs.declared.syntax.CtuSyntax.{CtuSyntax};
ghost use Rattle.spec_slice_data.specs.declared.syntax.End.{End};
ghost use Rattle.ctu_records.specs.declared.prediction.PartMode.{PartMode};
ghost use Rattle.spec_slice_data.specs.Inter.{part_count};
ghost use Rattle.unit_laws.specs.Laid.{laid_items};
ghost use Rattle.unit_laws.specs.Parts.{AreLaidBefore, least_side};
ghost use Rattle.unit_laws.specs.Order.{AreAvailable, AreScanned, coding_squares, slice_area};

/// Where a picture's sequence parameter set is in range, its slices have formats for which samples are told, and so are
/// the items of all units that are read, of those before the first broken rule too.
pub fn units_that_are_read_are_sound()
    ensures format { (p : PicturePlan) (s : SegmentPlan) → IsSps p.sps
        → IsFormat (unit_format p.sps p.pps s.header.slice) }
    ensures read { (p : PicturePlan) (progress : Progress) → IsSps p.sps → picture_read p [] ≡ Ok progress
        → All
        (λ (unit : TreeUnit). (s : SegmentPlan) → AreSound (unit_format p.sps p.pps s.header.slice) unit.read.items)
        progress.given }
    ensures halted { (p : PicturePlan) (halt : Halt) → IsSps p.sps → picture_read p [] ≡ Err halt
        → All
        (λ (unit : TreeUnit). (s : SegmentPlan) → AreSound (unit_format p.sps p.pps s.header.slice) unit.read.items)
        halt.given }
{}

/// The coding units of a coding tree unit are read in z-scan order: of the places that the picture has in it, those
/// before a coding unit's first place are those of the coding units that are read before it, and all places are in one
/// once the unit is read. So what is laid before a coding unit is what comes before it in that order.
pub fn coding_units_are_in_scan_order()
    ensures { (common : CtuSyntax) (picture : PictureShape) (segment : SegmentShape) (address : ℕ) (between : Between)
        (s t : State) (unit : Ctu × End)
        → picture.size ≤ 4 → common.log2_min_coding ≤ picture.size
        → read (unit_at common picture segment address between) s ≡ Ok (unit, t)
        → AreScanned common.log2_min_coding picture.size (picture.across - first_column picture address)
        (picture.down - first_row picture address) (coding_squares unit.0.items) }
{}

/// Where samples and motion are read beside a coding unit, the standard's process of availability in z-scan order
/// (6.4.1) says the same as the definitions here, by which a place may be read once it was laid before:
///
/// - `beside`: of another coding tree unit a place is there to be read (`is_available`) exactly where it is available
///   for a place of this unit: the picture has it, it is of the same slice, and its minimum transform block doesn't
///   come behind that of the place;
/// - `inside`: of the same coding tree unit a place that the picture has is one of the coding units read before a
///   coding unit exactly where it is available for that one's first place;
/// - `laid`: and it is in one of the squares in which samples were laid before another square, the transform units of a
///   coding unit in intra mode each for itself, exactly where it is available for that square's first place.
pub fn availability_is_by_scan_order()
    ensures beside { (p : PicturePlan) (slice address x y i j : ℕ) → IsSps p.sps
        → unit_of (picture_shape p.sps p.pps) (unit_places (picture_shape p.sps p.pps)) x y ≡ address
        → ¬ (unit_of (picture_shape p.sps p.pps) (unit_places (picture_shape p.sps p.pps)) i j ≡ address)
        → is_available (picture_shape p.sps p.pps) slice address i j
        ≡ available (slice_area (picture_shape p.sps p.pps) (in_places (min_tb_log2 p.sps.blocks)) slice) x y
        (pos i) (pos j) }
    ensures inside { (p : PicturePlan) (s : SegmentPlan) (segment : SegmentShape) (address : ℕ) (between : Between)
        (u v : State) (unit : Ctu × End)
        → IsSps p.sps → is_from segment.slice address ≡ true
        → read (unit_at (segment_syntax p s) (picture_shape p.sps p.pps) segment address between) u ≡ Ok (unit, v)
        → AreAvailable (picture_shape p.sps p.pps) (in_places (min_tb_log2 p.sps.blocks)) segment.slice address
        (coding_squares unit.0.items) }
    ensures laid { (p : PicturePlan) (s : SegmentPlan) (segment : SegmentShape) (address : ℕ) (between : Between)
        (u v : State) (unit : Ctu × End)
        → IsSps p.sps → is_from segment.slice address ≡ true
        → read (unit_at (segment_syntax p s) (picture_shape p.sps p.pps) segment address between) u ≡ Ok (unit, v)
        → AreAvailable (picture_shape p.sps p.pps) (in_places (min_tb_log2 p.sps.blocks)) segment.slice address
        (laid_items unit.0.items).squares }
{}

/// Between the prediction units of a coding unit the standard's process (6.4.2) says the same: each place beside a part
/// that a spatial candidate is taken from, and that stands in the coding unit, was laid before the part exactly where
/// it is available. So it is in coding units of every part mode, of 8x8 to 64x64 luma samples, or of 16x16 ones on
/// where the parts are not of one size.
pub fn parts_are_available_as_they_are_laid()
    ensures { (mode : PartMode) (log2 part : ℕ) → least_side mode ≤ log2 → log2 ≤ 4 → part < part_count mode
        → AreLaidBefore (2 ^ log2) mode part }
{}
