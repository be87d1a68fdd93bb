//! What follows from the definitions.

ghost use Rattle.std.specs.Prelude.{◌≡◌, ◌<◌, ◌≤◌, ◌^◌, ◌+◌, ◌-◌, ◌*◌, ℕ, All, List, Some, Result};
ghost use Rattle.std.specs.Prelude.{length, slice_get, true};
ghost use Rattle.hv_base.specs.declared.breach.Breach.{Breach};
ghost use Rattle.header_types.specs.SequenceParameterSets.{IsSps, height_in_ctbs, size_in_ctbs, width_in_ctbs};
ghost use Rattle.plan_types.specs.declared.picture_plan.PicturePlan.{PicturePlan};
ghost use Rattle.ctu_records.specs.Tree.{Ctu};
ghost use Rattle.spec_slice_data.specs.Segment.{Between, PictureShape, side_of};
ghost use Rattle.spec_known_units.specs.SpecPictureTrees.{SegmentAt};
ghost use Rattle.spec_known_units.specs.SpecPictureTrees.{is_of_unit, unit_places};
ghost use Rattle.spec_known_units.specs.SpecPictureTrees.{picture_shape};
ghost use Rattle.known_picture_laws.specs.UnitTrees.{Edge};
ghost use Rattle.known_picture_laws.specs.UnitTrees.{bottom_of, place_of, right_of};
ghost use Rattle.known_picture_laws.specs.UnitTreeLaws.{Agree};
ghost use Rattle.known_picture_laws.specs.CabacContexts.{unpacked};
ghost use Rattle.spec_known_units.specs.Known.{Entries, KnownUnit, between_from, contexts_behind, ctu_of};
ghost use Rattle.spec_known_units.specs.Known.{entries_before};
ghost use Rattle.spec_known_units.specs.Known.{picture_segments, read_uses, segment_having, unit_read, units_known};
ghost use Rattle.known_picture_laws.specs.PlanLaws.{IsPlan};
ghost use Rattle.known_picture_laws.specs.SpecPictureMotion.{motion_of};
ghost use Rattle.sample_laws.specs.SpecDecodedPictures.{DecodedUnits};
ghost use Rattle.known_picture_laws.specs.SpecFlights.{BufferPicture, pictures_in};
ghost use Rattle.known_picture_laws.specs.SpecFlights.{PlannedFlight, folded_at, known_decoded};
ghost use Rattle.known_picture_laws.specs.SpecFlights.{flight_sizes, values_in};
ghost use Rattle.flight_value_laws.specs.Motion.{AreMotionsHeld, kept_motion, motion_where};
ghost use Rattle.flight_value_laws.specs.Ranges.{FitWords, HasMotionHeld, IsInRange};
ghost use Rattle.flight_value_laws.specs.Reading.{AgreeWhereRead, AreUsesSound, IsKnownAs, IsLeftBefore, IsLeftEdge};
ghost use Rattle.flight_value_laws.specs.Reading.{IsTopEdge, IsUsed, read_over};

/// Reading a coding tree unit of a flight uses no other units than those that `ReadingUses` of board_core has
/// (`within`). So entries that are the same at these leave the same before it, as far as its reading depends on that
/// (`agree`), and give the same where it is read: the same unit, or the same broken rule (`same`).
pub fn units_are_read_from_what_they_use()
    ensures within { (f : PlannedFlight) (k row x : ℕ) (p : PicturePlan) (at : SegmentAt)
        → slice_get f.pictures k ≡ Some p → x < width_in_ctbs p.sps
        → segment_having (picture_segments p) (row * width_in_ctbs p.sps + x) ≡ Some at
        → All (IsUsed f k row x p) (read_uses at (row * width_in_ctbs p.sps + x)) }
    ensures agree { (f : PlannedFlight) (k row x : ℕ) (p : PicturePlan) (at : SegmentAt) (a b : Entries)
        → slice_get f.pictures k ≡ Some p → x < width_in_ctbs p.sps
        → segment_having (picture_segments p) (row * width_in_ctbs p.sps + x) ≡ Some at
        → AgreeWhereRead f k row x p a b
        → Agree at.picture at.shape (row * width_in_ctbs p.sps + x)
        (between_from (entries_before a (row * width_in_ctbs p.sps + x)) at.picture (row * width_in_ctbs p.sps + x))
        (between_from (entries_before b (row * width_in_ctbs p.sps + x)) at.picture
        (row * width_in_ctbs p.sps + x)) }
    ensures same { (f : PlannedFlight) (k row x : ℕ) (p : PicturePlan) (a b : Entries)
        → slice_get f.pictures k ≡ Some p → x < width_in_ctbs p.sps → AgreeWhereRead f k row x p a b
        → unit_read p a (row * width_in_ctbs p.sps + x) ≡ unit_read p b (row * width_in_ctbs p.sps + x) }
{}

/// A coding tree unit that is read by itself, over edges and behind a state that have what the units before it leave,
/// as far as it reads them, is what reading it by these units gives (`given`). In a flight, where the units that its
/// reading uses are sound, it is what is known of the unit, or the rule that it breaks (`known`). The whole edges of a
/// unit have what it leaves (`right`, `bottom`).
pub fn units_over_their_edges_are_known()
    ensures given { (p : PicturePlan) (known : Entries) (address : ℕ) (at : SegmentAt) (before : Between)
        (left above : Edge) (r : Result KnownUnit Breach)
        → segment_having (picture_segments p) address ≡ Some at → unit_read p known address ≡ Some r
        → IsLeftBefore at (entries_before known address) address before left above
        → read_over at address left above before ≡ r }
    ensures known { (f : PlannedFlight) (k row x : ℕ) (p : PicturePlan) (at : SegmentAt) (before : Between)
        (left above : Edge)
        → slice_get f.pictures k ≡ Some p → row < height_in_ctbs p.sps → x < width_in_ctbs p.sps
        → segment_having (picture_segments p) (row * width_in_ctbs p.sps + x) ≡ Some at
        → AreUsesSound f k row x
        → IsLeftBefore at (entries_before (units_known p) (row * width_in_ctbs p.sps + x))
        (row * width_in_ctbs p.sps + x) before left above
        → IsKnownAs p (row * width_in_ctbs p.sps + x)
        (read_over at (row * width_in_ctbs p.sps + x) left above before) }
    ensures right { (picture : PictureShape) (address : ℕ) (ctu : Ctu) → picture.size ≤ 4
        → IsLeftEdge picture address ctu (right_of (2 ^ picture.size) ctu) }
    ensures bottom { (picture : PictureShape) (address : ℕ) (ctu : Ctu) → picture.size ≤ 4
        → IsTopEdge picture address ctu (bottom_of (2 ^ picture.size) ctu) }
{}

/// The values of each picture of a flight, whose plans are in range (`plans_are_in_range` of plan_laws), fit the words
/// that have them, also where a rule is broken in it: samples in each phase, motion, modes, sample adaptive offset,
/// contexts, and Qp'Y that is carried on. So by `samples_are_unpacked`, `motion_is_unpacked` and `offsets_are_unpacked`
/// of sample_words what is taken out of a word is the value.
pub fn values_fit_their_words()
    ensures { (f : PlannedFlight) (k : ℕ) (p : PicturePlan) → IsInRange f → slice_get f.pictures k ≡ Some p
        → FitWords (flight_sizes p.sps (length f.pictures)) (values_in p (folded_at f k)) }
{}

/// The motion of a picture that is decoded fits, where that of the pictures of its buffer does: of no buffer at first,
/// and so of each one.
pub fn decoded_motion_fits()
    ensures { (buffer : List BufferPicture) (p : PicturePlan) → IsPlan p → All HasMotionHeld buffer
        → AreMotionsHeld (known_decoded (pictures_in buffer) p).motions }
{}

/// The motion that a picture of a flight keeps of a place of a known unit, with the pictures that its vectors point to,
/// is determined by what the words of the place have, its motion and its modes, and by the plan (`kept`). As units
/// beside it take it, it is the motion that the words have, where this has a vector, at every place (`beside`).
pub fn references_come_back()
    ensures kept { (f : PlannedFlight) (k : ℕ) (p : PicturePlan) (address : ℕ) (known : KnownUnit) (x y : ℕ)
        → IsInRange f → slice_get f.pictures k ≡ Some p → address < size_in_ctbs p.sps
        → units_known p address ≡ Some known → is_of_unit (picture_shape p.sps p.pps) address x y ≡ true
        → (folded_at f k).motions x y
        ≡ kept_motion p address ((values_in p (folded_at f k)).modes x y)
        ((values_in p (folded_at f k)).motion x y) }
    ensures beside { (f : PlannedFlight) (k : ℕ) (p : PicturePlan) (x y : ℕ) → IsInRange f
        → slice_get f.pictures k ≡ Some p
        → motion_of ((folded_at f k).motions x y) ≡ motion_where ((values_in p (folded_at f k)).motion x y) }
{}

/// The contexts behind a unit come back from the words that have them: those behind the second unit of a row, and those
/// that the last one carries on.
pub fn contexts_come_back()
    ensures stored { (f : PlannedFlight) (k row : ℕ) (p : PicturePlan) → IsSps p.sps
        → unpacked ((values_in p (folded_at f k)).contexts row)
        ≡ contexts_behind (units_known p (row * width_in_ctbs p.sps + 1)) }
    ensures carried { (f : PlannedFlight) (k row : ℕ) (p : PicturePlan) → IsSps p.sps
        → unpacked ((values_in p (folded_at f k)).carried row).contexts
        ≡ contexts_behind (units_known p (row * width_in_ctbs p.sps + (width_in_ctbs p.sps - 1))) }
{}

/// What was read of the places of a unit, and its sample adaptive offset, come back from its words (`places`,
/// `offsets`). So an edge that is made of the lowest places of the unit above and of its offset has what that leaves
/// (`top`).
pub fn sides_come_back()
    ensures places { (p : PicturePlan) (units : DecodedUnits) (row x i j : ℕ) → x < width_in_ctbs p.sps
        → i < unit_places (picture_shape p.sps p.pps) → j < unit_places (picture_shape p.sps p.pps)
        → ((values_in p units).modes (unit_places (picture_shape p.sps p.pps) * x + i)
        (unit_places (picture_shape p.sps p.pps) * row + j)).side
        ≡ side_of (ctu_of (picture_shape p.sps p.pps) (units_known p (row * width_in_ctbs p.sps + x))) i j }
    ensures offsets { (p : PicturePlan) (units : DecodedUnits) (row x : ℕ)
        → (values_in p units).offsets x row
        ≡ (ctu_of (picture_shape p.sps p.pps) (units_known p (row * width_in_ctbs p.sps + x))).sao }
    ensures top { (p : PicturePlan) (units : DecodedUnits) (row x : ℕ) (edge : Edge) → x < width_in_ctbs p.sps
        → 0 < row → edge.sao ≡ (values_in p units).offsets x (row - 1)
        → ((k : ℕ) → k < unit_places (picture_shape p.sps p.pps)
        → unit_places (picture_shape p.sps p.pps) * x + k < (picture_shape p.sps p.pps).across
        → place_of edge k
        ≡ ((values_in p units).modes (unit_places (picture_shape p.sps p.pps) * x + k)
        (unit_places (picture_shape p.sps p.pps) * row - 1)).side)
        → IsTopEdge (picture_shape p.sps p.pps) (row * width_in_ctbs p.sps + x)
        (ctu_of (picture_shape p.sps p.pps) (units_known p ((row - 1) * width_in_ctbs p.sps + x))) edge }
{}
