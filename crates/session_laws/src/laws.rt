//! Laws of a stream that comes in pieces.

ghost use Rattle.std.specs.Prelude.{◌≡◌, ℕ, ◌<◌, ◌≤◌, All, Bool, List, ◌∷◌, ◌++◌, length};
ghost use Rattle.plan_types.specs.declared.picture_plan.PicturePlan.{PicturePlan};
ghost use Rattle.spec_nal_units.specs.Judged.{Told};
ghost use Rattle.spec_picture_plan.specs.Pictures.{beginning};
ghost use Rattle.spec_picture_plan.specs.Planned.{planned_from, planned_of};
ghost use Rattle.picture_plan.specs.Plans.{Plans, behind_unit};
ghost use Rattle.spec_decoder.specs.Decoder.{BufferPicture, kept_from};
ghost use Rattle.spec_decoder.specs.Trail.{trail_of};
ghost use Rattle.session_laws.specs.Closings.{IsBeforeClosing};

/// Each planned picture is closed in the trail of its stream, behind exactly the pictures that are planned before it;
/// and what goes out along the trail up to there is what is decoded of these, so nothing else stops decoding there. So
/// it is of a whole input and of what has come of one.
pub fn closings_stand_in_the_trail()
    ensures { (hash ended : Bool) (bytes : List ℕ) (first : List PicturePlan) (p : PicturePlan)
        (more : List PicturePlan) → (planned_of ended bytes).pictures ≡ first ++ p ∷ more
        → IsBeforeClosing hash (trail_of ended bytes) first p }
{}

/// Behind each planned picture at most 16 pictures stay in the decoded picture buffer (A.4.1, C.5.2.2).
pub fn pictures_keep_few()
    ensures { (ended : Bool) (told : List Told)
        → All (λ (p : PicturePlan). length p.outputs.kept ≤ 16) (planned_from ended beginning told).pictures }
{}

/// Of a buffer no more pictures stay than places are named.
pub fn kept_places_are_few()
    ensures { (places : List ℕ) (place : ℕ) (buffer : List BufferPicture)
        → length (kept_from places place buffer) ≤ length places }
{}

/// A call of `unit` leaves a planner's `ahead` as it was (`ahead`), and no more pictures waiting than a flight has at
/// most (`few`), and fewer where fewer waited before (`fewer`).
pub fn units_leave_few_pending()
    ensures ahead { (p : Plans) (told : List Told) → (behind_unit p told).left.ahead ≡ p.ahead }
    ensures few { (p : Plans) (told : List Told) → 1 ≤ p.ahead → length p.pending ≤ p.ahead
        → length (behind_unit p told).left.pending ≤ p.ahead }
    ensures fewer { (p : Plans) (told : List Told) → length p.pending < p.ahead
        → length (behind_unit p told).left.pending < p.ahead }
{}
