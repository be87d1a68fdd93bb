//! Laws of the definitions.

ghost use Rattle.std.specs.Prelude.{ℕ, ◌<◌, Bool, true, List, slice_index_or};
ghost use Rattle.plan_types.specs.declared.picture_plan.PicturePlan.{PicturePlan};
ghost use Rattle.plan_types.specs.declared.stated_hash.StatedHash.{StatedHash};
ghost use Rattle.spec_made.specs.Stream.{Making, made};
ghost use Rattle.spec_picture_plan.specs.Planned.{planned_of};
ghost use Rattle.made_laws.specs.Plans.{made_plan};
ghost use Rattle.made_laws.specs.Streams.{slice_at};
ghost use Rattle.made_row_laws.specs.Rows.{IsReadAs};
ghost use Rattle.made_stream_laws.specs.Streams.{items_at, items_of};

/// Each picture of the stream of a seed, as it is planned from the stream's bytes, is read without a broken rule of
/// slice data as the coding tree units that are drawn of it (`all`); so is the plan of every picture that is made of
/// what is drawn, whatever hashes are stated of it (`each`).
pub fn made_streams_hold_their_units()
    ensures each { (first : Bool) (g nal : ℕ) (m : Making) (hashes : List StatedHash)
        → IsReadAs (made_plan first g nal (slice_at g m) hashes) (items_at g m) }
    ensures all { (seed pictures j : ℕ) (d : PicturePlan) → j < pictures
        → IsReadAs (slice_index_or (planned_of true (made seed pictures)).pictures j d) (items_of seed j) }
{}
