//! What follows from the definitions.

ghost use Rattle.std.specs.Prelude.{◌≡◌, ◌+◌, ◌*◌, ◌<◌, ℕ, Some, slice_get, true};
ghost use Rattle.header_types.specs.SequenceParameterSets.{height_in_ctbs, size_in_ctbs, width_in_ctbs};
ghost use Rattle.plan_types.specs.declared.picture_plan.PicturePlan.{PicturePlan};
ghost use Rattle.spec_picture_trees.specs.Places.{is_of_unit};
ghost use Rattle.spec_picture_trees.specs.Shapes.{picture_shape};
ghost use Rattle.spec_known_units.specs.Known.{KnownUnit, units_known};
ghost use Rattle.flight_facts.specs.SpecFlights.{PlannedFlight, folded_at};
ghost use Rattle.flight_facts.specs.SpecFlights.{values_in};
ghost use Rattle.flight_facts.specs.FlightValueLaws.{IsInRange};
ghost use Rattle.filter_words.specs.Filters.{filter_place, filter_unit};

/// What the loop filters of a picture of a flight need of a place of a known unit is determined by the place's modes
/// and by the plan (`places`). All places of the unit have the number of its slice segment (`segment`), by which, with
/// its sample adaptive offset and the plan, the same is determined of its components (`units`).
pub fn filter_places_come_back()
    ensures places { (f : PlannedFlight) (k : ℕ) (p : PicturePlan) (address : ℕ) (known : KnownUnit) (x y : ℕ)
        → IsInRange f → slice_get f.pictures k ≡ Some p → address < size_in_ctbs p.sps
        → units_known p address ≡ Some known → is_of_unit (picture_shape p.sps p.pps) address x y ≡ true
        → (folded_at f k).filters.places x y ≡ filter_place p ((values_in p (folded_at f k)).modes x y) }
    ensures segment { (f : PlannedFlight) (k : ℕ) (p : PicturePlan) (address : ℕ) (known : KnownUnit) (x y : ℕ)
        → IsInRange f → slice_get f.pictures k ≡ Some p → address < size_in_ctbs p.sps
        → units_known p address ≡ Some known → is_of_unit (picture_shape p.sps p.pps) address x y ≡ true
        → ((values_in p (folded_at f k)).modes x y).segment ≡ known.segment }
    ensures units { (f : PlannedFlight) (k : ℕ) (p : PicturePlan) (row column c : ℕ) (known : KnownUnit)
        → IsInRange f → slice_get f.pictures k ≡ Some p → row < height_in_ctbs p.sps → column < width_in_ctbs p.sps
        → c < 3 → units_known p (row * width_in_ctbs p.sps + column) ≡ Some known
        → (folded_at f k).filters.units c column row
        ≡ filter_unit p known.segment ((values_in p (folded_at f k)).offsets column row) c }
{}
