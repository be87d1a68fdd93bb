//! Laws of the definitions.

ghost use Rattle.std.specs.Prelude.{◌≡◌, ℕ, Bool, true, false, List, [], ◌++◌, Some, Ok};
ghost use Rattle.header_types.specs.declared.former.Former.{Former};
ghost use Rattle.header_types.specs.declared.former.Sets.{Sets};
ghost use Rattle.spec_slice_headers.specs.SliceTypes.{SliceHeaderFields};
ghost use Rattle.spec_slice_headers.specs.PlanTypes.{PicturePlan};
ghost use Rattle.spec_output_order.specs.SpecBits.{bits};
ghost use Rattle.spec_slice_headers.specs.SpecNalUnits.{NalUnit, Told};
ghost use Rattle.spec_picture_plan.specs.Grouping.{AreGrouped, decoded_units};
ghost use Rattle.spec_picture_plan.specs.Pictures.{beginning};
ghost use Rattle.spec_picture_plan.specs.Planned.{Extends, planned_from, planned_of};
ghost use Rattle.spec_picture_plan.specs.Steps.{first_flag, judged_header, opening};

/// The pictures that a front of an input shows to be over begin those of the whole input, however it goes on; and a
/// broken rule or limit in the front is that of the whole input.
pub fn fronts_stay()
    ensures { (front : List ℕ) (rest : List ℕ) (ended : Bool)
        → Extends (planned_of false front) (planned_of ended (front ++ rest)) }
{}

/// The slice segments of all pictures, joined, are the units that are decoded, before what stops the stream, in their
/// order; each picture begins where first_slice_segment_in_pic_flag is 1, and nowhere else (7.4.2.4.4).
pub fn segments_are_grouped_to_pictures()
    ensures { (ended : Bool) (told : List Told)
        → AreGrouped ended (decoded_units beginning told) (planned_from ended beginning told) }
{}

/// A header that is accepted as the first of a picture opens one: nothing is refused behind it. Its
/// first_slice_segment_in_pic_flag is 1.
pub fn accepted_headers_open_pictures()
    ensures opens { (sets : Sets) (former : Former) (u : NalUnit) (header : SliceHeaderFields)
        → judged_header sets former [] u ≡ Ok header → (p : PicturePlan) × (opening sets former u ≡ Ok p) }
    ensures first { (sets : Sets) (former : Former) (u : NalUnit) (header : SliceHeaderFields)
        → judged_header sets former [] u ≡ Ok header → first_flag (bits u.payload) ≡ Some true }
{}
