//! Laws of the definitions.

ghost use Rattle.std.specs.Prelude.{◌≡◌, ℕ, ℤ, All, List, [], length, slice_index_or, Option, Some, None, Ok, true};
ghost use Rattle.std.specs.Prelude.{false, ◌+◌, ◌<◌, ◌≤◌};
ghost use Rattle.std.specs.List.{count_by};
ghost use Rattle.header_types.specs.declared.reference_pictures.DpbPicture.{DpbPicture};
ghost use Rattle.header_types.specs.declared.reference_pictures.Mark.{Mark};
ghost use Rattle.header_types.specs.declared.reference_pictures.Rps.{Rps};
ghost use Rattle.plan_types.specs.SliceTypes.{PictureKind};
ghost use Rattle.plan_types.specs.SliceTypes.{ReferenceFields};
ghost use Rattle.spec_reference_pictures.specs.PictureOrderCount.{begins_anew};
ghost use Rattle.spec_reference_pictures.specs.ReferencePictureSet.{is_reference, reference_picture_set};
ghost use Rattle.spec_output_order.specs.declared.current_picture.CurrentPicture.{CurrentPicture};
ghost use Rattle.spec_output_order.specs.declared.next_output.NextOutput.{NextOutput};
ghost use Rattle.spec_output_order.specs.OutputOrder.{GoesOutAtOnce, NoneNeededForOutput, all_marked, bumped, entered};
ghost use Rattle.spec_output_order.specs.OutputOrder.{is_full_of_references, is_needed_for_output, last_outputs};
ghost use Rattle.spec_output_order.specs.OutputOrder.{next_output, outputs_of, size_of, started};
ghost use Rattle.spec_output_order.specs.Buffer.{place_outputs, start_outputs, started_and_placed};
ghost use Rattle.spec_output_order.specs.Waiting.{GoesOutOnce, HasRoom, IsBumping, IsDiscarded, IsFirstForOutput};
ghost use Rattle.spec_output_order.specs.Waiting.{IsInRange, IsQuietAt, IsStill, Waits, WaitsAndThen, picture_at};

/// The buffer behind a picture has that picture, those that it marks as reference, and at most max_num_reorder_pics
/// that are needed for output.
pub fn few_pictures_stay()
    ensures { (current : CurrentPicture) (dpb : List DpbPicture) (marks : List Mark)
        → length (outputs_of current dpb marks).dpb
        ≤ count_by is_reference marks + 1 + current.ordering.max_num_reorder_pics }
{}

/// Where no picture is needed for output, a picture that is to be put out and may not be reordered goes out at once,
/// alone, and then none is needed for output; and none goes out at the end of the input.
pub fn lone_pictures_go_out_at_once()
    ensures once { (current : CurrentPicture) (dpb : List DpbPicture) (marks : List Mark)
        → NoneNeededForOutput dpb → current.pic_output_flag ≡ true → current.ordering.max_num_reorder_pics ≡ 0
        → GoesOutAtOnce (length dpb) (outputs_of current dpb marks) }
    ensures last { (dpb : List DpbPicture) → NoneNeededForOutput dpb → last_outputs dpb ≡ [] }
{}

/// A picture that goes out waits, and has the least order count of those that wait; and pictures go out one after the
/// other while the buffer is over its bounds, until it isn't or none waits.
pub fn first_pictures_go_out()
    ensures next { (pictures : List DpbPicture) (n : NextOutput) → next_output pictures ≡ Some n
        → IsFirstForOutput pictures n.place }
    ensures count { (pictures : List DpbPicture) (n : NextOutput) → next_output pictures ≡ Some n
        → n.poc ≡ (picture_at pictures n.place).poc }
    ensures none { (pictures : List DpbPicture) → next_output pictures ≡ None → NoneNeededForOutput pictures }
    ensures bumping { (reorder : ℕ) (size : Option ℕ) (pictures : List DpbPicture)
        → IsBumping reorder size pictures (bumped reorder size pictures).out (bumped reorder size pictures).left }
{}

/// Before a picture is decoded none waits, where it begins anew, else the buffer has room or none waits; and behind it
/// no more wait than may be reordered.
pub fn buffer_keeps_its_bounds()
    ensures anew { (current : CurrentPicture) (pictures : List DpbPicture)
        → current.begins_anew ≡ true → NoneNeededForOutput (started current pictures).left }
    ensures before { (current : CurrentPicture) (pictures : List DpbPicture) → current.begins_anew ≡ false
        → HasRoom current.ordering.max_num_reorder_pics (Some (current.ordering.max_dec_pic_buffering_minus1 + 1))
        (started current pictures).left }
    ensures behind { (current : CurrentPicture) (dpb : List DpbPicture) (marks : List Mark)
        → count_by is_needed_for_output (outputs_of current dpb marks).dpb ≤ current.ordering.max_num_reorder_pics }
{}

/// A picture that waits goes out once, or waits on, or is discarded, and no other picture goes out; where the input
/// ends each picture that waits goes out once.
pub fn waiting_pictures_go_out_once()
    ensures waiting { (current : CurrentPicture) (dpb : List DpbPicture) (marks : List Mark) (place : ℕ)
        → Waits (entered current dpb) place → WaitsAndThen current (length dpb) (outputs_of current dpb marks) place }
    ensures other { (current : CurrentPicture) (dpb : List DpbPicture) (marks : List Mark) (place : ℕ)
        → ¬ Waits (entered current dpb) place → IsQuietAt (outputs_of current dpb marks) place }
    ensures discarded { (current : CurrentPicture) (dpb : List DpbPicture) (marks : List Mark) (place : ℕ)
        → IsDiscarded current (length dpb) place → IsQuietAt (outputs_of current dpb marks) place }
    ensures last { (dpb : List DpbPicture) (place : ℕ) → GoesOutOnce dpb (last_outputs dpb) place }
{}

/// Outputs name places of the buffer, and what stays is the picture at its place as the current picture marks it;
/// marking leaves no picture out.
pub fn outputs_name_pictures_of_the_buffer()
    ensures places { (current : CurrentPicture) (dpb : List DpbPicture) (marks : List Mark)
        → IsInRange (length dpb) (outputs_of current dpb marks) }
    ensures last { (dpb : List DpbPicture) → All (λ (k : ℕ). k < length dpb) (last_outputs dpb) }
    ensures kept { (current : CurrentPicture) (dpb : List DpbPicture) (marks : List Mark) (at : ℕ)
        → at < length (outputs_of current dpb marks).kept
        → IsStill (picture_at (outputs_of current dpb marks).dpb at)
        (picture_at (entered current (all_marked dpb marks))
        (slice_index_or (outputs_of current dpb marks).kept at 0)) }
    ensures marked { (dpb : List DpbPicture) (marks : List Mark) → length (all_marked dpb marks) ≡ length dpb }
{}

/// Where a buffer isn't full of references, a start leaves a place in it, a placing takes one, and behind a picture no
/// more pictures are in it than it holds; a picture that begins anew marks none as reference.
pub fn buffer_keeps_its_size()
    ensures start { (current : CurrentPicture) (dpb : List DpbPicture) (marks : List Mark)
        → is_full_of_references current.begins_anew current.ordering marks ≡ false
        → (current.begins_anew ≡ true → count_by is_reference marks ≡ 0)
        → length (start_outputs current dpb marks).dpb ≤ current.ordering.max_dec_pic_buffering_minus1 }
    ensures place { (reorder : ℕ) (picture : DpbPicture) (pictures : List DpbPicture)
        → length (place_outputs reorder picture pictures).dpb ≤ length pictures + 1 }
    ensures both { (current : CurrentPicture) (dpb : List DpbPicture) (marks : List Mark)
        → is_full_of_references current.begins_anew current.ordering marks ≡ false
        → (current.begins_anew ≡ true → count_by is_reference marks ≡ 0)
        → length (outputs_of current dpb marks).dpb ≤ size_of current.ordering }
    ensures anew { (kind : PictureKind) (references : ReferenceFields) (poc : ℤ) (dpb : List DpbPicture) (rps : Rps)
        → begins_anew kind ≡ true
        → reference_picture_set kind references poc dpb ≡ Ok rps → count_by is_reference rps.marks ≡ 0 }
{}

/// What a picture puts out and leaves is what it puts out as it starts and then, in the buffer that this leaves, as it
/// is placed.
pub fn outputs_are_a_start_and_a_placing()
    ensures { (current : CurrentPicture) (dpb : List DpbPicture) (marks : List Mark)
        → outputs_of current dpb marks ≡ started_and_placed current dpb marks }
{}
