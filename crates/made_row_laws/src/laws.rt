//! Laws of the definitions.

ghost use Rattle.std.specs.Prelude.{◌≡◌, ℕ, ◌*◌, ◌<◌, Bool, List, [], ◌++◌, length, get_or};
ghost use Rattle.plan_types.specs.declared.picture_plan.PicturePlan.{PicturePlan};
ghost use Rattle.rand_pcg.specs.Lcg.{Lcg};
ghost use Rattle.spec_made.specs.declared.units.InterUnit.{InterUnit};
ghost use Rattle.spec_made.specs.declared.units.Motion.{Motion};
ghost use Rattle.spec_made.specs.declared.units.PcmUnit.{PcmUnit};
ghost use Rattle.spec_made.specs.Draws.{motion_of, pcm_units_of};
ghost use Rattle.spec_made.specs.InterRows.{contexts_at, contexts_of_motion, init_type, inter_row};
ghost use Rattle.spec_made.specs.PcmRows.{no_samples, pcm_contexts_at, pcm_row};
ghost use Rattle.spec_slice_data.specs.Segment.{Between, unit_at};
ghost use Rattle.made_row_laws.specs.Answers.{IsDriven};
ghost use Rattle.made_row_laws.specs.Rows.{AreReadBack, HasWords, IsReadAs, IsReadBy};
ghost use Rattle.made_row_laws.specs.Shapes.{idr_syntax, made_segment, made_shape, predicted_syntax};
ghost use Rattle.made_row_laws.specs.Units.{ArePcmUnits, IsMotion, inter_items, pcm_items, unit_drawn, units_drawn};
ghost use Rattle.made_row_laws.specs.Words.{end_behind, flags_behind, inter_words, pcm_words, row_words};

/// What is drawn of a picture is in the ranges that the laws ask for: vectors of up to 200 each way, and 48 units of
/// 384 samples of 8 bits.
pub fn drawn_units_are_in_range()
    ensures motion { (both : Bool) (g : Lcg) → IsMotion (motion_of both g).0 }
    ensures pcm { (g : Lcg) → ArePcmUnits (pcm_units_of g).0 }
{}

/// Behind the units that were drawn before it, what is written of a coding tree unit drives its tree, with the flags
/// that follow it, to the unit drawn, and every word is asked for.
pub fn made_units_are_driven()
    ensures inter { (init_type : ℕ) (row : ℕ → List ℕ) (m : Motion) (units : List InterUnit) (i : ℕ)
        (between : Between)
        → i < 48 → IsMotion m → between.units ≡ units_drawn (inter_items m units) i → between.last ≡ 26
        → IsDriven (unit_at (predicted_syntax m.second) made_shape (made_segment init_type row) i between)
        (unit_drawn (inter_items m units) i, end_behind i) (inter_words m units i ++ flags_behind i) }
    ensures pcm { (init_type : ℕ) (row : ℕ → List ℕ) (units : List PcmUnit) (i : ℕ) (between : Between)
        → i < 48 → length (get_or units i no_samples).samples ≡ 384
        → between.units ≡ units_drawn (pcm_items units) i → between.last ≡ 26
        → IsDriven (unit_at idr_syntax made_shape (made_segment init_type row) i between)
        (unit_drawn (pcm_items units) i, end_behind i) (pcm_words units i ++ flags_behind i) }
{}

/// The engine that starts at the first byte of a row has the words of its eight units, one after the other, from the
/// contexts with which the row begins, and the bits behind them end a substream.
pub fn made_rows_are_spelled()
    ensures inter { (m : Motion) (units : List InterUnit) (r : ℕ) → r < 6
        → HasWords (inter_row m units r) (row_words (inter_words m units) (8 * r) 8)
        (contexts_at (contexts_of_motion m) m units r) }
    ensures pcm { (units : List PcmUnit) (r : ℕ) → ArePcmUnits units → r < 6
        → HasWords (pcm_row units r) (row_words (pcm_words units) (8 * r) 8) (pcm_contexts_at units r) }
{}

/// The rows of a picture are read as one slice segment, without a broken rule, and the units that are read are those
/// drawn.
pub fn made_rows_read_back()
    ensures inter { (m : Motion) (units : List InterUnit) (before : Between) → IsMotion m → before.units ≡ []
        → AreReadBack (predicted_syntax m.second) (made_segment (init_type m.second) (inter_row m units))
        (inter_items m units) before }
    ensures pcm { (units : List PcmUnit) (before : Between) → ArePcmUnits units → before.units ≡ []
        → AreReadBack idr_syntax (made_segment 0 (pcm_row units)) (pcm_items units) before }
{}

/// Every planned picture of one slice segment that is read by what made pictures are read by, and whose substreams are
/// the rows, is read as the units drawn.
pub fn made_pictures_read_back()
    ensures inter { (p : PicturePlan) (m : Motion) (units : List InterUnit) → IsMotion m
        → IsReadBy p (predicted_syntax m.second) (made_segment (init_type m.second) (inter_row m units))
        → IsReadAs p (inter_items m units) }
    ensures pcm { (p : PicturePlan) (units : List PcmUnit) → ArePcmUnits units
        → IsReadBy p idr_syntax (made_segment 0 (pcm_row units)) → IsReadAs p (pcm_items units) }
{}
