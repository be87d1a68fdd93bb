//! Laws of the definitions.

ghost use Rattle.std.specs.Prelude.{◌≡◌, ℕ, ◌≤◌, None, Some, false};
ghost use Rattle.ctu_records.specs.declared.item.Square.{Square};
ghost use Rattle.ctu_records.specs.declared.prediction.MotionSyntax.{MotionSyntax};
ghost use Rattle.ctu_records.specs.declared.prediction.MotionSyntax.TheVariants.{Merge, Vectors};
ghost use Rattle.ctu_records.specs.declared.prediction.PredictionUnit.{PredictionUnit};
ghost use Rattle.ctu_records.specs.declared.prediction.Rectangle.{Rectangle};
ghost use Rattle.spec_motion.specs.declared.slice_motion.SliceMotion.{SliceMotion};
ghost use Rattle.spec_motion.specs.declared.vectors.Motion.{Motion};
ghost use Rattle.spec_motion.specs.declared.vectors.Vector.{Vector};
ghost use Rattle.spec_motion.specs.Derivation.{motion_laid, prediction_motion};
ghost use Rattle.spec_motion.specs.Merging.{merged};
ghost use Rattle.spec_motion.specs.Vectors.{Beneath, Known, in_list};
ghost use Rattle.spec_motion.specs.VectorPrediction.{predicted_mv};
ghost use Rattle.made_motion_laws.specs.Keeping.{AreFirst, Keeps, coded_where, four_laid, quarter_square, same_where};
ghost use Rattle.made_motion_laws.specs.Keeping.{whole_part, whole_square};
ghost use Rattle.made_motion_laws.specs.Uniform.{IsBeside, IsOrNone, IsPlain, IsWhole, block_of};

/// A unit that merges with its first candidate has the motion of those beside it.
pub fn merging_keeps()
    ensures { (slice : SliceMotion) (beneath : Beneath) (known : Known) (unit : PredictionUnit) (m : Motion)
        → IsPlain slice → IsWhole unit → IsBeside m known (block_of unit) → merged slice beneath known unit 0 ≡ m }
{}

/// The first predictor of a vector that points to its list's first picture is the vector of the motion beside it.
pub fn predicting_keeps()
    ensures { (slice : SliceMotion) (beneath : Beneath) (known : Known) (block : Rectangle) (m : Motion) (list : ℕ)
        (v : Vector) → IsBeside m known block → in_list list m ≡ Some v
        → predicted_mv slice beneath known block list v.ref_idx false ≡ v.mv }
{}

/// A coding unit that is predicted whole keeps the motion beside it where it merges (`merge`), and where its vectors
/// don't differ from their predictors (`vectors`); one beside which there is no motion has the vectors that are coded
/// (`first`). So behind the one coding unit of a coding tree unit of 16x16 luma samples all places have that motion
/// (`one`), and behind four of them, the first of which has it and the others keep it (`four`).
pub fn units_keep_one_motion()
    ensures merge { (slice : SliceMotion) (beneath : Beneath) (m : Motion) (square : Square) → IsPlain slice
        → Keeps slice beneath m (whole_part square (Merge 0)) }
    ensures vectors { (slice : SliceMotion) (beneath : Beneath) (m : Motion) (square : Square) → AreFirst m.list_0
        → AreFirst m.list_1
        → Keeps slice beneath m (whole_part square (Vectors (same_where m.list_0) (same_where m.list_1))) }
    ensures first { (slice : SliceMotion) (beneath : Beneath) (known : Known) (m : Motion) (square : Square)
        → AreFirst m.list_0 → AreFirst m.list_1 → IsPlain slice → ((column row : ℕ) → known column row ≡ None)
        → prediction_motion slice beneath known
        (whole_part square (Vectors (coded_where m.list_0) (coded_where m.list_1)))
        ≡ m }
    ensures four { (slice : SliceMotion) (beneath : Beneath) (m : Motion) (known : Known) (a b c d : MotionSyntax)
        (column row : ℕ)
        → ((column row : ℕ) → IsOrNone m (known column row))
        → prediction_motion slice beneath known (whole_part (quarter_square 0 0) a) ≡ m
        → Keeps slice beneath m (whole_part (quarter_square 1 0) b)
        → Keeps slice beneath m (whole_part (quarter_square 0 1) c)
        → Keeps slice beneath m (whole_part (quarter_square 1 1) d)
        → 1 ≤ column → column ≤ 4 → 1 ≤ row → row ≤ 4
        → four_laid slice beneath a b c d known column row ≡ Some m }
    ensures one { (slice : SliceMotion) (beneath : Beneath) (m : Motion) (known : Known) (a : MotionSyntax)
        (column row : ℕ)
        → prediction_motion slice beneath known (whole_part whole_square a) ≡ m
        → 1 ≤ column → column ≤ 4 → 1 ≤ row → row ≤ 4
        → motion_laid slice beneath known (whole_part whole_square a) column row ≡ Some m }
{}
