//! What the lists of candidates have, and a row of scaling.

ghost use Rattle.std.specs.Prelude.{◌≡◌, ◌≤◌, ℕ, pos, negsuc, length};
ghost use Rattle.ctu_records.specs.declared.prediction.Mv.{Mv};
ghost use Rattle.ctu_records.specs.declared.prediction.PredictionUnit.{PredictionUnit};
ghost use Rattle.ctu_records.specs.declared.prediction.Rectangle.{Rectangle};
ghost use Rattle.spec_motion.specs.declared.slice_motion.SliceMotion.{SliceMotion};
ghost use Rattle.spec_motion.specs.Merging.{merge_candidates};
ghost use Rattle.spec_motion.specs.Scaling.{scaled};
ghost use Rattle.spec_motion.specs.VectorPrediction.{mv_predictors};
ghost use Rattle.spec_motion.specs.Vectors.{Beneath, Known};

/// Each merge_idx below MaxNumMergeCand names a candidate.
pub fn merge_lists_are_full()
    ensures { (slice : SliceMotion) (beneath : Beneath) (known : Known) (unit : PredictionUnit)
        → slice.max_candidates ≤ length (merge_candidates slice beneath known unit) }
{}

/// A list of predictors has two.
pub fn predictors_are_two()
    ensures { (slice : SliceMotion) (beneath : Beneath) (known : Known) (block : Rectangle) (list ref_idx : ℕ)
        → length (mv_predictors slice beneath known block list ref_idx) ≡ 2 }
{}

/// A vector over two pictures, brought to one: 8 becomes 4, -8 becomes -4, and 7 becomes 3.
pub fn vectors_over_two_pictures_are_halved()
    ensures even { scaled (pos 2) (pos 1) (record { x = pos 8; y = negsuc 7 }) ≡ record { x = pos 4; y = negsuc 3 } }
    ensures odd { scaled (pos 2) (pos 1) (record { x = pos 7; y = pos 0 }) ≡ record { x = pos 3; y = pos 0 } }
{}
