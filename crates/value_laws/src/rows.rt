//! Rows that were worked by hand.

ghost use Rattle.std.specs.Prelude.{◌≡◌, ℕ, pos, negsuc, false};
ghost use Rattle.spec_inter_prediction.specs.Luma.{luma_sample};
ghost use Rattle.spec_inter_prediction.specs.Weighting.{weighted_one};
ghost use Rattle.spec_intra_prediction.specs.Prediction.{predicted};
ghost use Rattle.spec_reconstruction.specs.Parameters.{chroma_parameter};
ghost use Rattle.spec_sample_adaptive_offset.specs.Plane.{offset_sample};
ghost use Rattle.spec_transforms.specs.Transforms.{transformed};
ghost use Rattle.value_laws.specs.Rows.{dc_alone, dc_block, eight_by_eight, flat, half_weight, levelled_block};
ghost use Rattle.value_laws.specs.Rows.{neighbours, valley, valley_plane};

/// Of a block of 8x8 with a scaled DC coefficient alone, 64 makes each residual 1 and -64 each 0: the first stage gives
/// 32 and -32, and what the second rounds is 2560 and -1536 in units of 4096.
pub fn lone_dc_coefficient_is_rounded()
    ensures positive { eight_by_eight (transformed 8 false 8 (dc_alone (pos 64))) ≡ flat (pos 1) }
    ensures negative { eight_by_eight (transformed 8 false 8 (dc_alone (negsuc 63))) ≡ flat (pos 0) }
{}

/// Beside a block of 8x8 stands 100 on the left and 120 above. DC prediction gives 110, the corner too, and where it
/// filters edges 113 along the first row and 108 along the first column.
pub fn dc_levels_at_two_edges()
    ensures { (corner : ℕ) → dc_block (predicted 0 3 1 false 8 (neighbours corner)) ≡ levelled_block }
{}

/// Without offsets QpC is 33, 37 and 38 where QpY is 35, 43 and 44.
pub fn chroma_follows_luma_up_to_its_table()
    ensures low { chroma_parameter 0 (pos 35) ≡ 33 }
    ensures middle { chroma_parameter 0 (pos 43) ≡ 37 }
    ensures high { chroma_parameter 0 (pos 44) ≡ 38 }
{}

/// Edge offset along the line raises a sample of 8 between two of 10 by its first offset, 2.
pub fn valley_is_raised()
    ensures { offset_sample valley_plane valley 1 0 ≡ 10 }
{}

/// A picture that has 100 everywhere, whole samples, weight 1 in units of a half and offset 3: each sample is 53.
pub fn weighted_sample_is_halved_and_moved()
    ensures { weighted_one 8 half_weight 0 (luma_sample 8 (λ x y. 100) (pos 0) (pos 0) 0 0) ≡ 53 }
{}
