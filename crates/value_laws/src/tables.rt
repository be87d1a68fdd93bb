//! Tables that definitions read, each by a rule or in another order.

ghost use Rattle.std.specs.Prelude.{◌≡◌, ◌+◌, map, slice_index, true};
ghost use Rattle.std.specs.List.{list_all, range_with_len};
ghost use Rattle.spec_deblocking.specs.declared.tables.TheConstants.{BETA, TC};
ghost use Rattle.spec_motion.specs.declared.pairs.TheConstants.{COMBINED_PAIRS};
ghost use Rattle.spec_parameter_sets.specs.Scaling.{default_factors};
ghost use Rattle.spec_residuals.specs.declared.tables.TheConstants.{CTX_IDX_MAP};
ghost use Rattle.spec_slice_data.specs.Quantization.{chroma_qp_of_index};
ghost use Rattle.spec_transforms.specs.declared.level_scale.TheConstants.{LEVEL_SCALE};
ghost use Rattle.value_laws.specs.Tables.{beta_by_rule, context_by_quarter, in_diagonals, inter_square, intra_square};
ghost use Rattle.value_laws.specs.Tables.{is_nearest_root, pairs, printed_chroma_parameters, tc_steps, repeated};

/// ctxIdxMap (9.3.4.2.5): the upper left quarter of a block of 4x4 has the contexts 0 to 3, the upper right 4 and 5 by
/// column, the lower left 6 and 7 by row, and the lower right 8.
pub fn significance_contexts_are_by_quarter()
    ensures { map (slice_index CTX_IDX_MAP) (range_with_len 0 16) ≡ map context_by_quarter (range_with_len 0 16) }
{}

/// The thresholds of deblocking (8.7.2.5.3): beta' by its three straight parts, and tC' as how often each value stands.
pub fn thresholds_rise_by_steps()
    ensures beta { map (slice_index BETA) (range_with_len 0 52) ≡ map beta_by_rule (range_with_len 0 52) }
    ensures tc { map (slice_index TC) (range_with_len 0 54) ≡ repeated tc_steps }
{}

/// levelScale (8.6.3): entry k is the number nearest to the sixth root of 2^(32 + k), 64 being entry 4.
pub fn level_scales_are_sixth_roots()
    ensures { list_all (λ k. is_nearest_root (slice_index LEVEL_SCALE k) (32 + k)) (range_with_len 0 6) ≡ true }
{}

/// The default scaling lists of blocks of 8x8 and more (Table 7-6): two symmetric squares, read by up-right diagonals.
pub fn default_lists_are_squares()
    ensures intra { default_factors 1 0 ≡ in_diagonals intra_square }
    ensures inter { default_factors 1 3 ≡ in_diagonals inter_square }
{}

/// l0CandIdx and l1CandIdx (8.5.3.2.4): all pairs of two of four candidates, each followed by its exchange, by the
/// greater number first.
pub fn combined_pairs_are_all_pairs()
    ensures { COMBINED_PAIRS ≡ pairs 4 }
{}

/// QpC by qPi (8.6.1), as it is printed for 30 to 43.
pub fn chroma_parameters_are_as_printed()
    ensures { map chroma_qp_of_index (range_with_len 30 14) ≡ printed_chroma_parameters }
{}
