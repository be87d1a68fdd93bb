//! Values of the definitions that are known apart from them: tables in a second form, and rows worked by hand
//! (H.265 7.4.5, 8.4.4.2.5, 8.5.3.2.4, 8.5.3.3.4, 8.6.1, 8.6.3, 8.6.4, 8.7.2.5.3, 8.7.3, 9.3.4.2.5).
#![tactic(auto)]

mod rows;
mod tables;

pub use rows::{
    chroma_follows_luma_up_to_its_table, dc_levels_at_two_edges, lone_dc_coefficient_is_rounded,
    valley_is_raised, weighted_sample_is_halved_and_moved,
};
pub use tables::{
    chroma_parameters_are_as_printed, combined_pairs_are_all_pairs, default_lists_are_squares,
    level_scales_are_sixth_roots, significance_contexts_are_by_quarter, thresholds_rise_by_steps,
};
