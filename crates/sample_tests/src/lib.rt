//! Rows of prediction, residuals and loop filters. The crate has tests alone.
#![tactic(auto)]

#[cfg(test)]
mod block_geometry_tests;
#[cfg(test)]
mod deblock_tests;
#[cfg(test)]
mod inter_pred_tests;
#[cfg(test)]
mod intra_pred_tests;
#[cfg(test)]
mod motion_candidates_tests;
#[cfg(test)]
mod residual_transform_tests;
#[cfg(test)]
mod sao_filter_tests;
