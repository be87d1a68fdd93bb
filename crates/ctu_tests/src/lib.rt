//! Rows of the syntax of slice data, from bins to coding tree units. The crate has tests alone.
#![tactic(auto)]

#[cfg(test)]
mod cabac_contexts_tests;
#[cfg(test)]
mod cabac_engine_tests;
#[cfg(test)]
mod cabac_writer_tests;
#[cfg(test)]
mod coding_quadtree_tests;
#[cfg(test)]
mod residual_syntax_tests;
