//! Streams that are made of a seed, by their hashes. The crate has tests alone.
#![tactic(auto)]

#[cfg(test)]
mod made_stream_tests;
