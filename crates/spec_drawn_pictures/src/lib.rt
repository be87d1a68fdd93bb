//! The pictures that are drawn of a seed, by their numbers: as samples alone, however a stream of them is written.
#![tactic(auto)]
