//! The arithmetic that the definitions share, as the standard says it (H.265 5): functions, shifts and sums.
#![tactic(auto)]
