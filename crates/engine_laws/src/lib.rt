//! Laws of the arithmetic decoding engine while coding tree units are read: it stays in its substream, and goes on
//! where the substream does (H.265 9.3.2.5, 9.3.4.3).
#![tactic(auto)]

mod laws;

pub use laws::engines_stay_in_their_substreams;
