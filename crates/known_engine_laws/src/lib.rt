//! Laws of the arithmetic decoding engine behind known coding tree units: where the next unit goes on in the substream,
//! it is resumed from what stands behind the unit (H.265 9.3.1, 9.3.2.5).
#![tactic(auto)]

mod laws;

pub use laws::known_engines_go_on;
