//! The NAL units of a byte stream that comes in pieces (H.265 B.2, 7.3.1).
#![tactic(auto)]

mod answer;
mod framer;
mod header;
mod laws;
mod padding;
mod payload;
mod raw_unit;
mod refused;

pub use answer::Next;
pub use framer::Framer;
pub use laws::cuts_change_nothing;
