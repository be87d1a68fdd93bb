//! The samples of a picture as the standard says them (H.265 6.4.1, 8.4.4.1, 8.5.3, 8.6.5): those beside a coding tree
//! unit, those of all units one after the other, by the pictures that they refer to, and the bytes that go out.
#![tactic(auto)]

pub use spec_reconstruction::UnitFormat;
