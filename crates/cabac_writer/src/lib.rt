//! Writing of arithmetic codes (H.265 9.3.4.3, turned round).
#![tactic(auto)]

mod carry;
mod encoder;

pub use encoder::Encoder;
