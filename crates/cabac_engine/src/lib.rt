//! The arithmetic decoding engine (H.265 9.3.2.5, 9.3.4.3).
#![tactic(auto)]

mod interval;
mod places;
mod quotients;
mod register;
mod transitions;

pub use interval::Interval;
