//! The sequential decoder: which pictures a byte string has, and what stops it.
#![tactic(auto)]

mod form;
mod laws;

pub use form::Form;
pub use laws::{decoded_pictures_have_all_units, open_prefixes_stay, streams_are_judged_in_order};
