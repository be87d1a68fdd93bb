//! The pictures of streams that are made are decoded as they are drawn (H.265 8.1.3, 8.7).
#![tactic(auto)]

mod laws;

pub use laws::{made_idr_pictures_are_decoded, made_predicted_pictures_are_decoded};
