//! What the workers of a flight share: its plans, the pictures before it, how it lies in words, and what is read of
//! its plans once, before any slice data are read (H.265 8.3.2, 8.6, 8.7).
#![tactic(auto)]

mod flight_views;
mod layouts;
mod picture_formats;

pub use flight_views::FlightViews;
pub use layouts::flight_layout;
