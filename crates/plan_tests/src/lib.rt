//! Rows of flights of pictures and of the order of their events. The crate has tests alone.
#![tactic(auto)]

#[cfg(test)]
mod board_core_tests;
#[cfg(test)]
mod flight_plan_tests;
#[cfg(test)]
mod random_order_tests;
