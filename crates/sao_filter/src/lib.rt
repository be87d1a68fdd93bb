//! Sample adaptive offset of a row of coding tree blocks (H.265 8.7.3).
#![tactic(auto)]

mod band;
mod block;
mod changes;
mod edge;
mod filtering;
mod lanes;
mod row;
mod runs;
mod units;

pub use filtering::sao_row;
pub use row::OffsetRow;
pub use units::has_offset;
