//! The workers of a flight: each draws lines of the flight and works them off, on a thread of its own where one can be
//! started, until none is left.
#![tactic(auto)]

mod fan;
mod line_worker;
mod work;

pub use fan::work_off;
pub use line_worker::LineWorker;
