//! The worker of a flight: works off lines of the flight in memory of its own, rows of coding tree units and rows of
//! coding tree blocks in the phases of the loop filters (H.265 7.3.8, 8.4 to 8.7).
#![tactic(auto)]

mod row_worker;

pub use flight_views::{FlightViews, flight_layout};
pub use flight_workers::work_off;
pub use row_worker::RowWorker;
