//! Where the decoder's bytes come from and go to: sources, sinks and the gate before each unit of work.
#![tactic(auto)]

mod failed;
mod files;
mod gate;
mod hold_gate;
mod memory_sink;
mod memory_source;
mod sink;
mod source;
mod transfers;

pub use failed::Failed;
pub use files::{FileSink, FileSource};
pub use gate::{Gate, OpenGate};
pub use hold_gate::HoldGate;
pub use hv_base::UnitNumber;
pub use memory_sink::MemSink;
pub use memory_source::MemSource;
pub use sink::Sink;
pub use source::Source;
pub use transfers::write_all;

#[cfg(test)]
mod tests;
