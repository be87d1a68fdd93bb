//! The answer of a read or a write that failed.

/// A read or a write failed. The source or the sink that answered it counts it among its faults.
#[derive(Clone, Copy, Debug, PartialEq, Eq)]
pub struct Failed;
