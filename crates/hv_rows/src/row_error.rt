//! Why the program stops before the last row.

use std::alloc::{AllocError, AllocFailed};
use std::io;

/// Why the program stops before the last row.
#[derive(Debug, Drop)]
pub(crate) enum RowError {
    /// There was no memory left.
    Memory,
    /// Reading or writing failed.
    Io,
    /// A row isn't written as it is to be.
    Unreadable,
}

impl From<AllocError> for RowError {
    fn from(_: AllocError) -> RowError {
        RowError::Memory
    }
}

impl From<io::Error> for RowError {
    fn from(_: io::Error) -> RowError {
        RowError::Io
    }
}

impl<T: Drop> From<AllocFailed<T>> for RowError {
    fn from(_: AllocFailed<T>) -> RowError {
        RowError::Memory
    }
}
