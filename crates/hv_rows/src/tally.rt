//! How many rows there were, how many runs of them, how many runs differed, and in what.

use crate::row_error::RowError;
use std::alloc::Global;
use std::fmt::Write;

/// How many rows there were, how many runs of them, how many runs differed, and in what.
#[derive(Drop)]
pub(crate) struct Tally {
    rows: u32,
    runs: u32,
    differ: u32,
    text: String,
}

impl Tally {
    /// Before the first row.
    pub(crate) fn new(alloc: Global) -> Tally {
        Tally {
            rows: 0,
            runs: 0,
            differ: 0,
            text: String::new(alloc),
        }
    }

    /// Counts a row.
    pub(crate) fn add_row(&mut self) {
        self.rows = self.rows.saturating_add(1);
    }

    /// Counts a run of the row with this name, and notes in what it differed.
    pub(crate) fn add_run(
        &mut self,
        name: &str,
        difference: Option<String>,
    ) -> Result<(), RowError> {
        self.runs = self.runs.saturating_add(1);
        if let Some(found) = difference {
            self.differ = self.differ.saturating_add(1);
            self.text.push_str(name)?;
            self.text.push_str(": ")?;
            self.text.push_str(found.as_str())?;
            self.text.push_str("\n")?;
        }
        Ok(())
    }

    /// The differences, a line each.
    pub(crate) fn differences(&self) -> &str {
        self.text.as_str()
    }

    /// The sum.
    pub(crate) fn sum(&self, alloc: Global) -> Result<String, RowError> {
        let (rows, runs, differ) = (self.rows, self.runs, self.differ);
        Ok(format!(in alloc; "{rows} rows, {runs} runs, {differ} differ")?)
    }
}
