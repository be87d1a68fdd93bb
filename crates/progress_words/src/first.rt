//! The words that a board begins with.
ghost use Rattle.std.specs.Prelude.{ℕ, ◌≡◌, ◌≢◌, ◌<◌, ◌≤◌, OnOk, length, vec_len, slice_index};
ghost use Rattle.progress_words.specs.Faults.{no_fault};

use std::alloc::{AllocError, Global};

/// Words that are all 0 but one, the fault word, which is 2^64 - 1.
#[derive(Drop)]
pub(crate) struct FirstWords {
    alloc: Global,
    words: Vec<u64>,
    fault: usize,
    ghost zeros: { (i : ℕ) → i ≢ fault → slice_index words.items i ≡ 0 },
    ghost inside: { 0 < vec_len words → fault < vec_len words },
}

impl FirstWords {
    /// No words.
    pub(crate) fn new(alloc: Global) -> FirstWords {
        FirstWords {
            alloc,
            words: Vec::new(alloc),
            fault: 0,
        }
    }

    // There are so many words or more, and all are 0.
    fn clear(&mut self, count: usize) -> Result<(), AllocError>
        requires { 0 < count }
        ensures count { OnOk result (count ≤ vec_len self.new.words) }
        ensures zeros { OnOk result ((i : ℕ) → slice_index self.new.words.items i ≡ 0) }
    {
        if self.words.len() < count {
            self.words = vec![in self.alloc; 0u64; count]?;
            self.fault = 0;
            return Ok(());
        }
        self.words[self.fault] = 0;
        Ok(())
    }

    /// There are so many words or more, with the fault word at that place.
    pub(crate) fn fit(&mut self, count: usize, fault: usize) -> Result<(), AllocError>
        requires { fault < count }
        ensures count { OnOk result (count ≤ vec_len self.new.words) }
        ensures place { OnOk result (self.new.fault ≡ fault) }
        ensures fault { OnOk result (slice_index self.new.words.items fault ≡ no_fault) }
    {
        self.clear(count)?;
        self.fault = fault;
        self.words[fault] = u64::MAX;
        Ok(())
    }

    /// The first of them.
    pub(crate) fn front(&self, count: usize) -> &[u64]
        requires count { count ≤ vec_len self.now.words }
        requires fault { self.now.fault < count }
        ensures count { length result.now ≡ count }
        ensures zeros { (i : ℕ) → i ≢ self.now.fault → slice_index result.now i ≡ 0 }
        ensures fault { slice_index result.now self.now.fault ≡ slice_index self.now.words.items self.now.fault }
    {
        &self.words.as_slice()[..count]
    }
}
