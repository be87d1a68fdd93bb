//! A short list of merging candidates.

ghost use Rattle.std.specs.Prelude.{◌≡◌, ◌≤◌, ◌<◌, ◌+◌, [], ◌∷◌, ◌++◌, length, option_to_list, slice_index_or};
ghost use Rattle.spec_motion.specs.Vectors.{no_motion};

use spec_motion::Motion;
use std::marker::Model;

/// No motion.
pub(crate) const NO_MOTION: Motion = Motion {
    list_0: None,
    list_1: None,
};

/// Up to five candidates.
#[derive(Drop)]
pub(crate) struct Candidates {
    items: [Motion; 5],
    count: usize,
}

impl Model for Candidates {
    ghost use Rattle.std.specs.Prelude.{List, take, length, ◌≡◌, ◌≤◌};
    ghost use Rattle.spec_motion.specs.declared.vectors.Motion.{Motion};

    ghost Value = { List Motion };

    ghost view = { λ c. take c.count c.items };

    ghost invariant = { λ c. (c.count ≤ 5) × (length c.items ≡ 5) };
}

impl Candidates {
    /// No candidates.
    pub(crate) fn new() -> Candidates
        ensures { result ≡ [] }
    {
        Candidates {
            items: [NO_MOTION; 5],
            count: 0,
        }
    }

    /// How many there are.
    pub(crate) fn len(&self) -> usize
        ensures value { result ≡ length self.now }
        ensures few { result ≤ 5 }
    {
        self.count
    }

    /// One of them, or no motion behind the last one.
    pub(crate) fn get(&self, i: usize) -> Motion
        ensures { result ≡ slice_index_or self.now i no_motion }
    {
        if i < self.count {
            self.items[i]
        } else {
            NO_MOTION
        }
    }

    /// One more.
    fn push(&mut self, candidate: Motion)
        requires { length self.old < 5 }
        ensures { self.new ≡ self.old ++ candidate ∷ [] }
    {
        self.items[self.count] = candidate;
        self.count += 1;
    }

    /// One more, where it is there.
    pub(crate) fn add(&mut self, candidate: Option<Motion>)
        requires { length self.old < 5 }
        ensures value { self.new ≡ self.old ++ option_to_list candidate }
        ensures few { length self.new ≤ length self.old + 1 }
    {
        if let Some(candidate) = candidate {
            self.push(candidate);
        }
    }
}
