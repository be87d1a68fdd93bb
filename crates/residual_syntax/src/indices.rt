//! The indices of the places of a sub-block that have a level.

ghost use Rattle.std.specs.Prelude.{◌≡◌, ◌+◌, ◌<◌, ◌≤◌, ◌∷◌, ◌++◌, [], length, slice_index, nat_le, if◌then◌else◌};
ghost use Rattle.std.specs.List.{All};

use std::marker::Model;

/// The indices of the places of a sub-block that have a level, backwards.
#[derive(Debug, Drop)]
pub struct Indices {
    /// The first `count` of these.
    places: [u8; 16],
    count: usize,
}

impl Model for Indices {
    ghost use Rattle.std.specs.Prelude.{◌≡◌, ℕ, ◌≤◌, List, length, take};

    ghost Value = { List ℕ };

    ghost view = { λ i. take i.count i.places };

    ghost invariant = { λ i. (length i.places ≡ 16) × (i.count ≤ 16) };
}

impl Indices {
    /// None.
    #[inline(always)]
    pub fn new() -> Indices
        ensures { result ≡ [] }
    {
        Indices {
            places: [0; 16],
            count: 0,
        }
    }

    /// Adds an index, where it has a level.
    #[inline(always)]
    pub fn note(&mut self, n: u32, coded: bool)
        requires index { n < 16 }
        requires room { length self.old < 16 }
        ensures count { length self.new ≤ length self.old + 1 }
        ensures value { self.new ≡ (if coded then self.old ++ n ∷ [] else self.old) }
    {
        self.places[self.count] = n as u8;
        self.count += usize::from(coded);
    }

    /// How many there are.
    #[inline(always)]
    pub fn len(&self) -> usize
        ensures { result ≡ length self.now }
    {
        self.count
    }

    /// Index number `j`.
    #[inline(always)]
    pub fn at(&self, j: usize) -> u8
        requires { j < length self.now }
        ensures { result ≡ slice_index self.now j }
    {
        self.places[j]
    }
}
