//! Lists that stand in the fields of plain types, and that contracts see as lists.

ghost use Rattle.std.specs.Prelude.{◌≡◌, length, nat_lt};
ghost use Rattle.std.specs.List.{count_by};
ghost use Rattle.std.specs.List.Sorted.{IsStrictlyIncreasing};

use std::marker::Model;

/// Bytes of a stream.
#[derive(Debug, Drop)]
pub struct Bytes {
    items: Vec<u8>,
}

impl Model for Bytes {
    ghost use Rattle.std.specs.Prelude.{ℕ, List};

    ghost Value = { List ℕ };

    ghost view = { λ b. b.items.items };
}

impl Bytes {
    /// These bytes.
    pub fn new(items: Vec<u8>) -> Bytes
        ensures { result ≡ items.items }
    {
        Bytes { items }
    }

    /// The bytes as a slice.
    pub fn as_slice(&self) -> &[u8]
        ensures { result.now ≡ self.now }
    {
        self.items.as_slice()
    }
}

/// Places of bytes in a list, each counted from its front, in ascending order: each is behind the one before it.
#[derive(Debug, Drop)]
pub struct BytePlaces {
    items: Vec<u32>,
}

impl Model for BytePlaces {
    ghost use Rattle.std.specs.Prelude.{ℕ, List};
    ghost use Rattle.std.specs.List.Sorted.{IsStrictlyIncreasing};

    ghost Value = { List ℕ };

    ghost view = { λ p. p.items.items };

    ghost invariant = { λ p. IsStrictlyIncreasing p.items.items };
}

impl BytePlaces {
    /// These places.
    pub fn new(items: Vec<u32>) -> BytePlaces
        requires in_order { IsStrictlyIncreasing items.items }
        ensures { result ≡ items.items }
    {
        BytePlaces { items }
    }

    /// The places as a slice.
    pub fn as_slice(&self) -> &[u32]
        ensures value { result.now ≡ self.now }
        ensures in_order { IsStrictlyIncreasing self.now }
    {
        self.items.as_slice()
    }

    /// How many of the places are before one: searched by halves.
    pub fn count_before(&self, place: usize) -> usize
        ensures { result ≡ count_by (λ r. nat_lt r place) self.now }
    {
        self.items
            .as_slice()
            .partition_point(|r| (*r as usize) < place)
    }
}
