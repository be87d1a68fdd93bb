//! Final rows that are seen.

ghost use Rattle.std.specs.Prelude.{◌≡◌, ◌==◌, ◌&&◌, ◌||◌, ℕ, IfOk, false};
ghost use Rattle.flight_windows.specs.Seen.{HasRows, has_row, is_seen};

use std::alloc::{AllocError, Global};
use std::marker::Model;

/// The rows of coding tree blocks of the pictures of a flight of which a pass has seen the final samples counted.
/// Contracts see `SeenFlags`.
#[derive(Drop)]
pub struct SeenRows {
    pictures: usize,
    rows: usize,
    flags: Vec<bool>,
}

impl Model for SeenRows {
    ghost use Rattle.std.specs.Prelude.{◌≡◌, ◌*◌, length};
    ghost use Rattle.flight_windows.specs.Seen.{SeenFlags};

    ghost Value = { SeenFlags };

    ghost view = { λ s. record { pictures = s.pictures; rows = s.rows; flags = s.flags.items } };

    ghost invariant = { λ s. length s.flags.items ≡ s.pictures * s.rows };
}

impl SeenRows {
    /// None, of so many pictures with so many rows each. `Err` is want of memory, and no other call takes any.
    #[tactic(auto, unfolding(crate::specs::Seen::is_seen))]
    pub fn new(alloc: Global, pictures: usize, rows: usize) -> Result<SeenRows, AllocError>
        ensures sides { IfOk result (λ seen. HasRows seen pictures rows) }
        ensures none { IfOk result (λ seen. (j r : ℕ) → is_seen seen j r ≡ false) }
    {
        let count = pictures.saturating_mul(rows);
        if count == usize::MAX {
            return Err(AllocError);
        }
        let flags = vec![in alloc; false; count]?;
        Ok(SeenRows {
            pictures,
            rows,
            flags,
        })
    }

    /// Whether a row of a picture is seen; none is outside the flight.
    #[tactic(auto, unfolding(crate::specs::Seen::is_seen), using(crate::proofs::Flags::place_inside))]
    pub fn has(&self, picture: usize, row: usize) -> bool
        ensures { result ≡ is_seen self.now picture row }
    {
        picture < self.pictures && row < self.rows && self.flags[picture * self.rows + row]
    }

    /// A row of a picture is seen, if the flight has it.
    #[tactic(auto, unfolding(crate::specs::Seen::is_seen), using(crate::proofs::Flags::place_inside))]
    pub fn add(&mut self, picture: usize, row: usize)
        ensures sides { HasRows self.new self.old.pictures self.old.rows }
        ensures rows { (j r : ℕ) → is_seen self.new j r
            ≡ (is_seen self.old j r || (has_row self.old picture row && (j == picture && r == row))) }
    {
        if picture < self.pictures && row < self.rows {
            let place = picture * self.rows + row;
            self.flags[place] = true;
        }
    }

    /// None is seen, of the same flight.
    #[tactic(auto, unfolding(crate::specs::Seen::is_seen))]
    pub fn restart(&mut self)
        ensures sides { HasRows self.new self.old.pictures self.old.rows }
        ensures none { (j r : ℕ) → is_seen self.new j r ≡ false }
    {
        for place in 0..self.flags.len() {
            self.flags[place] = false;
        }
    }
}
