//! A grid of values.

ghost use Rattle.std.specs.Prelude.{◌≡◌, ℕ, ◌+◌, ◌-◌, ◌*◌, ◌<◌, ◌≤◌, ◌==◌, ◌&&◌, min, nat_le, nat_lt};
ghost use Rattle.std.specs.Prelude.{length, slice_index_or, IfOk, if◌then◌else◌};
ghost use Rattle.place_grid.specs.Cells.{HasCells, cell};

use std::alloc::{AllocError, Global};
use std::marker::Model;

/// Values by column and row, both counted from 0, at most 2048 of each.
#[derive(Drop)]
pub struct Grid<T: Copy> {
    across: u32,
    down: u32,
    cells: Vec<T>,
}

impl<T: Copy> Model for Grid<T> {
    ghost use Rattle.place_grid.specs.Cells.{AreCells, Cells};

    ghost Value = { Cells T };

    ghost view = { λ g. record { across = g.across; down = g.down; cells = g.cells.items } };

    ghost invariant = { λ g. AreCells g.across g.down g.cells.items };
}

impl<T: Copy> Grid<T> {
    /// One value in so many columns and rows, where a copy of it is the same. `Err` is want of memory, and no other
    /// call takes any.
    #[tactic(auto, unfolding(crate::specs::Cells::cell))]
    pub fn new(alloc: Global, across: u32, down: u32, value: T) -> Result<Grid<T>, AllocError>
        requires columns { across ≤ 2048 }
        requires rows { down ≤ 2048 }
        ensures sides { IfOk result (λ g. HasCells g across down) }
        ensures cells { IfOk result (λ g. ((copy : T) → T.is_clone value copy → copy ≡ value)
            → (x y : ℕ) → cell value g x y ≡ value) }
    {
        let cells = vec![in alloc; value; across as usize * down as usize]?;
        Ok(Grid {
            across,
            down,
            cells,
        })
    }

    /// That value in all columns and rows.
    #[tactic(auto, unfolding(crate::specs::Cells::cell))]
    pub fn fill(&mut self, value: T)
        ensures sides { (across down : ℕ) → HasCells self.old across down → HasCells self.new across down }
        ensures cells { (x y : ℕ) → cell value self.new x y ≡ value }
    {
        for place in 0..self.cells.len() {
            self.cells[place] = value;
        }
    }

    /// How many columns there are.
    pub fn across(&self) -> u32
        ensures value { result ≡ self.now.across }
        ensures few { result ≤ 2048 }
    {
        self.across
    }

    /// How many rows there are.
    pub fn down(&self) -> u32
        ensures value { result ≡ self.now.down }
        ensures few { result ≤ 2048 }
    {
        self.down
    }

    /// The value in a column of a row; the given one outside.
    #[tactic(auto, unfolding(crate::specs::Cells::cell))]
    pub fn at(&self, x: usize, y: usize, outside: T) -> T
        ensures { result ≡ cell outside self.now x y }
    {
        if x < self.across as usize && y < self.down as usize {
            self.cells[self.across as usize * y + x]
        } else {
            outside
        }
    }

    /// A value into a column of a row.
    #[tactic(auto, unfolding(crate::specs::Cells::cell))]
    pub fn put(&mut self, x: usize, y: usize, value: T)
        requires column { x < self.old.across }
        requires row { y < self.old.down }
        ensures sides { (across down : ℕ) → HasCells self.old across down → HasCells self.new across down }
        ensures cells { (outside : T) (i j : ℕ)
            → cell outside self.new i j ≡ (if i == x && j == y then value else cell outside self.old i j) }
    {
        let place = self.across as usize * y + x;
        self.cells[place] = value;
    }

    /// One value into so many columns of a row.
    #[tactic(auto, unfolding(crate::specs::Cells::cell))]
    pub fn put_run(&mut self, x: usize, y: usize, count: usize, value: T)
        requires columns { x + count ≤ self.old.across }
        requires row { y < self.old.down }
        ensures sides { (across down : ℕ) → HasCells self.old across down → HasCells self.new across down }
        ensures cells { (outside : T) (i j : ℕ) → cell outside self.new i j
            ≡ (if j == y && (nat_le x i && nat_lt i (x + count)) then value else cell outside self.old i j) }
    {
        let first = self.across as usize * y + x;
        for k in 0..count {
            self.cells[first + k] = value;
        }
    }

    /// The values of so many rows from row `first` on, row after row, as far as there are rows.
    #[tactic(auto, unfolding(crate::specs::Cells::cell))]
    pub fn rows(&self, first: usize, count: usize) -> &[T]
        ensures count { length result.now ≡ self.now.across * min count (self.now.down - first) }
        ensures cells { (other outside : T) (x j : ℕ) → x < self.now.across → j < count → first + j < self.now.down
            → slice_index_or result.now (self.now.across * j + x) other ≡ cell outside self.now x (first + j) }
    {
        let across = self.across as usize;
        let down = self.down as usize;
        let first = first.min(down);
        let count = count.min(down - first);
        &self.cells[across * first..across * first + across * count]
    }
}
