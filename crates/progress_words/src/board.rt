//! The board, and what threads are lent of it.
use crate::facts::Facts;
use crate::steps::Progress;
use crate::view::View;
use atomic_table::{Shared, Table};
use bumpalo::Bump;
use std::alloc::Global;
use std::marker::Model;

/// How many lines a flight has, and how many words. The words that many threads write stand first, eight words apart:
/// the counts of the lines, the ticket, the fault word. The data words stand behind them.
#[derive(Clone, Copy)]
pub struct Layout {
    pub lines: usize,
    pub words: usize,
}

/// What threads are lent of a board, with its calls: a count for each line, the ticket, the fault word, and data words.
#[derive(Drop)]
pub struct Board<'a, F: Facts> {
    pub(crate) shared: &'a Shared<(), View<F>, F, Progress>,
    pub(crate) lines: usize,
}

impl<'a, F: Facts> Model for Board<'a, F> {
    ghost use Rattle.std.specs.Prelude.{◌≡◌};
    ghost use Rattle.progress_words.specs.Places.{Place};
    ghost use Rattle.progress_words.specs.Meanings.{IsLaid};

    ghost Value = { Place F };

    ghost view = { λ b. record { id = b.shared.now.table_id; flight = b.shared.now.key } };

    ghost invariant = { λ b. (b.lines ≡ (F.meaning b.shared.now.key).lines)
        × (b.shared.now.table_id.words ≡ (F.meaning b.shared.now.key).total)
        × IsLaid (F.meaning b.shared.now.key) × (b.shared.now.table_id.slots ≡ 0) };
}

/// A board that lies in memory that is kept. It stays with one thread, which lends it to others.
#[derive(Drop)]
pub struct OpenBoard<'m, F: Facts> {
    pub(crate) table: Table<(), View<F>, F, Progress, &'m Bump<Global>>,
    pub(crate) lines: usize,
}

impl<'m, F: Facts> Model for OpenBoard<'m, F> {
    ghost use Rattle.std.specs.Prelude.{◌≡◌};
    ghost use Rattle.progress_words.specs.Places.{Place};
    ghost use Rattle.progress_words.specs.Meanings.{IsLaid};

    ghost Value = { Place F };

    ghost view = { λ b. record { id = b.table.shared.table_id; flight = b.table.shared.key } };

    ghost invariant = { λ b. (b.lines ≡ (F.meaning b.table.shared.key).lines)
        × (b.table.shared.table_id.words ≡ (F.meaning b.table.shared.key).total)
        × IsLaid (F.meaning b.table.shared.key) × (b.table.shared.table_id.slots ≡ 0) };
}

impl<'m, F: Facts> OpenBoard<'m, F> {
    ghost use Rattle.std.specs.Prelude.{◌≡◌};

    /// What threads are lent of it.
    pub fn lend(&self) -> Board<'_, F>
        ensures { result ≡ self.now }
    {
        Board {
            shared: &self.table.shared,
            lines: self.lines,
        }
    }
}
