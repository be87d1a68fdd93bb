//! Opening and closing a board.
ghost use Rattle.std.specs.Prelude.{ℕ, ◌≡◌, ◌≢◌, ◌<◌, ◌≤◌, IfOk, true, length, slice_index};
ghost use Rattle.progress_words.specs.Meanings.{IsData, IsLaid, fault_word};
ghost use Rattle.progress_words.specs.Faults.{unit_in, no_fault, IsFirstFault};
ghost use Rattle.progress_words.specs.Views.{opener, HasEnded};
ghost use Rattle.progress_words.specs.Core.{count_in, fault_in, IsReached};
ghost use Rattle.progress_words.specs.Passes.{view, IsPassOf};

use crate::board::{Layout, OpenBoard};
use crate::facts::Facts;
use crate::memory::BoardMemory;
use crate::pass::Pass;
use crate::words::Words;
use atomic_table::Table;
use bumpalo::Bump;
use std::alloc::{AllocError, Global};

impl BoardMemory {
    /// A board with nothing drawn and nothing counted, in the memory of the one before, and the pass that others are
    /// split from.
    pub fn open<'m, F: Facts>(
        &'m mut self,
        layout: Layout,
        facts: &F,
    ) -> Result<(OpenBoard<'m, F>, Pass<F>), AllocError>
        requires laid { IsLaid (F.meaning facts.now) }
        requires layout { (layout.lines ≡ (F.meaning facts.now).lines) × (layout.words ≡ (F.meaning facts.now).total) }
        ensures { IfOk result (λ b. (b.0.flight ≡ facts.now) × IsPassOf b.0 b.1 × (view b.1 ≡ opener facts.now)) }
    {
        // Where words of an earlier board were forgotten and not dropped, the arena goes on growing.
        let _kept = self.arena.reset();
        self.first.fit(layout.words, 8 * layout.lines + 8)?;
        OpenBoard::of_words(
            &self.arena,
            self.first.front(layout.words),
            layout.lines,
            facts,
        )
    }
}

impl<'m, F: Facts> OpenBoard<'m, F> {
    // A board over a copy of its first words.
    pub(crate) fn of_words(
        arena: &'m Bump<Global>,
        words: &[u64],
        lines: usize,
        facts: &F,
    ) -> Result<(OpenBoard<'m, F>, Pass<F>), AllocError>
        requires laid { IsLaid (F.meaning facts.now) }
        requires lines { lines ≡ (F.meaning facts.now).lines }
        requires count { length words.now ≡ (F.meaning facts.now).total }
        requires zeros { (i : ℕ) → i ≢ fault_word (F.meaning facts.now) → slice_index words.now i ≡ 0 }
        requires none { slice_index words.now (fault_word (F.meaning facts.now)) ≡ no_fault }
        ensures { IfOk result (λ b. (b.0.flight ≡ facts.now) × IsPassOf b.0 b.1 × (view b.1 ≡ opener facts.now)) }
    {
        let (table, seat) = Table::of_words(arena, words, facts)?;
        Ok((OpenBoard { table, lines }, Pass { seat, count: 0 }))
    }

    /// The words, once every pass was joined and a draw found none left: each of a unit before the first fault is as
    /// it is expected, and the fault word is that fault.
    pub fn close(self, pass: Pass<F>) -> Words<'m>
        requires own { IsPassOf self pass }
        requires whole { ((view pass).opens ≡ true) × ((view pass).joins ≡ (view pass).splits) }
        requires done { ((view pass).none ≡ true) × HasEnded (F.meaning self.flight) (view pass) }
        ensures count { length result ≡ (F.meaning self.entry.flight).total }
        ensures core { IsReached (F.meaning self.entry.flight) result }
        ensures fault { IsFirstFault (F.meaning self.entry.flight) (fault_in (F.meaning self.entry.flight) result) }
        ensures counted { (l k : ℕ) → l < (F.meaning self.entry.flight).lines
            → k < (F.meaning self.entry.flight).width l
            → (F.meaning self.entry.flight).number l k < unit_in (fault_in (F.meaning self.entry.flight) result)
            → k < count_in result l }
        ensures words { (w : ℕ) → IsData (F.meaning self.entry.flight) w
            → (F.meaning self.entry.flight).number ((F.meaning self.entry.flight).owner w).line
            ((F.meaning self.entry.flight).owner w).unit < unit_in (fault_in (F.meaning self.entry.flight) result)
            → slice_index result w ≡ (F.meaning self.entry.flight).expected w }
    {
        let OpenBoard { table, lines: _ } = self;
        let Pass { seat, count: _ } = pass;
        let closed = table.close_with(seat);
        Words { closed }
    }
}
