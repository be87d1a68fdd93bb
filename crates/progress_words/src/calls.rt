//! The calls of a board, each one step of its table.
ghost use Rattle.std.specs.Prelude.{◌≡◌, ◌<◌, ◌≤◌, ◌+◌, [], MatchOption, true, false};
ghost use Rattle.progress_words.specs.Meanings.{count_word, ticket_word, fault_word};
ghost use Rattle.progress_words.specs.Faults.{packed, IsFault};
ghost use Rattle.progress_words.specs.Views.{seen_of, looking, writing, counting, holding, finding_none, checking};
ghost use Rattle.progress_words.specs.Views.{kept_part, new_part, joined, AllSound, HasEnded};
ghost use Rattle.progress_words.specs.Rule.{IsNext, IsNextWord, IsNextBad};
ghost use Rattle.progress_words.specs.Passes.{view, IsPassOf, Knows, IsSeen, HasStopped};

use crate::board::Board;
use crate::facts::Facts;
use crate::pass::Pass;
use crate::steps::{
    Cut, FetchAdd, FetchMin, Glue, LoadData, LoadFault, LoadLine, StoreData, StoreLine,
};

impl<'a, F: Facts> Board<'a, F> {
    // The places of the words that many threads write.
    fn count_word(&self, line: usize) -> usize
        requires { line < (F.meaning self.now.flight).lines }
        ensures { result ≡ count_word line }
    {
        let _bounded = self.lines;
        8 * line
    }

    fn ticket_word(&self) -> usize
        ensures { result ≡ ticket_word (F.meaning self.now.flight) }
    {
        8 * self.lines
    }

    fn fault_word(&self) -> usize
        ensures { result ≡ fault_word (F.meaning self.now.flight) }
    {
        8 * self.lines + 8
    }

    /// A pass for another thread, which has seen as much.
    pub fn split(&self, pass: &mut Pass<F>) -> Pass<F>
        requires own { IsPassOf self.now pass.old }
        requires opens { ((view pass.old).opens ≡ true) × ((view pass.old).splits < 256) }
        ensures kept { Knows pass.old pass.new (kept_part (view pass.old)) }
        ensures new { IsPassOf self.now result × (view result ≡ new_part (view pass.old)) }
    {
        let seat = self.shared.split_seat::<Cut>(&mut pass.seat);
        Pass { seat, count: 0 }
    }

    /// Takes in what another pass knows.
    pub fn join(&self, pass: &mut Pass<F>, other: Pass<F>)
        requires own { IsPassOf self.now pass.old × IsPassOf self.now other }
        requires ended { HasEnded (F.meaning self.now.flight) (view pass.old)
            × HasEnded (F.meaning self.now.flight) (view other) }
        ensures { Knows pass.old pass.new (joined (view pass.old) (view other)) }
    {
        let Pass { seat, count: _ } = other;
        self.shared.join_seat::<Glue>(&mut pass.seat, seat);
        pass.count = 0;
    }

    /// The ticket of the next line that no pass has drawn; none where all are drawn.
    pub fn draw(&self, pass: &mut Pass<F>) -> Option<usize>
        requires own { IsPassOf self.now pass.old }
        requires may { ((view pass.old).none ≡ false) × HasEnded (F.meaning self.now.flight) (view pass.old) }
        ensures { MatchOption result
            (Knows pass.old pass.new (finding_none (view pass.old)))
            (λ t. Knows pass.old pass.new (holding (view pass.old) ((F.meaning self.now.flight).line_at t))
            × (t < (F.meaning self.now.flight).lines)
            × ((F.meaning self.now.flight).line_at t < (F.meaning self.now.flight).lines)
            × (seen_of (view pass.new) ((F.meaning self.now.flight).line_at t) ≡ 0)) }
    {
        let place = self.ticket_word();
        let found = self.shared.fetch_add::<FetchAdd>(&mut pass.seat, place, 1);
        if found < self.lines as u64 {
            pass.count = 0;
            Some(found as usize)
        } else {
            None
        }
    }

    /// By one load, how many units of the line are counted: at least as many as this pass had seen.
    pub fn seen(&self, pass: &mut Pass<F>, line: usize) -> u64
        requires own { IsPassOf self.now pass.old }
        requires line { line < (F.meaning self.now.flight).lines }
        ensures seen { Knows pass.old pass.new (looking (view pass.old) line result) }
        ensures more { seen_of (view pass.old) line ≤ result }
        ensures sound { AllSound (F.meaning self.now.flight) line result }
    {
        self.load_line(pass, line)
    }

    // The load that `seen` makes.
    fn load_line(&self, pass: &mut Pass<F>, line: usize) -> u64
        requires own { IsPassOf self.now pass.old }
        requires line { line < (F.meaning self.now.flight).lines }
        ensures seen { Knows pass.old pass.new (looking (view pass.old) line result) }
        ensures more { seen_of (view pass.old) line ≤ result }
        ensures sound { AllSound (F.meaning self.now.flight) line result }
    {
        let place = self.count_word(line);
        self.shared.load::<LoadLine>(&mut pass.seat, place)
    }

    /// By one load, the least fault word: at most what this pass had seen, and none or that of a bad unit.
    pub fn least(&self, pass: &mut Pass<F>) -> u64
        requires own { IsPassOf self.now pass.old }
        ensures seen { Knows pass.old pass.new (checking (view pass.old) result) }
        ensures less { result ≤ (view pass.old).least }
        ensures fault { IsFault (F.meaning self.now.flight) result }
    {
        self.load_fault(pass)
    }

    // The load that `least` makes.
    fn load_fault(&self, pass: &mut Pass<F>) -> u64
        requires own { IsPassOf self.now pass.old }
        ensures seen { Knows pass.old pass.new (checking (view pass.old) result) }
        ensures less { result ≤ (view pass.old).least }
        ensures fault { IsFault (F.meaning self.now.flight) result }
    {
        let place = self.fault_word();
        self.shared.load::<LoadFault>(&mut pass.seat, place)
    }

    /// The word, whose unit this pass has seen counted.
    pub fn read(&self, pass: &mut Pass<F>, word: usize) -> u64
        requires own { IsPassOf self.now pass.old }
        requires seen { IsSeen (F.meaning self.now.flight) (view pass.old) word }
        ensures value { result ≡ (F.meaning self.now.flight).expected word }
        ensures same { Knows pass.old pass.new (view pass.old) }
    {
        self.load_word(pass, word)
    }

    // The load that `read` makes.
    fn load_word(&self, pass: &mut Pass<F>, word: usize) -> u64
        requires own { IsPassOf self.now pass.old }
        requires seen { IsSeen (F.meaning self.now.flight) (view pass.old) word }
        ensures value { result ≡ (F.meaning self.now.flight).expected word }
        ensures same { Knows pass.old pass.new (view pass.old) }
    {
        self.shared.load::<LoadData>(&mut pass.seat, word)
    }

    /// Writes the next word of the next unit of the line held.
    pub fn write(&self, pass: &mut Pass<F>, word: usize, value: u64)
        requires own { IsPassOf self.now pass.old }
        requires next { IsNextWord (F.meaning self.now.flight) (view pass.old) word }
        requires value { value ≡ (F.meaning self.now.flight).expected word }
        ensures { Knows pass.old pass.new (writing (view pass.old)) }
    {
        self.shared.store::<StoreData>(&mut pass.seat, word, value);
    }

    /// Counts the next unit of the line held, all of whose words are written.
    pub fn advance(&self, pass: &mut Pass<F>, line: usize)
        requires own { IsPassOf self.now pass.old }
        requires next { IsNext (F.meaning self.now.flight) (view pass.old) line }
        requires written { (view pass.old).written ≡ (F.meaning self.now.flight).size line (seen_of
            (view pass.old) line) }
        ensures seen { Knows pass.old pass.new (counting (view pass.old) line (seen_of (view pass.old) line + 1)) }
        ensures sound { AllSound (F.meaning self.now.flight) line (seen_of (view pass.old) line + 1) }
    {
        let place = self.count_word(line);
        let shared = self.shared;
        let count = pass.count + 1;
        shared.store::<StoreLine>(&mut pass.seat, place, count);
        pass.count = count;
    }

    /// Lowers the fault word to that of the next unit of the line held, which breaks a rule, and the rule. The job has
    /// then ended.
    pub fn fault(&self, pass: &mut Pass<F>, unit: u64, rule: u64)
        requires own { IsPassOf self.now pass.old }
        requires next { IsNextBad (F.meaning self.now.flight) (view pass.old) unit rule }
        ensures own { IsPassOf self.now pass.new }
        ensures stopped { HasStopped (view pass.old) (packed unit rule) (view pass.new) }
        ensures fault { IsFault (F.meaning self.now.flight) (view pass.new).least }
        ensures ended { HasEnded (F.meaning self.now.flight) (view pass.new) }
    {
        let shared = self.shared;
        let place = self.fault_word();
        let word = fault_of(unit, rule);
        shared.fetch_min::<FetchMin>(&mut pass.seat, place, word);
    }
}

// The fault word of a unit and the rule that it breaks.
fn fault_of(unit: u64, rule: u64) -> u64
    requires unit { unit < 576460752303423487 }
    requires rule { rule < 32 }
    ensures { result ≡ packed unit rule }
{
    32 * unit + rule
}
