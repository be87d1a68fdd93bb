//! What follows from the definitions.

ghost use Rattle.std.specs.Prelude.{◌≡◌, ◌<◌, ◌↔◌, ℕ, List};
ghost use Rattle.hv_base.specs.declared.line.Line.{Line};
ghost use Rattle.flight_plan.specs.Flight.{FlightRows};
ghost use Rattle.board_core.specs.Needs.{read_needs, unit_needs};
ghost use Rattle.board_core.specs.Places.{IsLine, unit_of};
ghost use Rattle.board_core.specs.States.{AreCounted, CoreState, count_of};
ghost use Rattle.sample_words.specs.declared.sizes.FlightSizes.{FlightSizes};
ghost use Rattle.sample_words.specs.declared.unit_word.UnitWord.{UnitWord};
ghost use Rattle.sample_words.specs.Words.{IsUnitWord, count_word, fault_word, first_unit_word, line_at, line_number};
ghost use Rattle.sample_words.specs.Words.{ticket_word, word_of};
ghost use Rattle.progress_words.specs.Core.{AreMet, IsReached};
ghost use Rattle.progress_words.specs.Meanings as board;
ghost use Rattle.flight_lines.specs.Flights.{BoardFlight, HasFewRules, IsOnBoard, IsSized, meaning_of};
ghost use Rattle.flight_lines.specs.Held.{HoldsFlight, IsClosed};
ghost use Rattle.flight_lines.specs.Numbers.{spot_of, unit_number};
ghost use Rattle.flight_lines.specs.Shown.{ShowsState};

/// A flight whose pictures have the sizes of its words is laid out as a board asks.
pub fn flights_are_laid()
    ensures { (f : BoardFlight) → IsSized f.plan f.sizes → board.IsLaid (meaning_of f) }
{}

/// No sound unit is told as bad, and a unit that is has a rule with a number below 32, whatever is told of the flight.
pub fn rules_are_lawful()
    ensures { (f : BoardFlight) → HasFewRules f → board.IsLawful (meaning_of f) }
{}

/// The shared words stand where the layout of words has them: the count of each line (`counts`), the ticket, the fault
/// word and the first data word; a word of a unit has the place of that unit (`units`). A line has the number that
/// leads to it (`lines`, `numbers`).
pub fn words_have_one_layout()
    ensures counts { (s : FlightSizes) (l : Line) → count_word s l ≡ board.count_word (line_number s l) }
    ensures ticket { (f : BoardFlight) → ticket_word f.sizes ≡ board.ticket_word (meaning_of f) }
    ensures fault { (f : BoardFlight) → fault_word f.sizes ≡ board.fault_word (meaning_of f) }
    ensures data { (f : BoardFlight) → first_unit_word f.sizes ≡ board.first_data_word (meaning_of f) }
    ensures units { (f : BoardFlight) (u : UnitWord) → IsSized f.plan f.sizes → IsUnitWord f.sizes u
        → (meaning_of f).owner (word_of f.sizes u) ≡ spot_of f.sizes u }
    ensures lines { (plan : FlightRows) (s : FlightSizes) (l : Line) → IsSized plan s → IsLine plan l
        → line_at s (line_number s l) ≡ l }
    ensures numbers { (f : BoardFlight) (n : ℕ) → IsSized f.plan f.sizes → n < (meaning_of f).lines
        → line_number f.sizes (line_at f.sizes n) ≡ n }
{}

/// A unit has the number of its line and place, in closed form.
pub fn units_have_one_number()
    ensures { (plan : FlightRows) (s : FlightSizes) (l : Line) (x : ℕ) → IsSized plan s → IsLine plan l
        → unit_of plan l x ≡ unit_number s l x }
{}

/// What a unit of a line needs by number is met exactly where what it needs is counted in a state of the core with the
/// same counts: to be counted (`unit`), and to be read (`read`).
pub fn needs_are_needs()
    ensures unit { (f : BoardFlight) → IsSized f.plan f.sizes → (state : CoreState) (count : ℕ → ℕ)
        → ((l : Line) → IsLine f.plan l → count_of f.plan state l ≡ count (line_number f.sizes l))
        → (l : Line) (x : ℕ) → IsLine f.plan l
        → AreMet (meaning_of f) count ((meaning_of f).needs (line_number f.sizes l) x)
        ↔ AreCounted f.plan state (unit_needs f.plan l x) }
    ensures read { (f : BoardFlight) → IsSized f.plan f.sizes → (state : CoreState) (count : ℕ → ℕ)
        → ((l : Line) → IsLine f.plan l → count_of f.plan state l ≡ count (line_number f.sizes l))
        → (l : Line) (x : ℕ) → IsLine f.plan l
        → AreMet (meaning_of f) count ((meaning_of f).read_needs (line_number f.sizes l) x)
        ↔ AreCounted f.plan state (read_needs f.plan l x) }
{}

/// The words of a board show a state of the core of row scheduling, to which a list of its events leads, each ready
/// when it was taken. So the theorems on the core hold of what the words show.
pub fn boards_show_states_of_the_core()
    ensures { (f : BoardFlight) → IsOnBoard f → (words : List ℕ) → IsReached (meaning_of f) words
        → ShowsState f words }
{}

/// The words of a closed board hold the flight: the fault word is none where no unit is bad, else it tells the least
/// bad unit and its rule, and each unit before that is counted with all its words as expected.
pub fn closed_boards_hold_the_flight()
    ensures { (f : BoardFlight) → IsOnBoard f → (words : List ℕ) → IsClosed (meaning_of f) words
        → HoldsFlight f words }
{}
