//! The end of a unit: it is counted, or found to break a rule.

ghost use Rattle.std.specs.Prelude.{◌≡◌, ◌+◌, Some, false};
ghost use Rattle.board_core.specs.Needs.{read_needs};
ghost use Rattle.rule_numbers.specs.Rules.{rule_number};
ghost use Rattle.progress_words.specs.Core.{AreMet};
ghost use Rattle.progress_words.specs.Faults.{IsFault, packed};
ghost use Rattle.progress_words.specs.Passes.{HasStopped, IsPassOf, Knows, view};
ghost use Rattle.progress_words.specs.Rule.{IsNext};
ghost use Rattle.progress_words.specs.Views.{AllSound, HasEnded, counting, seen_of};
ghost use Rattle.flight_lines.specs.Numbers.{numbered_needs, unit_number};
ghost use Rattle.line_words.specs.Places.{HasSizes, number_at, words_at};

use crate::row_facts::RowFacts;
use crate::unit_place::UnitPlace;
use hv_base::Breach;
use progress_words::{Board, Pass};
use rule_numbers::rule_number;

/// Counts the next unit of the line held, all of whose words are written.
pub fn count_unit<F: RowFacts>(board: &Board<'_, F>, pass: &mut Pass<F>, at: &UnitPlace)
    requires own { IsPassOf board.now pass.old }
    requires flight { HasSizes (F.flight board.now.flight) at.now.sizes }
    requires next { IsNext (F.meaning board.now.flight) (view pass.old) (number_at at.now) }
    requires unit { seen_of (view pass.old) (number_at at.now) ≡ at.now.unit }
    requires written { (view pass.old).written ≡ words_at at.now }
    ensures seen { Knows pass.old pass.new (counting (view pass.old) (number_at at.now) (at.now.unit + 1)) }
    ensures sound { AllSound (F.meaning board.now.flight) (number_at at.now) (at.now.unit + 1) }
{
    board.advance(pass, at.number());
}

/// Lowers the fault word to the next unit of the line held, which breaks this rule. The job has then ended.
pub fn find_bad<F: RowFacts>(
    board: &Board<'_, F>,
    pass: &mut Pass<F>,
    at: &UnitPlace,
    breach: Breach,
)
    requires own { IsPassOf board.now pass.old }
    requires flight { HasSizes (F.flight board.now.flight) at.now.sizes }
    requires job { (view pass.old).job ≡ Some (number_at at.now) }
    requires unit { seen_of (view pass.old) (number_at at.now) ≡ at.now.unit }
    requires unsound { (F.flight board.now.flight).sound at.now.line at.now.unit ≡ false }
    requires rule { (F.flight board.now.flight).rule at.now.line at.now.unit ≡ Some (rule_number breach) }
    requires met { AreMet (F.meaning board.now.flight) (seen_of (view pass.old))
        (numbered_needs at.now.sizes (read_needs (F.flight board.now.flight).plan at.now.line at.now.unit)) }
    ensures own { IsPassOf board.now pass.new }
    ensures stopped { HasStopped (view pass.old)
        (packed (unit_number at.now.sizes at.now.line at.now.unit) (rule_number breach)) (view pass.new) }
    ensures fault { IsFault (F.meaning board.now.flight) (view pass.new).least }
    ensures ended { HasEnded (F.meaning board.now.flight) (view pass.new) }
{
    board.fault(pass, at.unit_number(), rule_number(breach));
}
