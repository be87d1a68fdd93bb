//! What the flight means.
use crate::flight::Meant;
use progress_words::Facts;

impl Facts for Meant {
    ghost use Rattle.board_tests.specs.Sums.{meaning_of};
    ghost use Rattle.board_tests.specs.Lawful.{lawful_of};

    ghost meaning = { λ f. meaning_of f.sums.value.input.items f.sums.value.marks.items f.sums.value.rows
        f.sums.value.width };

    ghost lawful = { λ f. lawful_of f.sums.value.input.items f.sums.value.marks.items f.sums.value.rows
        f.sums.value.width };
}
