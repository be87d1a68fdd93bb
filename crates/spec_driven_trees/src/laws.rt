//! Laws of the definitions.

ghost use Rattle.std.specs.Prelude.{Bool};
ghost use Rattle.ctu_records.specs.Tree.{Ctu};
ghost use Rattle.ctu_records.specs.declared.offset.Sao.{Sao};
ghost use Rattle.spec_cabac.specs.Bins.{Bin};
ghost use Rattle.spec_driven_trees.specs.Driven.{IsSpelledByAnswers};
ghost use Rattle.spec_formats.specs.Format.{One};
ghost use Rattle.spec_slice_data.specs.declared.syntax.CtuSyntax.{CtuSyntax};
ghost use Rattle.spec_slice_data.specs.Tree.{unit_and_end};

/// The word that an answer gives to a question spells the value that it gives.
pub fn questions_are_spelled()
    ensures { (bin : Bin) → IsSpelledByAnswers (One bin) }
{}

/// The words that answers give to a coding tree unit, with what follows it, spell the unit that they give.
pub fn units_are_spelled()
    ensures { (syntax : CtuSyntax) (left above : Sao) (is_last ends_subset : Bool) (ctu : Ctu)
        → IsSpelledByAnswers (unit_and_end syntax left above is_last ends_subset ctu) }
{}
