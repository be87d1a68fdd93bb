//! What follows from the definitions.

ghost use Rattle.std.specs.Prelude.{ℕ};
ghost use Rattle.sample_words.specs.Contents.{IsContent, index_of};
ghost use Rattle.sample_words.specs.declared.unit_content.UnitContent.{UnitContent};
ghost use Rattle.unit_words.specs.Work.{HasContent, HasWord, height, width};
ghost use Rattle.unit_words.specs.declared.done_unit.DoneUnit.{DoneUnit};

/// A word that has a content of a unit is the one at the index of that content.
pub fn contents_stand_at_their_words()
    ensures { (d : DoneUnit) (content : UnitContent) (word : ℕ)
        → IsContent d.layout.now (width d) (height d) d.column content → HasContent d content word
        → HasWord d (index_of d.layout.now (width d) (height d) d.column content) word }
{}
