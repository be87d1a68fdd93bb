//! Laws of the definitions.

ghost use Rattle.hv_base.specs.declared.field_rules.FieldRules.{FieldRules};
ghost use Rattle.spec_formats.specs.Format.{One, IsSpelledAs, IsReadAgain};
ghost use Rattle.spec_formats.specs.Fields.{Field, field_at};
ghost use Rattle.spec_formats.specs.Locality.{IsLocal};

/// What a field is read as depends on the bits that are read, and on none behind them.
pub fn fields_are_local()
    ensures { (rules : FieldRules) (field : Field) → IsLocal (field_at rules field) }
{}

/// A field that is read is spelled by the word that the bits have, and what such a word spells or wrote is read.
pub fn fields_are_spelled()
    ensures read_as_spelled { (rules : FieldRules) (field : Field) → IsSpelledAs (field_at rules) (One field) }
    ensures read_again { (rules : FieldRules) (field : Field) → IsReadAgain (field_at rules) (One field) }
{}
