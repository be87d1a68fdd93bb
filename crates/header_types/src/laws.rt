//! Laws of the definitions.

ghost use Rattle.header_types.specs.Content.{same_content};
ghost use Rattle.header_types.specs.declared.sps.SpsFields.{SpsFields};
ghost use Rattle.std.specs.Prelude.{◌≡◌, ◌↔◌, true};

/// Sequence parameter sets have the same content exactly where they are equal.
pub fn same_content_is_equality()
    ensures { (a b : SpsFields) → (same_content a b ≡ true) ↔ (a ≡ b) }
{}
