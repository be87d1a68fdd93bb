//! Laws of the definitions.

ghost use Rattle.slice_types.specs.Content.{same_references};
ghost use Rattle.slice_types.specs.declared.slice.ReferenceFields.{ReferenceFields};
ghost use Rattle.std.specs.Prelude.{◌≡◌, ◌↔◌, true};

/// Slices have the same reference fields exactly where those are equal.
pub fn same_references_are_equality()
    ensures { (a b : ReferenceFields) → (same_references a b ≡ true) ↔ (a ≡ b) }
{}
