//! What holds of the definitions.

ghost use Rattle.std.specs.Prelude.{◌≡◌, pos, negsuc};
ghost use Rattle.spec_reconstruction.specs.Parameters.{chroma_parameter};

/// Qp'C is held at both ends of qPi, and goes by the table between them, for 8 bits and for 10.
pub fn chroma_parameters_are_held()
    ensures low { chroma_parameter 0 (negsuc 4) ≡ 0 }
    ensures tabled { chroma_parameter 0 (pos 36) ≡ 34 }
    ensures high { chroma_parameter 0 (pos 63) ≡ 51 }
    ensures negative { chroma_parameter 12 (negsuc 4) ≡ 7 }
    ensures lowest { chroma_parameter 12 (negsuc 40) ≡ 0 }
{}
