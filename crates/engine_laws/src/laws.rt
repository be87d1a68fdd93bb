//! What follows from the definitions.

ghost use Rattle.std.specs.Prelude.{◌≡◌, Bool, List, Ok, false};
ghost use Rattle.ctu_records.specs.Tree.{Ctu};
ghost use Rattle.ctu_records.specs.declared.offset.Sao.{Sao};
ghost use Rattle.spec_cabac.specs.Bins.{State, read};
ghost use Rattle.spec_slice_data.specs.Tree.{unit_and_end};
ghost use Rattle.spec_slice_data.specs.declared.syntax.CtuSyntax.{CtuSyntax};
ghost use Rattle.spec_slice_data.specs.declared.syntax.End.{End};
ghost use Rattle.spec_slice_data.specs.declared.syntax.End.TheVariants as end;
ghost use Rattle.engine_laws.specs.Going.{IsGoing, IsWithin};

/// A coding tree unit that is read leaves an engine of the same substream, at a place of its bits, and contexts that
/// may be (`within`). Where neither its segment nor its substream ends with it, more follows (`more`), and the engine
/// goes on (`going`).
pub fn engines_stay_in_their_substreams()
    ensures within { (syntax : CtuSyntax) (left above : Sao) (is_last ends : Bool) (ctu read_ctu : Ctu) (follows : End)
        (bits : List Bool) (s t : State)
        → IsGoing bits s → read (unit_and_end syntax left above is_last ends ctu) s ≡ Ok ((read_ctu, follows), t)
        → IsWithin bits t }
    ensures going { (syntax : CtuSyntax) (left above : Sao) (is_last ends : Bool) (ctu read_ctu : Ctu)
        (bits : List Bool) (s t : State)
        → IsGoing bits s → read (unit_and_end syntax left above is_last ends ctu) s ≡ Ok ((read_ctu, end.More), t)
        → IsGoing bits t }
    ensures more { (syntax : CtuSyntax) (left above : Sao) (ctu read_ctu : Ctu) (follows : End)
        (bits : List Bool) (s t : State)
        → IsGoing bits s → read (unit_and_end syntax left above false false ctu) s ≡ Ok ((read_ctu, follows), t)
        → follows ≡ end.More }
{}
