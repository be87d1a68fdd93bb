//! Laws of the definitions.

ghost use Rattle.std.specs.Prelude.{◌≡◌, ℕ, Bool, IfSome, List, Ok};
ghost use Rattle.spec_reference_pictures.specs.HeaderTypes.{ScalingLists};
ghost use Rattle.spec_reference_pictures.specs.HeaderTypes.{IsScalingLists};
ghost use Rattle.hv_base.specs.declared.field_rules.TheConstants.{PARAMETER_SET_RULES};
ghost use Rattle.spec_reference_pictures.specs.SpecFormats.{field_at, read};
ghost use Rattle.spec_reference_pictures.specs.SpecFormats.{IsSpelledAs};
ghost use Rattle.spec_reference_pictures.specs.SpecFormats.{IsLocal};
ghost use Rattle.spec_parameter_sets.specs.Levels.{HasGreatestSide, level_of};
ghost use Rattle.spec_parameter_sets.specs.PictureParameterSet.{picture_parameter_set};
ghost use Rattle.spec_parameter_sets.specs.Scaling.{scaling_list_data};
ghost use Rattle.spec_parameter_sets.specs.SequenceParameterSet.{sequence_parameter_set};

/// The scaling lists that are read are twenty, each as long as its size wants, with factors from 1 to 255.
pub fn scaling_lists_are_in_range()
    ensures { (bits left : List Bool) (s : ScalingLists)
        → read PARAMETER_SET_RULES scaling_list_data bits ≡ Ok (s, left) → IsScalingLists s }
{}

/// The greatest side of each level is the greatest whole number whose square is at most 8 * MaxLumaPs (A.4.1).
pub fn level_sides_are_greatest()
    ensures { (idc : ℕ) → IfSome (level_of idc) HasGreatestSide }
{}

/// A parameter set depends on the bits up to its last field that is read, and on none behind them: neither on what
/// follows vui_parameters_present_flag or slice_segment_header_extension_present_flag, nor on the trailing bits.
pub fn parameter_sets_are_local()
    ensures sequence { IsLocal (read PARAMETER_SET_RULES sequence_parameter_set) }
    ensures picture { IsLocal (read PARAMETER_SET_RULES picture_parameter_set) }
    ensures scaling { IsLocal (read PARAMETER_SET_RULES scaling_list_data) }
{}

/// A parameter set that is read is spelled by the fields that the bits have, and what such fields spell is read.
pub fn parameter_sets_are_spelled()
    ensures sequence { IsSpelledAs (field_at PARAMETER_SET_RULES) sequence_parameter_set }
    ensures picture { IsSpelledAs (field_at PARAMETER_SET_RULES) picture_parameter_set }
    ensures scaling { IsSpelledAs (field_at PARAMETER_SET_RULES) scaling_list_data }
{}
