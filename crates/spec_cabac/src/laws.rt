//! Laws of the definitions: what spells the bins that are read, and that the tables are the same by column.

ghost use Rattle.std.specs.Prelude.{◌≡◌, ℕ, ◌-◌, ◌/◌, ◌<◌, ◌≤◌, [], map, get_or, slice_index};
ghost use Rattle.std.specs.List.{range_with_len};
ghost use Rattle.hv_base.specs.declared.breach.Breach.{Breach};
ghost use Rattle.spec_formats.specs.Format.{One, IsSpelledAs, IsReadAgain};
ghost use Rattle.spec_cabac.specs.Bins.{Bin, bin_at, exp_golomb, fixed};
ghost use Rattle.spec_cabac.specs.Contexts.{lps_range_of, state_after_lps, state_after_mps};
ghost use Rattle.spec_cabac.specs.TablesByColumn.{all_init_values, bases_from, elements, init_values_at, next_states};
ghost use Rattle.spec_cabac.specs.TablesByColumn.{ranges_by_index};

/// A bin that is read is spelled by the word that the data have, and what such words spell or wrote is read.
pub fn bins_are_spelled()
    ensures read_as_spelled { (bin : Bin) → IsSpelledAs bin_at (One bin) }
    ensures read_again { (bin : Bin) → IsReadAgain bin_at (One bin) }
    ensures fixed { (n : ℕ) → IsSpelledAs bin_at (fixed n) }
    ensures exp_golomb { (too_great : Breach) (k : ℕ) → IsSpelledAs bin_at (exp_golomb too_great k) }
{}

/// The tables are those that stand a second time in the definitions, laid out the other way: the ranges of the less
/// probable symbol by qRangeIdx, both next states of each pStateIdx, and initValue of each context for all initTypes,
/// element by element, with each element's contexts right behind those of the element before it.
pub fn tables_stand_by_column()
    ensures ranges { (state range : ℕ) → state < 64 → 256 ≤ range → range < 512
        → lps_range_of state range ≡ slice_index (get_or ranges_by_index ((range - 256) / 64) []) state }
    ensures states { map (λ state. (state_after_lps state, state_after_mps state)) (range_with_len 0 64) ≡ next_states }
    ensures init_values { map init_values_at (range_with_len 0 154) ≡ all_init_values elements }
    ensures bases { map (λ e. e.base) elements ≡ bases_from 0 elements }
{}
