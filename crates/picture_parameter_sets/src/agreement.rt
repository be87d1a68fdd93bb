//! Whether a picture parameter set agrees with its sequence parameter set (7.4.3.3).

ghost use Rattle.std.specs.Prelude.{◌≡◌};
ghost use Rattle.header_types.specs.SequenceParameterSets.{qp_bd_offset_y};
ghost use Rattle.spec_parameter_sets.specs.Fits.{fits, qp_delta_depth, ctb_log2_size, least_init_qp};
ghost use Rattle.spec_parameter_sets.specs.Fits.{log2_par_mrg_level};

use header_types::{BlockSizes, PpsFields, SpsFields};

/// diff_cu_qp_delta_depth: 0 where it isn't there.
fn qp_delta_depth(depth: Option<u32>) -> u32
    ensures { result ≡ qp_delta_depth depth }
{
    match depth {
        None => 0,
        Some(depth) => depth,
    }
}

/// CtbLog2SizeY.
fn ctb_log2_size(blocks: &BlockSizes) -> u64
    ensures { result ≡ ctb_log2_size blocks.now }
{
    let min_cb_log2_size = u64::from(blocks.log2_min_luma_coding_block_size_minus3) + 3;
    min_cb_log2_size + u64::from(blocks.log2_diff_max_min_luma_coding_block_size)
}

/// The least init_qp_minus26: -(26 + QpBdOffsetY).
fn least_init_qp(sps: &SpsFields) -> i64
    ensures { result ≡ least_init_qp (qp_bd_offset_y sps.now) }
{
    -(26 + 6 * i64::from(sps.format.bit_depth_luma_minus8))
}

/// Whether a picture parameter set agrees with the sequence parameter set that it names: where not, a slice that names
/// it breaks the rule `SetMismatch`. diff_cu_qp_delta_depth is at most log2_diff_max_min_luma_coding_block_size,
/// Log2ParMrgLevel at most CtbLog2SizeY, and init_qp_minus26 at least -(26 + QpBdOffsetY).
#[tactic(auto, unfolding(spec_parameter_sets::specs::Fits::fits))]
pub fn fits(sps: &SpsFields, pps: &PpsFields) -> bool
    ensures { result ≡ fits sps.now pps.now }
{
    let depth = qp_delta_depth(pps.quantization.diff_cu_qp_delta_depth);
    let log2_par_mrg_level = u64::from(pps.log2_parallel_merge_level_minus2) + 2;
    depth <= sps.blocks.log2_diff_max_min_luma_coding_block_size
        && log2_par_mrg_level <= ctb_log2_size(&sps.blocks)
        && least_init_qp(sps) <= i64::from(pps.quantization.init_qp_minus26)
}
