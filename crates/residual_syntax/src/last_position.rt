//! transform_skip_flag, and the place of the last coded level.

ghost use Rattle.std.specs.Prelude.{◌≡◌, ◌+◌, ◌-◌, ◌*◌, ◌/◌, ◌^◌, ◌<◌, ◌≤◌, IfOk, IfSome};
ghost use Rattle.spec_cabac.specs.Engine.{IsLive};
ghost use Rattle.spec_residuals.specs.LastPosition.{transform_skip_flag, prefix_context, last_prefix, last_suffix};
ghost use Rattle.spec_residuals.specs.LastPosition.{last_of, last_position};
ghost use Rattle.cabac_contexts.specs.Takes.{Finds, Takes};

use cabac_contexts::BinReader;
use hv_base::{Breach, FaultKind};
use spec_cabac::{LAST_SIG_COEFF_X_PREFIX, LAST_SIG_COEFF_Y_PREFIX, TRANSFORM_SKIP_FLAG};
use spec_residuals::{ResidualBlock, Scan};

const DATA_END: Breach = Breach::Fault(FaultKind::DataEnd);

/// transform_skip_flag, where it is there.
#[tactic(auto, unfolding(spec_residuals::specs::LastPosition::transform_skip_flag))]
pub fn transform_skip_flag<'a>(
    reader: &mut BinReader<'a>,
    block: ResidualBlock,
) -> Result<bool, Breach>
    requires { IsLive reader.old.interval }
    ensures { Takes (λ x. x) result reader.old reader.new (transform_skip_flag block) }
{
    if !block.skip_enabled || block.bypass || block.log2 != 2 {
        return Ok(false);
    }
    reader.decision(if block.c == 0 {
        TRANSFORM_SKIP_FLAG
    } else {
        TRANSFORM_SKIP_FLAG + 1
    })
}

/// The column and the row of the last coded level.
#[tactic(auto, unfolding(spec_residuals::specs::LastPosition::last_position))]
pub fn last_position<'a>(
    reader: &mut BinReader<'a>,
    block: ResidualBlock,
) -> Result<(u32, u32), Breach>
    requires live { IsLive reader.old.interval }
    requires least { 2 ≤ block.log2 }
    requires greatest { block.log2 ≤ 5 }
    ensures value { Takes (λ x. x) result reader.old reader.new (last_position block) }
    ensures x { IfOk result (λ p. p.0 < 2 ^ block.log2) }
    ensures y { IfOk result (λ p. p.1 < 2 ^ block.log2) }
{
    let x_prefix = last_prefix(reader, LAST_SIG_COEFF_X_PREFIX, block)?;
    let y_prefix = last_prefix(reader, LAST_SIG_COEFF_Y_PREFIX, block)?;
    let x_suffix = last_suffix(reader, x_prefix)?;
    let y_suffix = last_suffix(reader, y_prefix)?;
    let x = last_of(block.log2, x_prefix, x_suffix);
    let y = last_of(block.log2, y_prefix, y_suffix);
    match block.scan {
        Scan::Vertical => Ok((y, x)),
        Scan::Diagonal | Scan::Horizontal => Ok((x, y)),
    }
}

/// last_sig_coeff_x_prefix or last_sig_coeff_y_prefix.
#[inline(always)]
fn last_prefix<'a>(
    reader: &mut BinReader<'a>,
    base: usize,
    block: ResidualBlock,
) -> Result<u32, Breach>
    requires live { IsLive reader.old.interval }
    requires base { base ≤ 60 }
    requires least { 2 ≤ block.log2 }
    requires greatest { block.log2 ≤ 5 }
    ensures value { Takes (λ x. x) result reader.old reader.new (last_prefix base block) }
    ensures small { IfOk result (λ prefix. prefix < 2 * block.log2) }
{
    match prefix(reader, base, block) {
        Some(prefix) => Ok(prefix),
        None => Err(DATA_END),
    }
}

/// The same; `None` where bits lack.
#[tactic(auto, unfolding(spec_residuals::specs::LastPosition::last_prefix))]
#[inline(always)]
fn prefix<'a>(reader: &mut BinReader<'a>, base: usize, block: ResidualBlock) -> Option<u32>
    requires live { IsLive reader.old.interval }
    requires base { base ≤ 60 }
    requires least { 2 ≤ block.log2 }
    requires greatest { block.log2 ≤ 5 }
    ensures value { Finds result reader.old reader.new (last_prefix base block) }
    ensures small { IfSome result (λ prefix. prefix < 2 * block.log2) }
{
    let most = 2 * block.log2 - 1;
    for i in 0..most {
        if !reader.bin(base + prefix_context(block, i))? {
            return Some(i);
        }
    }
    Some(most)
}

/// ctxIdxInc of bin `i` of a prefix.
#[inline(always)]
fn prefix_context(block: ResidualBlock, i: u32) -> usize
    requires least { 2 ≤ block.log2 }
    requires greatest { block.log2 ≤ 5 }
    requires bin { i + 1 < 2 * block.log2 }
    ensures value { result ≡ prefix_context block i }
    ensures small { result < 18 }
{
    let log2 = block.log2;
    if block.c == 0 {
        (3 * (log2 - 2) + (log2 - 1) / 4 + (i >> ((log2 + 1) / 4))) as usize
    } else {
        (15 + (i >> (log2 - 2))) as usize
    }
}

/// last_sig_coeff_x_suffix or last_sig_coeff_y_suffix, where the prefix has one.
fn last_suffix<'a>(reader: &mut BinReader<'a>, prefix: u32) -> Result<u32, Breach>
    requires live { IsLive reader.old.interval }
    requires prefix { prefix < 10 }
    ensures value { Takes (λ x. x) result reader.old reader.new (last_suffix prefix) }
    ensures small { IfOk result (λ suffix. 3 < prefix → suffix < 2 ^ (prefix / 2 - 1)) }
{
    if prefix <= 3 {
        return Ok(0);
    }
    reader.fixed(prefix / 2 - 1)
}

/// The column or row that a prefix and a suffix spell.
#[tactic(auto, using(crate::proofs::Positions::at_least_4))]
fn last_of(log2: u32, prefix: u32, suffix: u32) -> u32
    requires least { 2 ≤ log2 }
    requires greatest { log2 ≤ 5 }
    requires prefix { prefix < 2 * log2 }
    requires suffix { 3 < prefix → suffix < 2 ^ (prefix / 2 - 1) }
    ensures value { result ≡ last_of prefix suffix }
    ensures small { result < 2 ^ log2 }
{
    if prefix <= 3 {
        return prefix;
    }
    power(prefix / 2 - 1) * (2 + prefix % 2) + suffix
}

/// A power of two.
#[inline(always)]
fn power(n: u32) -> u32
    requires { n ≤ 3 }
    ensures value { result ≡ 2 ^ n }
    ensures small { result ≤ 8 }
{
    1 << n
}
