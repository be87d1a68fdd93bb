//! Which coefficients of a sub-block are coded.

ghost use Rattle.std.specs.Prelude.{◌≡◌, ◌+◌, ◌*◌, ◌^◌, ◌<◌, ◌≤◌, [], length, OnSome};
ghost use Rattle.std.specs.List.{All};
ghost use Rattle.spec_residuals.specs.BlockGeometry.{scan_place};
ghost use Rattle.spec_cabac.specs.Engine.{IsLive};
ghost use Rattle.spec_residuals.specs.Significance.{sub_block_at, coded_context, coded_sub_block_flag, nearness};
ghost use Rattle.spec_residuals.specs.Significance.{diagonal_nearness, neighbour_context, size_context, sig_ctx};
ghost use Rattle.spec_residuals.specs.Significance.{sig_context, sig_coeff_flag, sig_coeff, sig_coeffs, coded_indices};
ghost use Rattle.cabac_contexts.specs.Takes.{Takes};
ghost use Rattle.residual_syntax.specs.Judges.{Gathers};

use crate::indices::Indices;
use cabac_contexts::BinReader;
use hv_base::Breach;
use spec_cabac::{CODED_SUB_BLOCK_FLAG, SIG_COEFF_FLAG};
use spec_residuals::{CTX_IDX_MAP, ResidualBlock, Scan, SubBlock, scan};

/// coded_sub_block_flag.
#[tactic(auto, unfolding(spec_residuals::specs::Significance::coded_sub_block_flag))]
pub fn coded_sub_block_flag<'a>(
    reader: &mut BinReader<'a>,
    block: ResidualBlock,
    last: u32,
    sub: SubBlock,
) -> Result<bool, Breach>
    requires { IsLive reader.old.interval }
    ensures { Takes (λ x. x) result reader.old reader.new (coded_sub_block_flag block last sub) }
{
    if sub.index == last || sub.index == 0 {
        return Ok(true);
    }
    reader.decision(coded_context(block, sub))
}

#[inline(always)]
fn coded_context(block: ResidualBlock, sub: SubBlock) -> usize
    ensures value { result ≡ coded_context block sub }
    ensures small { result < 154 }
{
    let base = if block.c == 0 {
        CODED_SUB_BLOCK_FLAG
    } else {
        CODED_SUB_BLOCK_FLAG + 2
    };
    if sub.right || sub.below {
        base + 1
    } else {
        base
    }
}

/// The indices of a sub-block that have a level, where `indices` had none: of that of the last level, from the last
/// one's on. `None` where bits lack.
#[inline(always)]
#[tactic(auto, unfolding(spec_residuals::specs::Significance::coded_indices))]
pub fn coded_indices<'a>(
    reader: &mut BinReader<'a>,
    block: ResidualBlock,
    sub: SubBlock,
    last: u32,
    position: u32,
    indices: &mut Indices,
) -> Option<()>
    requires live { IsLive reader.old.interval }
    requires least { 2 ≤ block.log2 }
    requires greatest { block.log2 ≤ 5 }
    requires position { position < 16 }
    requires none { indices.old ≡ [] }
    ensures value { Gathers result indices.new reader.old reader.new (coded_indices block sub last position) }
    ensures small { OnSome result (All (λ n. n < 16) indices.new) }
    ensures few { OnSome result (length indices.new ≤ 16) }
{
    let ends = sub.index == last;
    indices.note(position, ends);
    let from = if ends { position } else { 16 };
    sig_coeffs(reader, block, sub, !ends && 0 < sub.index, from, indices)
}

#[inline(always)]
fn sig_coeffs<'a>(
    reader: &mut BinReader<'a>,
    block: ResidualBlock,
    sub: SubBlock,
    flagged: bool,
    from: u32,
    indices: &mut Indices,
) -> Option<()>
    requires live { IsLive reader.old.interval }
    requires least { 2 ≤ block.log2 }
    requires greatest { block.log2 ≤ 5 }
    requires from { from ≤ 16 }
    requires room { length indices.old + from ≤ 16 }
    requires small { All (λ n. n < 16) indices.old }
    ensures value { Gathers result indices.new reader.old reader.new
        (sig_coeffs block sub flagged from indices.old) }
    ensures small { OnSome result (All (λ n. n < 16) indices.new) }
    ensures few { OnSome result (length indices.new ≤ 16) }
{
    for i in 0..from {
        sig_coeff(reader, block, sub, flagged, from - 1 - i, indices)?;
    }
    Some(())
}

#[inline(always)]
fn sig_coeff<'a>(
    reader: &mut BinReader<'a>,
    block: ResidualBlock,
    sub: SubBlock,
    flagged: bool,
    n: u32,
    indices: &mut Indices,
) -> Option<()>
    requires live { IsLive reader.old.interval }
    requires least { 2 ≤ block.log2 }
    requires greatest { block.log2 ≤ 5 }
    requires index { n < 16 }
    requires room { length indices.old < 16 }
    requires small { All (λ n. n < 16) indices.old }
    ensures value { Gathers result indices.new reader.old reader.new
        (sig_coeff block sub flagged n indices.old) }
    ensures count { length indices.new ≤ length indices.old + 1 }
    ensures small { All (λ n. n < 16) indices.new }
{
    let inferred = flagged && n == 0 && indices.len() == 0;
    let coded = inferred || reader.bin(sig_context(block, sub, n))?;
    indices.note(n, coded);
    Some(())
}

#[inline(always)]
fn sig_context(block: ResidualBlock, sub: SubBlock, n: u32) -> usize
    requires least { 2 ≤ block.log2 }
    requires greatest { block.log2 ≤ 5 }
    requires index { n < 16 }
    ensures value { result ≡ sig_context block sub (scan_place 2 block.scan n) }
    ensures small { result < 154 }
{
    let (x, y) = scan(2, block.scan, n);
    let base = if block.c == 0 {
        SIG_COEFF_FLAG
    } else {
        SIG_COEFF_FLAG + 27
    };
    base + sig_ctx(block, sub, x, y)
}

#[inline(always)]
#[tactic(auto, unfolding(spec_residuals::specs::Significance::sig_ctx))]
fn sig_ctx(block: ResidualBlock, sub: SubBlock, x: u32, y: u32) -> usize
    requires least { 2 ≤ block.log2 }
    requires greatest { block.log2 ≤ 5 }
    requires x { x < 4 }
    requires y { y < 4 }
    ensures value { result ≡ sig_ctx block sub (x, y) }
    ensures small { result < 27 }
{
    if block.log2 == 2 {
        return usize::from(CTX_IDX_MAP[(4 * y + x) as usize]);
    }
    if sub.x == 0 && sub.y == 0 && x == 0 && y == 0 {
        return 0;
    }
    neighbour_context(sub, x, y) + size_context(block, sub)
}

#[inline(always)]
fn neighbour_context(sub: SubBlock, x: u32, y: u32) -> usize
    requires x { x < 4 }
    requires y { y < 4 }
    ensures value { result ≡ neighbour_context sub.right sub.below (x, y) }
    ensures small { result ≤ 2 }
{
    if sub.right && sub.below {
        2
    } else if sub.right {
        nearness(y)
    } else if sub.below {
        nearness(x)
    } else {
        diagonal_nearness(x + y)
    }
}

#[inline(always)]
fn nearness(n: u32) -> usize
    ensures value { result ≡ nearness n }
    ensures small { result ≤ 2 }
{
    match n {
        0 => 2,
        1 => 1,
        _ => 0,
    }
}

#[inline(always)]
fn diagonal_nearness(n: u32) -> usize
    ensures value { result ≡ diagonal_nearness n }
    ensures small { result ≤ 2 }
{
    match n {
        0 => 2,
        1 | 2 => 1,
        _ => 0,
    }
}

#[inline(always)]
fn size_context(block: ResidualBlock, sub: SubBlock) -> usize
    ensures value { result ≡ size_context block sub }
    ensures small { result ≤ 24 }
{
    if block.c != 0 {
        return if block.log2 == 3 { 9 } else { 12 };
    }
    let inner = if sub.x == 0 && sub.y == 0 { 0 } else { 3 };
    if block.log2 != 3 {
        return inner + 21;
    }
    match block.scan {
        Scan::Diagonal => inner + 9,
        Scan::Horizontal | Scan::Vertical => inner + 15,
    }
}
