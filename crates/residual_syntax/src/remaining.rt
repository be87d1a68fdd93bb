//! The levels of a sub-block, once it is known which are coded.

ghost use Rattle.std.specs.Prelude.{◌≡◌, ◌+◌, ◌-◌, ◌*◌, ◌^◌, ◌<◌, ◌≤◌, ◌∷◌, ◌++◌, List, length, slice_index, IfOk};
ghost use Rattle.std.specs.Prelude.{IfSome};
ghost use Rattle.std.specs.Prelude.{OnOk};
ghost use Rattle.std.specs.List.{All};
ghost use Rattle.spec_bits.specs.Bits.{bit_of, digit};
ghost use Rattle.spec_residuals.specs.BlockGeometry.{scan_place};
ghost use Rattle.spec_cabac.specs.Engine.{IsLive};
ghost use Rattle.spec_cabac.specs.declared.init_values.TheConstants.{COEFF_ABS_LEVEL_GREATER1_FLAG};
ghost use Rattle.spec_cabac.specs.declared.init_values.TheConstants.{COEFF_ABS_LEVEL_GREATER2_FLAG};
ghost use Rattle.spec_residuals.specs.LastPosition.{by_component};
ghost use Rattle.spec_residuals.specs.Levels.{first_behind, greater1_flag, greater1_flags, greater2_flag, is_first};
ghost use Rattle.spec_residuals.specs.Levels.{coeff_abs_level_remaining, suffix_size, front, next_rice, base_level};
ghost use Rattle.spec_residuals.specs.Levels.{greatest_base, is_negative, signed, level_of, sized_level, level_at};
ghost use Rattle.spec_residuals.specs.Levels.{levels_from, next_context, no_flags, sign_hidden};
ghost use Rattle.cabac_contexts.specs.Takes.{Leaves, Takes};
ghost use Rattle.residual_syntax.specs.Judges.{FindsOrStays, Judges};

use crate::indices::Indices;
use crate::level_list::Levels;
use cabac_contexts::BinReader;
use hv_base::{Breach, FaultKind};
use spec_cabac::{COEFF_ABS_LEVEL_GREATER1_FLAG, COEFF_ABS_LEVEL_GREATER2_FLAG};
use spec_residuals::{Greater1Flags, Level, LevelState, ResidualBlock, Signs, SubBlock, scan};

const TOO_GREAT: Breach = Breach::Fault(FaultKind::CoeffRange);

/// The coeff_abs_level_greater1_flag elements of a sub-block of `count` levels, by the set of their contexts, where
/// `flags` had none.
pub fn greater1_flags<'a>(
    reader: &mut BinReader<'a>,
    block: ResidualBlock,
    set: u32,
    count: u32,
    flags: &mut Greater1Flags,
) -> Result<(), Breach>
    requires live { IsLive reader.old.interval }
    requires set { set ≤ by_component block 3 1 }
    requires count { count ≤ 16 }
    requires none { flags.old ≡ no_flags }
    ensures value { Leaves result flags.new reader.old reader.new (greater1_flags block set count) }
{
    let most = count.min(8);
    for j in 0..most {
        greater1_flag(reader, block, set, j, flags)?;
    }
    Ok(())
}

#[inline(always)]
fn greater1_flag<'a>(
    reader: &mut BinReader<'a>,
    block: ResidualBlock,
    set: u32,
    j: u32,
    flags: &mut Greater1Flags,
) -> Result<(), Breach>
    requires live { IsLive reader.old.interval }
    requires set { set ≤ by_component block 3 1 }
    requires index { j < 16 }
    requires context { flags.old.context ≤ 3 }
    ensures value { Leaves result flags.new reader.old reader.new (greater1_flag block set j flags.old) }
    ensures context { flags.new.context ≤ 3 }
{
    let flag = reader.decision(greater1_context(block, set, flags.context))?;
    flags.flags[j as usize] = flag;
    flags.context = next_context(flags.context, flag);
    flags.first = first_behind(flags.first, flag, j);
    Ok(())
}

/// Which flag is the first 1, behind flag number `j`.
#[inline(always)]
fn first_behind(first: Option<u32>, flag: bool, j: u32) -> Option<u32>
    ensures { result ≡ first_behind first flag j }
{
    match first {
        None => flag.then_some(j),
        Some(_) => first,
    }
}

/// Whether flag number `j` is the first 1.
#[inline(always)]
fn is_first(first: Option<u32>, j: usize) -> bool
    ensures { result ≡ is_first first j }
{
    match first {
        None => false,
        Some(first) => j == first as usize,
    }
}

/// The context of coeff_abs_level_greater1_flag.
#[inline(always)]
fn greater1_context(block: ResidualBlock, set: u32, context: u32) -> usize
    requires set { set ≤ by_component block 3 1 }
    requires context { context ≤ 3 }
    ensures value { result
        ≡ by_component block COEFF_ABS_LEVEL_GREATER1_FLAG (COEFF_ABS_LEVEL_GREATER1_FLAG + 16) + 4 * set + context }
    ensures small { result < 154 }
{
    if block.c == 0 {
        COEFF_ABS_LEVEL_GREATER1_FLAG + 4 * set as usize + context as usize
    } else {
        COEFF_ABS_LEVEL_GREATER1_FLAG + 16 + 4 * set as usize + context as usize
    }
}

/// greater1Ctx of the flag behind one.
#[inline(always)]
fn next_context(context: u32, flag: bool) -> u32
    requires { context ≤ 3 }
    ensures value { result ≡ next_context context flag }
    ensures small { result ≤ 3 }
{
    if flag || context == 0 {
        0
    } else {
        (context + 1).min(3)
    }
}

/// coeff_abs_level_greater2_flag, where it is there.
#[tactic(auto, unfolding(spec_residuals::specs::Levels::greater2_flag))]
pub fn greater2_flag<'a>(
    reader: &mut BinReader<'a>,
    block: ResidualBlock,
    set: u32,
    first: Option<u32>,
) -> Result<bool, Breach>
    requires live { IsLive reader.old.interval }
    requires set { set ≤ by_component block 3 1 }
    ensures { Takes (λ x. x) result reader.old reader.new (greater2_flag block set first) }
{
    if first.is_none() {
        return Ok(false);
    }
    reader.decision(greater2_context(block, set))
}

/// The context of coeff_abs_level_greater2_flag.
#[inline(always)]
fn greater2_context(block: ResidualBlock, set: u32) -> usize
    requires { set ≤ by_component block 3 1 }
    ensures value { result
        ≡ by_component block COEFF_ABS_LEVEL_GREATER2_FLAG (COEFF_ABS_LEVEL_GREATER2_FLAG + 4) + set }
    ensures small { result < 154 }
{
    if block.c == 0 {
        COEFF_ABS_LEVEL_GREATER2_FLAG + set as usize
    } else {
        COEFF_ABS_LEVEL_GREATER2_FLAG + 4 + set as usize
    }
}

/// Whether the sign of a sub-block's last level is hidden.
#[tactic(auto, unfolding(spec_residuals::specs::Levels::sign_hidden))]
pub fn sign_hidden(block: ResidualBlock, indices: &Indices) -> bool
    requires { 0 < length indices.now }
    ensures { result ≡ sign_hidden block indices.now }
{
    block.sign_hiding
        && !block.bypass
        && indices.at(0).saturating_sub(indices.at(indices.len() - 1)) > 3
}

/// The levels at these indices, behind those before.
pub fn levels_from<'a>(
    reader: &mut BinReader<'a>,
    block: ResidualBlock,
    sub: SubBlock,
    indices: &Indices,
    signs: &Signs,
    levels: &mut Levels,
) -> Result<(), Breach>
    requires live { IsLive reader.old.interval }
    requires x { sub.x < 8 }
    requires y { sub.y < 8 }
    requires few { length indices.now ≤ 16 }
    requires indices { All (λ n. n < 16) indices.now }
    requires room { length levels.old.levels + length indices.now ≤ 1024 }
    ensures value { Leaves result levels.new reader.old reader.new
        (levels_from block sub indices.now signs.now levels.old) }
    ensures count { OnOk result (length levels.new.levels ≤ length levels.old.levels + length indices.now) }
{
    let mut state = LevelState { rice: 0, sum: 0 };
    let count = indices.len();
    for j in 0..count {
        level_at(reader, block, sub, indices, signs, j, &mut state, levels)?;
    }
    Ok(())
}

/// Level `j` of a sub-block, behind those before.
#[inline(always)]
fn level_at<'a>(
    reader: &mut BinReader<'a>,
    block: ResidualBlock,
    sub: SubBlock,
    indices: &Indices,
    signs: &Signs,
    j: usize,
    state: &mut LevelState,
    levels: &mut Levels,
) -> Result<(), Breach>
    requires live { IsLive reader.old.interval }
    requires x { sub.x < 8 }
    requires y { sub.y < 8 }
    requires indices { All (λ n. n < 16) indices.now }
    requires few { length indices.now ≤ 16 }
    requires index { j < length indices.now }
    requires rice { state.old.rice ≤ 4 }
    requires sum { state.old.sum ≤ 32768 * j }
    requires room { length levels.old.levels < 1024 }
    ensures value { Leaves result (state.new, levels.new) reader.old reader.new
        (level_at block sub indices.now signs.now j (state.old, levels.old)) }
    ensures rice { state.new.rice ≤ 4 }
    ensures sum { OnOk result (state.new.sum ≤ 32768 * (j + 1)) }
    ensures count { OnOk result (length levels.new.levels ≡ length levels.old.levels + 1) }
{
    let base = base_level(signs, j);
    let more = if base == greatest_base(signs, j) {
        coeff_abs_level_remaining(reader, state.rice)?
    } else {
        0
    };
    sized_level(block, sub, indices, signs, j, base + more, state, levels)
}

/// Level `j` of this size, behind those before.
#[inline(always)]
fn sized_level(
    block: ResidualBlock,
    sub: SubBlock,
    indices: &Indices,
    signs: &Signs,
    j: usize,
    size: u64,
    state: &mut LevelState,
    levels: &mut Levels,
) -> Result<(), Breach>
    requires x { sub.x < 8 }
    requires y { sub.y < 8 }
    requires indices { All (λ n. n < 16) indices.now }
    requires few { length indices.now ≤ 16 }
    requires index { j < length indices.now }
    requires size { size < 2 ^ 41 }
    requires rice { state.old.rice ≤ 4 }
    requires sum { state.old.sum ≤ 32768 * j }
    requires room { length levels.old.levels < 1024 }
    ensures value { Judges result (state.new, levels.new)
        (sized_level block sub indices.now signs.now j size (state.old, levels.old)) }
    ensures rice { state.new.rice ≤ 4 }
    ensures sum { OnOk result (state.new.sum ≤ 32768 * (j + 1)) }
    ensures count { OnOk result (length levels.new.levels ≡ length levels.old.levels + 1) }
{
    let sum = state.sum + size;
    let negative = is_negative(signs, indices.len(), j, sum);
    if size > greatest_size(negative) {
        return Err(TOO_GREAT);
    }
    state.rice = next_rice(state.rice, size);
    state.sum = sum;
    let index = u32::from(indices.at(j));
    levels.push(level_of(block, sub, index, negative, size));
    Ok(())
}

/// A level with its place in the block.
#[inline(always)]
fn level_of(block: ResidualBlock, sub: SubBlock, index: u32, negative: bool, size: u64) -> Level
    requires x { sub.x < 8 }
    requires y { sub.y < 8 }
    requires index { index < 16 }
    requires size { size ≤ 32767 + digit negative }
    ensures { result ≡ level_of sub (scan_place 2 block.scan index) negative size }
{
    let (x, y) = scan(2, block.scan, index);
    Level {
        x: (4 * sub.x + x) as u8,
        y: (4 * sub.y + y) as u8,
        value: signed(negative, size),
    }
}

/// The greatest size of a level.
#[inline(always)]
fn greatest_size(negative: bool) -> u64
    ensures { result ≡ 32767 + digit negative }
{
    if negative { 32768 } else { 32767 }
}

/// baseLevel of level `j`.
#[inline(always)]
fn base_level(signs: &Signs, j: usize) -> u64
    requires { j < 16 }
    ensures value { result ≡ base_level signs.now j }
    ensures small { result ≤ 3 }
{
    1 + u64::from(signs.greater1.flags[j])
        + u64::from(signs.greater2 && is_first(signs.greater1.first, j))
}

/// The greatest baseLevel of level `j`.
#[inline(always)]
fn greatest_base(signs: &Signs, j: usize) -> u64
    ensures { result ≡ greatest_base signs.now j }
{
    if j >= 8 {
        1
    } else if is_first(signs.greater1.first, j) {
        3
    } else {
        2
    }
}

/// coeff_abs_level_remaining with cRiceParam `k`.
#[inline(always)]
fn coeff_abs_level_remaining<'a>(reader: &mut BinReader<'a>, k: u32) -> Result<u64, Breach>
    requires live { IsLive reader.old.interval }
    requires rice { k ≤ 4 }
    ensures value { Takes (λ x. x) result reader.old reader.new (coeff_abs_level_remaining k) }
    ensures small { IfOk result (λ value. value < 2 ^ 40) }
{
    match short_remaining(reader, k) {
        Some(value) => Ok(value),
        None => long_remaining(reader, k),
    }
}

/// The same where 16 bins are there and it has no more; `None`, and no bin is read, elsewhere.
#[inline(always)]
fn short_remaining<'a>(reader: &mut BinReader<'a>, k: u32) -> Option<u64>
    requires live { IsLive reader.old.interval }
    requires rice { k ≤ 4 }
    ensures value { FindsOrStays result reader.old reader.new (coeff_abs_level_remaining k) }
    ensures small { IfSome result (λ value. value < 2 ^ 40) }
{
    let (bins, prefix) = reader.ahead()?;
    if prefix > 15 {
        return None;
    }
    let size = suffix_size(prefix, k);
    if prefix + size > 15 {
        return None;
    }
    let suffix = reader.take_prefixed(bins, prefix, size);
    Some(scaled(front(prefix), k) + u64::from(suffix))
}

/// The same of a prefix and a suffix that are read one after the other.
#[inline(never)]
#[tactic(auto, unfolding(spec_residuals::specs::Levels::coeff_abs_level_remaining))]
fn long_remaining<'a>(reader: &mut BinReader<'a>, k: u32) -> Result<u64, Breach>
    requires live { IsLive reader.old.interval }
    requires rice { k ≤ 4 }
    ensures value { Takes (λ x. x) result reader.old reader.new (coeff_abs_level_remaining k) }
    ensures small { IfOk result (λ value. value < 2 ^ 40) }
{
    let prefix = reader.ones(TOO_GREAT)?;
    let suffix = reader.fixed(suffix_size(prefix, k))?;
    Ok(scaled(front(prefix), k) + u64::from(suffix))
}

/// How many bits a suffix has.
#[inline(always)]
fn suffix_size(prefix: u32, k: u32) -> u32
    requires prefix { prefix < 32 }
    requires rice { k ≤ 4 }
    ensures value { result ≡ suffix_size prefix k }
    ensures few { result ≤ 32 }
{
    if prefix > 3 { prefix - 3 + k } else { k }
}

/// What a prefix stands for, in 2^k.
#[inline(always)]
fn front(prefix: u32) -> u64
    requires { prefix < 32 }
    ensures value { result ≡ front prefix }
    ensures small { result ≤ 268435458 }
{
    if prefix > 3 {
        power(prefix - 3) + 2
    } else {
        u64::from(prefix)
    }
}

/// A power of two.
#[inline(always)]
fn power(n: u32) -> u64
    requires { n ≤ 28 }
    ensures value { result ≡ 2 ^ n }
    ensures small { result ≤ 268435456 }
{
    1 << n
}

/// A number times 2^k.
#[inline(always)]
fn scaled(n: u64, k: u32) -> u64
    requires rice { k ≤ 4 }
    requires small { n ≤ 268435458 }
    ensures value { result ≡ n * 2 ^ k }
    ensures small { result ≤ 4294967328 }
{
    n << k
}

/// cRiceParam of the level behind one of this size.
#[inline(always)]
fn next_rice(rice: u32, size: u64) -> u32
    requires { rice ≤ 4 }
    ensures value { result ≡ next_rice rice size }
    ensures small { result ≤ 4 }
{
    if size > 3 << rice {
        (rice + 1).min(4)
    } else {
        rice
    }
}

/// Whether level `j` of `count` is negative: a hidden sign is that of an odd sum.
#[inline(always)]
fn is_negative(signs: &Signs, count: usize, j: usize, sum: u64) -> bool
    requires index { j < count }
    requires few { count ≤ 16 }
    ensures { result ≡ is_negative signs.now count j sum }
{
    if !signs.hidden {
        return sign_at(signs.signs, (count - 1 - j) as u32);
    }
    if j + 1 == count {
        sum % 2 == 1
    } else {
        sign_at(signs.signs, (count - 2 - j) as u32)
    }
}

/// The sign at a place of the number that signs spell.
#[inline(always)]
fn sign_at(signs: u32, place: u32) -> bool
    requires { place < 32 }
    ensures { result ≡ bit_of signs place }
{
    (signs >> place) & 1 == 1
}

/// How many signs `count` levels have.
pub fn coded_signs(count: u32, hidden: bool) -> u32
    requires { 0 < count }
    ensures { result ≡ count - digit hidden }
{
    if hidden { count - 1 } else { count }
}

/// A level of this size, which fits 16 bits.
#[inline(always)]
fn signed(negative: bool, size: u64) -> i16
    requires { size ≤ 32767 + digit negative }
    ensures { result ≡ signed negative size }
{
    if negative {
        (-(size as i32)) as i16
    } else {
        size as i16
    }
}
