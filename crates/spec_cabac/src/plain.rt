//! The definitions as a program: slow, and as they are written.

ghost use Rattle.std.specs.Prelude.{◌≡◌, ◌+◌, ◌*◌, ◌^◌, ◌<◌, ◌≤◌, length, IfSome, OnSome, false};
ghost use Rattle.spec_bits.specs.Bits.{Finds};
ghost use Rattle.spec_cabac.specs.Engine.{IsLive, left, number_at, start_at, doublings, renormalized_at, decision_at};
ghost use Rattle.spec_cabac.specs.Engine.{bypass_at, terminate_at};
ghost use Rattle.spec_cabac.specs.Plain.{engine_of};

use crate::context::{after_lps, after_mps};
use crate::tables::lps_range;
use spec_bits::unsigned;

/// ivlCurrRange, ivlOffset, the bits of the substream, and the place of the one that is read next.
#[derive(Clone, Copy, Debug)]
pub struct PlainEngine<'a> {
    /// ivlCurrRange, from 256 to 510.
    pub range: u32,
    /// ivlOffset, below ivlCurrRange.
    pub offset: u32,
    /// The bits of the substream.
    pub bits: &'a [bool],
    /// The place of the bit that is read next, from 0.
    pub at: usize,
}

/// The engine after initialization (9.3.2.5); `None` where there are fewer than nine bits.
#[tactic(auto, unfolding(crate::specs::Engine::started_at))]
pub fn start(bits: &[bool]) -> Option<PlainEngine<'_>>
    ensures value { Finds engine_of result (start_at bits.now) }
    ensures live { IfSome result (λ e. IsLive (engine_of e)) }
{
    let first = PlainEngine {
        range: 510,
        offset: 0,
        bits,
        at: 0,
    };
    let (offset, after) = number(9, first)?;
    Some(PlainEngine {
        offset: offset.min(509),
        ..after
    })
}

/// A decision (9.3.4.3.2): the bin, the engine and the context after it; `None` where bits lack.
#[tactic(auto, unfolding(crate::specs::Engine::decision_at))]
pub fn decision(e: PlainEngine<'_>, context: u8) -> Option<(bool, PlainEngine<'_>, u8)>
    requires live { IsLive (engine_of e) }
    requires context { context < 126 }
    ensures value { Finds (λ f. (f.0, (engine_of f.1, f.2))) result (decision_at (engine_of e.entry, context)) }
    ensures live { IfSome result (λ f. IsLive (engine_of f.1)) }
    ensures context { IfSome result (λ f. f.2 < 126) }
{
    let lps = lps_range(u32::from(context / 2), e.range);
    let mps = context % 2 == 1;
    let rest = e.range - lps;
    if rest <= e.offset {
        let after = renormalized(lps, e.offset - rest, e)?;
        Some((!mps, after, after_lps(context)))
    } else {
        let after = renormalized(rest, e.offset, e)?;
        Some((mps, after, after_mps(context)))
    }
}

/// A bypass bin (9.3.4.3.4) and the engine after it; `None` where bits lack.
#[tactic(auto, unfolding(crate::specs::Engine::bypass_at))]
pub fn bypass(e: PlainEngine<'_>) -> Option<(bool, PlainEngine<'_>)>
    requires { IsLive (engine_of e) }
    ensures value { Finds (λ f. (f.0, engine_of f.1)) result (bypass_at (engine_of e.entry)) }
    ensures live { IfSome result (λ f. IsLive (engine_of f.1)) }
{
    let (bit, after) = number(1, e)?;
    let range = after.range;
    let offset = 2 * e.offset + bit;
    if range <= offset {
        let offset = offset - range;
        Some((true, PlainEngine { offset, ..after }))
    } else {
        Some((false, PlainEngine { offset, ..after }))
    }
}

/// A bin before termination (9.3.4.3.5) and the engine after it; `None` where bits lack.
#[tactic(auto, unfolding(crate::specs::Engine::terminate_at))]
pub fn terminate(e: PlainEngine<'_>) -> Option<(bool, PlainEngine<'_>)>
    requires { IsLive (engine_of e) }
    ensures value { Finds (λ f. (f.0, engine_of f.1)) result (terminate_at (engine_of e.entry)) }
    ensures live { IfSome result (λ f. f.0 ≡ false → IsLive (engine_of f.1)) }
{
    let range = e.range - 2;
    if range <= e.offset {
        Some((true, PlainEngine { range, ..e }))
    } else {
        Some((false, renormalized(range, e.offset, e)?))
    }
}

/// The engine after renormalization (9.3.4.3.3); `None` where bits lack.
#[tactic(auto, unfolding(crate::specs::Engine::renormalized_at))]
fn renormalized(range: u32, offset: u32, e: PlainEngine<'_>) -> Option<PlainEngine<'_>>
    requires low { 2 ≤ range }
    requires high { range ≤ 510 }
    requires below { offset < range }
    ensures value { Finds engine_of result (renormalized_at range offset (engine_of e.entry)) }
    ensures live { IfSome result (λ e. IsLive (engine_of e)) }
{
    let n = doublings(range);
    let (more, after) = number(n, e)?;
    Some(PlainEngine {
        range: range << n,
        offset: (offset << n) + more,
        ..after
    })
}

/// How often a range below 256 is doubled until it isn't.
#[tactic(auto, unfolding(crate::specs::Engine::doublings))]
fn doublings(range: u32) -> u32
    ensures value { result ≡ doublings range }
    ensures few { result ≤ 8 }
{
    let thresholds = [256u32, 128, 64, 32, 16, 8, 4, 2];
    thresholds.iter().filter(|t| range < **t).count() as u32
}

/// The number that the next `n` bits spell, and the engine behind them; `None` where fewer are left.
#[tactic(auto, unfolding(crate::specs::Engine::number_at, spec_bits::specs::Bits::u_at))]
fn number(n: u32, e: PlainEngine<'_>) -> Option<(u32, PlainEngine<'_>)>
    requires { n ≤ 32 }
    ensures value { Finds (λ f. (f.0, engine_of f.1)) result (number_at n (engine_of e.entry)) }
    ensures small { IfSome result (λ f. f.0 < 2 ^ n) }
    ensures range { IfSome result (λ f. f.1.range ≡ e.entry.range) }
{
    let (number, _) = unsigned(n, left(e))?;
    let at = e.at + n as usize;
    Some((number, PlainEngine { at, ..e }))
}

/// The bits that are not read yet.
fn left(e: PlainEngine<'_>) -> &[bool]
    ensures { result.now ≡ left (engine_of e.entry) }
{
    if e.at < e.bits.len() {
        &e.bits[e.at..]
    } else {
        &[]
    }
}
