//! The contexts of a slice segment.

ghost use Rattle.std.specs.Prelude.{◌≡◌, ◌<◌, ◌≤◌, pos, slice_index, slice_set};
ghost use Rattle.std.specs.List.{All};
ghost use lib.Signed.{mag};
ghost use Rattle.spec_cabac.specs.Contexts.{clip3, contexts_of, first_contexts};

use spec_cabac::{INIT_VALUES, initial_context};
use std::marker::Model;

/// All 154 contexts, each 2 * pStateIdx + valMps with a state of at most 62.
#[derive(Clone, Copy, Debug)]
pub struct Contexts {
    values: [u8; 154],
}

impl Model for Contexts {
    ghost use Rattle.std.specs.Prelude.{◌≡◌, ℕ, ◌<◌, List, length};
    ghost use Rattle.std.specs.List.{All};

    ghost Value = { List ℕ };

    ghost view = { λ c. c.values };

    ghost inverse = { λ values. record { values = values } };

    ghost invariant = { λ c. (length c.values ≡ 154) × All (λ value. value < 126) c.values };
}

impl Contexts {
    /// The contexts before the first bin of a slice, from SliceQpY and initType (9.3.2.2).
    #[tactic(auto, unfolding(spec_cabac::specs::Contexts::first_contexts))]
    pub fn init(qp: i32, init_type: u32) -> Contexts
        requires { init_type < 3 }
        ensures { result ≡ first_contexts qp init_type }
    {
        Contexts {
            values: initialized(clipped(qp), INIT_VALUES[init_type as usize]),
        }
    }

    /// These contexts.
    pub(crate) fn of(values: [u8; 154]) -> Contexts
        requires { All (λ value. value < 126) values }
        ensures { result ≡ values }
    {
        Contexts { values }
    }

    /// Context `i`.
    #[inline(always)]
    pub(crate) fn get(&self, i: usize) -> u8
        requires { i < 154 }
        ensures value { result ≡ slice_index self.now i }
        ensures small { result < 126 }
    {
        self.values[usize::from(i as u8)]
    }

    /// Context `i`, or 0 past the last.
    pub(crate) fn get_or_zero(&self, i: usize) -> u8
        ensures { result ≡ slice_index self.now i }
    {
        let values = &self.values;
        if i < 154 { values[i] } else { 0 }
    }

    /// Changes context `i`.
    #[inline(always)]
    pub(crate) fn set(&mut self, i: usize, value: u8)
        requires index { i < 154 }
        requires small { value < 126 }
        ensures { self.new ≡ slice_set self.old i value }
    {
        self.values[usize::from(i as u8)] = value;
    }
}

/// The contexts of these initValues.
fn initialized(qp: u32, init_values: [u8; 154]) -> [u8; 154]
    requires { qp ≤ 51 }
    ensures value { result ≡ contexts_of qp init_values }
    ensures small { All (λ context. context < 126) result }
{
    let mut values = [0; 154];
    for i in 0..154 {
        values[i] = initial_context(qp, init_values[i]);
    }
    values
}

/// Clip3(0, 51, SliceQpY).
fn clipped(qp: i32) -> u32
    ensures value { result ≡ mag (clip3 (pos 0) (pos 51) qp) }
    ensures high { result ≤ 51 }
{
    qp.clamp(0, 51) as u32
}
