//! What goes on from row to row, out of words.

ghost use Rattle.std.specs.Prelude.{◌≡◌, ℕ, ◌^◌, ◌<◌, List, length, slice_index};
ghost use Rattle.std.specs.List.{All};
ghost use Rattle.unit_trees.specs.CabacContexts.{packed, unpacked};
ghost use Rattle.sample_words.specs.Carried.{carried_word};
ghost use Rattle.sample_words.specs.declared.carry.Carry.{Carry};
ghost use Rattle.unit_trees.specs.SpecCabac.{IsLive};
ghost use Rattle.unit_trees.specs.declared.units.UnitReader.{UnitReader};
ghost use Rattle.unit_words.specs.Above.{AreContexts, AreOfCarry, MayResume, ReadsOn};
ghost use Rattle.unit_words.specs.Work.{carry_behind};

use sample_words::Carry;
use unit_trees::{BinReader, Contexts, Interval, UnitReader};

/// The contexts behind the second unit of a row.
pub fn unpack_contexts(words: [u64; 20]) -> Contexts
    requires { All (λ value. value < 126) (unpacked words) }
    ensures { (contexts : List ℕ) → AreContexts contexts → words ≡ packed contexts → result ≡ contexts }
{
    Contexts::unpack(words)
}

/// What the last unit of a row carries on.
pub fn unpack_carry(words: &[u64; 24]) -> Carry
    requires { slice_index words.now 23 < 256 }
    ensures { (carry : Carry) → AreOfCarry words.now carry → result ≡ carry }
{
    let carry = Carry::of_words(words);
    counted(carry.state, carry.contexts, carry.last)
}

/// What is carried on, of a state of three words and contexts of twenty.
#[inline(always)]
fn counted(state: [u64; 3], contexts: [u64; 20], last: u8) -> Carry
    ensures value { result ≡ record { state = state; contexts = contexts; last = last } }
    ensures three { length state ≡ 3 }
    ensures twenty { length contexts ≡ 20 }
{
    Carry {
        state,
        contexts,
        last,
    }
}

/// The reader that goes on from what the last unit of a row carries on, over the bytes of its substream.
pub fn resume_reader<'a>(bytes: &'a [u8], carry: &Carry) -> UnitReader<'a>
    requires size { length bytes.now < 2 ^ 60 }
    requires carry { MayResume bytes.now carry.now }
    ensures value { (reader : UnitReader) → ReadsOn bytes.now reader → carry.now ≡ carry_behind reader
        → result ≡ reader }
    ensures live { IsLive result.bins.interval }
{
    UnitReader {
        bins: BinReader {
            interval: Interval::resume(bytes, carry.state),
            contexts: Contexts::unpack(carry.contexts),
        },
        last: carry.last,
    }
}

/// What a reader of which bins may be asked carries on may be gone on with, and its words are those of what it carries.
pub fn readers_may_be_resumed()
    ensures resumed { (bytes : List ℕ) (reader : UnitReader) → ReadsOn bytes reader
        → MayResume bytes (carry_behind reader) }
    ensures words { (words : List ℕ) (reader : UnitReader)
        → ((k : ℕ) → k < 24 → slice_index words k ≡ carried_word (carry_behind reader) k)
        → AreOfCarry words (carry_behind reader) }
{}
