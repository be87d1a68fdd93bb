//! What the end of a row of coding tree units carries on to the next row, where the rows have no substreams of their
//! own.

ghost use Rattle.std.specs.Prelude.{◌≡◌, ℕ, ◌+◌, ◌<◌, slice_index};
ghost use Rattle.sample_words.specs.Carried.{carried_word};

/// What stands between the last unit of a row and the first one of the next, where both are of one substream.
#[derive(Clone, Copy)]
pub struct Carry {
    /// ivlCurrRange, ivlOffset, and how many bits are left (9.3.4.3).
    pub state: [u64; 3],
    /// The contexts, eight a word.
    pub contexts: [u64; 20],
    /// Qp'Y of the last coding unit.
    pub last: u8,
}

impl Carry {
    /// Word `k` of what is carried.
    pub fn word(&self, k: usize) -> u64
        requires { k < 24 }
        ensures { result ≡ carried_word self.now k }
    {
        if k < 3 {
            self.state[k]
        } else if k < 23 {
            self.contexts[k - 3]
        } else {
            u64::from(self.last)
        }
    }

    /// What such words carry.
    pub fn of_words(words: &[u64; 24]) -> Carry
        requires { slice_index words.now 23 < 256 }
        ensures { (k : ℕ) → k < 24 → carried_word result k ≡ slice_index words.now k }
    {
        Carry {
            state: [words[0], words[1], words[2]],
            contexts: contexts_in(words),
            last: words[23] as u8,
        }
    }
}

/// The words of the contexts.
fn contexts_in(words: &[u64; 24]) -> [u64; 20]
    ensures { (k : ℕ) → k < 20 → slice_index result k ≡ slice_index words.now (3 + k) }
{
    let mut contexts = [0; 20];
    for k in 0..20 {
        contexts[k] = words[3 + k];
    }
    contexts
}
