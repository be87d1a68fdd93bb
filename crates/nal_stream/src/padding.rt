//! The bytes between units (B.2).

ghost use Rattle.std.specs.Prelude.{◌≡◌, ℕ, ◌+◌, ◌<◌, ◌≤◌, Bool, List, ◌∷◌, ◌++◌, length, drop};
ghost use Rattle.spec_nal_units.specs.Units.{Padding, parts};
ghost use Rattle.nal_stream.specs.Skips.{parts_behind};
ghost use Rattle.nal_stream.specs.declared.padding.Behind.TheVariants.{Nothing};

/// What stands behind padding.
#[derive(Clone, Copy, Debug, PartialEq, Eq)]
pub enum Behind {
    /// A start code, and then a unit.
    Start,
    /// A byte that may not stand there.
    Stray,
    /// No byte yet.
    Nothing,
}

/// Padding that was passed over.
#[derive(Clone, Copy, Debug)]
pub struct Skipped {
    /// How many bytes were passed, the last of a start code or a stray byte among them.
    pub taken: usize,
    /// How many zero bytes stand right before what follows, at most two.
    pub zeros: u8,
    /// What stands behind.
    pub behind: Behind,
}

/// Passes over padding that stands behind so many zero bytes, at most two.
pub fn skip_padding(bytes: &[u8], zeros: u8) -> Skipped
    requires { zeros ≤ 2 }
    ensures value { (ended : Bool) (rest : List ℕ)
        → parts ended (Padding zeros) (bytes.now ++ rest)
        ≡ parts_behind result.behind ended result.zeros (drop result.taken bytes.now ++ rest) }
    ensures taken { result.taken ≤ length bytes.now }
    ensures few { result.zeros ≤ 2 }
    ensures all { result.behind ≡ Nothing → result.taken ≡ length bytes.now }
{
    let mut before = zeros;
    for i in 0..bytes.len() {
        if bytes[i] != 0 {
            return Skipped {
                taken: i + 1,
                zeros: 0,
                behind: kind_of(bytes[i], before),
            };
        }
        before = (before + 1).min(2);
    }
    Skipped {
        taken: bytes.len(),
        zeros: before,
        behind: Behind::Nothing,
    }
}

/// What a byte other than 00 is, behind so many zero bytes.
fn kind_of(byte: u8, zeros: u8) -> Behind
    requires { byte ≡ 0 → ⊥ }
    ensures value { (ended : Bool) (bytes : List ℕ)
        → parts ended (Padding zeros) (byte ∷ bytes) ≡ parts_behind result ended 0 bytes }
    ensures some { result ≡ Nothing → ⊥ }
{
    if byte == 1 && zeros >= 2 {
        Behind::Start
    } else {
        Behind::Stray
    }
}
