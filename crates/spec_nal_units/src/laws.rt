//! Laws of the definitions.

ghost use Rattle.std.specs.Prelude.{◌≡◌, ℕ, Bool, false, List, ◌++◌};
ghost use Rattle.spec_nal_units.specs.Judged.{Told, told_of};
ghost use Rattle.spec_nal_units.specs.ByteStream.{AtLeastBehindZeros, IsNalUnit, IsByteStream, IsSplitInto};
ghost use Rattle.spec_nal_units.specs.Escaped.{unit_with, IsWritable, IsReadBack};
ghost use Rattle.spec_nal_units.specs.Closed.{HasNoUnit, StaysWhenClosed};

/// What the front of an input is told as begins what the whole input is told as, however it goes on.
pub fn whole_units_stay()
    ensures { (front : List ℕ) (rest : List ℕ) (ended : Bool)
        → (later : List Told) × (told_of ended (front ++ rest) ≡ told_of false front ++ later) }
{}

/// What is written of a payload, with emulation prevention, reads back as the payload, and 00 00 00, 00 00 01 and
/// 00 00 02 stand nowhere in the unit, its header's two bytes among them (7.3.1.1, 7.4.2).
pub fn escaped_units_read_back()
    ensures same { (first second : ℕ) (payload : List ℕ) → IsWritable second payload → IsReadBack first second payload }
    ensures clean { (first second : ℕ) (payload : List ℕ) → AtLeastBehindZeros 3 (unit_with first second payload) }
    ensures unit { (first second : ℕ) (payload : List ℕ) → IsNalUnit (unit_with first second payload) }
{}

/// A byte stream, as the grammar has it, is split into its units with no stray byte, and what is split so is a byte
/// stream of these units (B.2).
pub fn streams_split_as_written()
    ensures found { (bytes : List ℕ) (units : List (List ℕ)) → IsByteStream bytes units → IsSplitInto bytes units }
    ensures only { (bytes : List ℕ) (units : List (List ℕ)) → IsSplitInto bytes units → IsByteStream bytes units }
{}

/// What a front is told as when the input ends there is told of it once a start code stands behind it, however the
/// input goes on, but for the fault of an input without any unit.
pub fn start_codes_end_units()
    ensures { (front : List ℕ) (rest : List ℕ) → ¬ HasNoUnit front → StaysWhenClosed front rest }
{}
