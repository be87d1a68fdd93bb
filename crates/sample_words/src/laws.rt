//! What follows from the definitions.

ghost use Rattle.std.specs.Prelude.{◌≡◌, ◌+◌, ◌≤◌, ◌<◌, ◌^◌, ℕ};
ghost use Rattle.hv_base.specs.declared.line.Line.{Line};
ghost use Rattle.sample_words.specs.declared.sizes.FlightSizes.{FlightSizes};
ghost use Rattle.sample_words.specs.declared.unit_word.UnitWord.{UnitWord};
ghost use Rattle.sample_words.specs.declared.unit_word.WordOwner.TheVariants.{Count, Ticket, Fault, Unit};
ghost use Rattle.spec_motion.specs.CtuRecords.{Sao};
ghost use Rattle.spec_motion.specs.declared.vectors.Motion.{Motion};
ghost use Rattle.sample_words.specs.declared.modes.PlaceModes.{PlaceModes};
ghost use Rattle.sample_words.specs.declared.unit_content.UnitContent.{UnitContent};
ghost use Rattle.sample_words.specs.Contents.{IsContent, IsContentOf, content_at, index_of};
ghost use Rattle.sample_words.specs.Offsets.{IsSao, first_word, sao_in, second_word};
ghost use Rattle.sample_words.specs.Packing.{lane};
ghost use Rattle.sample_words.specs.Sizes.{IsFlight, carry_words, common_words, context_words, samples_a_word};
ghost use Rattle.sample_words.specs.Values.{IsModes, IsMotion, modes_in, modes_word, motion_in, sample_bits};
ghost use Rattle.sample_words.specs.Values.{samples_word, vectors_word};
ghost use Rattle.sample_words.specs.Words.{IsLine, IsOwned, IsUnitWord, count_word, fault_word, first_unit_word};
ghost use Rattle.sample_words.specs.Words.{owner, ticket_word, word_of, words};

/// Each word belongs to one unit, or is the count of one line, the ticket, the least fault, or spare: it stands where
/// its owner has it, and what stands there belongs to that owner alone. All stand below the number of words, those of
/// units behind the others.
pub fn each_word_has_one_owner()
    ensures found { (s : FlightSizes) (word : ℕ) → IsFlight s → word < words s → IsOwned s word (owner s word) }
    ensures units { (s : FlightSizes) (u : UnitWord) → IsFlight s → IsUnitWord s u
        → owner s (word_of s u) ≡ Unit u }
    ensures behind { (s : FlightSizes) (u : UnitWord) → IsFlight s → IsUnitWord s u → first_unit_word s ≤ word_of s u }
    ensures below { (s : FlightSizes) (u : UnitWord) → IsFlight s → IsUnitWord s u → word_of s u < words s }
    ensures counts { (s : FlightSizes) (l : Line) → IsLine s l → owner s (count_word s l) ≡ Count l }
    ensures ticket { (s : FlightSizes) → owner s (ticket_word s) ≡ Ticket }
    ensures fault { (s : FlightSizes) → owner s (fault_word s) ≡ Fault }
{}

/// Each word of a unit has one content, and stands where that has it; each content has one word. Of a unit of so many
/// luma samples across and down, in a column of coding tree units.
pub fn each_content_has_one_word()
    ensures found { (s : FlightSizes) (width height column index : ℕ)
        → index < common_words s width height + (context_words column + carry_words s column)
        → IsContentOf s width height column index (content_at s width height column index) }
    ensures only { (s : FlightSizes) (width height column : ℕ) (content : UnitContent)
        → IsContent s width height column content
        → content_at s width height column (index_of s width height column content) ≡ content }
{}

/// A flight has fewer than 2^50 words.
pub fn words_are_few()
    ensures { (s : FlightSizes) → IsFlight s → words s < 2 ^ 50 }
{}

/// Samples that fit are taken out of their word as they were put in.
pub fn samples_are_unpacked()
    ensures { (s : FlightSizes) (f : ℕ → ℕ) (j : ℕ) → ((k : ℕ) → f k < 2 ^ sample_bits s) → j < samples_a_word s
        → lane (sample_bits s) (samples_word s f) j ≡ f j }
{}

/// The motion and the modes of a place are taken out of its two words as they were put in.
pub fn motion_is_unpacked()
    ensures motion { (p : PlaceModes) (m : Motion) → IsModes p → IsMotion m
        → motion_in (vectors_word m) (modes_word p m) ≡ m }
    ensures modes { (p : PlaceModes) (m : Motion) → IsModes p → IsMotion m → modes_in (modes_word p m) ≡ p }
{}

/// So is sample adaptive offset of a unit out of its two words.
pub fn offsets_are_unpacked()
    ensures { (sao : Sao) → IsSao sao → sao_in (first_word sao) (second_word sao) ≡ sao }
{}
