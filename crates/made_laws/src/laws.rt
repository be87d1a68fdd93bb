//! Laws of the definitions.

ghost use Rattle.std.specs.Prelude.{◌≡◌, ℕ, ◌+◌, ◌*◌, ◌%◌, ◌==◌, ◌<◌, ◌≤◌, ◌∷◌, ◌++◌, [], length, map, true, None, Ok};
ghost use Rattle.std.specs.List.{range_with_len};
ghost use Rattle.spec_made.specs.Headers.{offset_of, picture_payload, sequence_payload};
ghost use Rattle.spec_made.specs.Stream.{Making, made};
ghost use Rattle.spec_nal_units.specs.ByteStream.{IsSplitInto};
ghost use Rattle.spec_nal_units.specs.Escaped.{escaped, unit_with};
ghost use Rattle.spec_nal_units.specs.Judged.{Whole, told_of};
ghost use Rattle.spec_parameter_sets.specs.PictureParameterSet.{picture_parameter_set_of};
ghost use Rattle.spec_parameter_sets.specs.SequenceParameterSet.{sequence_parameter_set_of};
ghost use Rattle.spec_picture_plan.specs.Planned.{planned_of};
ghost use Rattle.spec_slice_headers.specs.SegmentHeader.{slice_header_of};
ghost use Rattle.spec_slice_headers.specs.Substreams.{bytes_of as bytes_of_range, substream_ranges, substreams};
ghost use Rattle.made_laws.specs.Formers.{context_at};
ghost use Rattle.made_laws.specs.Headers.{made_header, order_at, type_at};
ghost use Rattle.made_laws.specs.Outputs.{IsBefore, output_numbers, shown_at};
ghost use Rattle.made_laws.specs.Sets.{made_pps, made_sps};
ghost use Rattle.made_laws.specs.Streams.{bytes_of, last_out, made_plans, made_units, payload_of, picture_at, slice_at};

/// The payloads of both parameter sets are read as the sets that are made (`sequence`, `picture`). So is the slice
/// segment header of the picture of number `j`, behind those before it, whatever is drawn (`slice`).
pub fn made_headers_read_back()
    ensures sequence { sequence_parameter_set_of sequence_payload ≡ Ok made_sps }
    ensures picture { picture_parameter_set_of picture_payload ≡ Ok made_pps }
    ensures slice { (j nal : ℕ) (m : Making)
        → slice_header_of (context_at (j == 0) (j % 8) nal) (slice_at (j % 8) m).payload
        ≡ Ok (made_header (type_at (j % 8)) (order_at (j % 8)) nal (slice_at (j % 8) m).entry_points
        (slice_at (j % 8) m).data_place) }
{}

/// The entry points of a picture cut its slice segment data into its rows (`rows`, and `ranges` by places). Each is how
/// many bytes of the unit its row has, and fits its field (`offsets`).
pub fn made_entry_points_cut()
    ensures rows { (g : ℕ) (m : Making)
        → substreams (slice_at g m).payload (slice_at g m).removed (slice_at g m).data_place (slice_at g m).entry_points
        ≡ map (picture_at g m).row (range_with_len 0 6) }
    ensures ranges { (g : ℕ) (m : Making)
        → map (bytes_of_range (slice_at g m).payload)
        (substream_ranges (slice_at g m).payload (slice_at g m).removed (slice_at g m).data_place
        (slice_at g m).entry_points)
        ≡ map (picture_at g m).row (range_with_len 0 6) }
    ensures offsets { (g r : ℕ) (m : Making)
        → offset_of ((picture_at g m).row r) + 1 ≡ length (escaped 1 1 ((picture_at g m).row r)) }
{}

/// The stream of a seed is split into its units, with no stray byte (`split`); each is told whole, as what is drawn of
/// it, and breaks no rule of framing and meets no limit (`told`). A row has at most 10,000 bytes (`rows`), and the unit
/// of a slice at most 2^26 (`small`).
pub fn made_streams_split()
    ensures split { (seed pictures : ℕ)
        → IsSplitInto (made seed pictures) (map bytes_of (made_units seed pictures)) }
    ensures told { (seed pictures : ℕ) → told_of true (made seed pictures) ≡ map Whole (made_units seed pictures) }
    ensures rows { (g r : ℕ) (m : Making) → length ((picture_at g m).row r) ≤ 10000 }
    ensures small { (first g : ℕ) (m : Making)
        → length (unit_with first 1 (payload_of (picture_at g m))) ≤ 67108864 }
{}

/// The plan of the stream of a seed is the pictures that are drawn, in their order, with their headers, order counts,
/// references and payloads, and with the MD5 of their planes as the hashes that are stated for them; nothing stops it,
/// and the pictures that wait go out at the end (`plan`). They are as many as were asked for (`count`).
pub fn made_streams_hold_their_pictures()
    ensures plan { (seed pictures : ℕ) → planned_of true (made seed pictures)
        ≡ record { pictures = made_plans seed pictures; last = last_out pictures; stop = None } }
    ensures count { (seed pictures : ℕ) → length (made_plans seed pictures) ≡ pictures }
{}

/// The pictures of the stream of a seed go out by groups and, in each group, by order count: at each place the picture
/// that is to be shown there (`order`). It is one of the stream (`inside`), and shown at no other place, since
/// `shown_at` is its own inverse (`once`). It is of a later group than the one before, or of the same group and of a
/// greater order count (`rising`).
pub fn made_pictures_go_out_in_order()
    ensures order { (seed pictures : ℕ) → output_numbers (planned_of true (made seed pictures))
        ≡ map (shown_at pictures) (range_with_len 0 pictures) }
    ensures inside { (pictures place : ℕ) → place < pictures → shown_at pictures place < pictures }
    ensures once { (pictures place : ℕ) → place < pictures
        → shown_at pictures (shown_at pictures place) ≡ place }
    ensures rising { (pictures place : ℕ) → place + 1 < pictures
        → IsBefore (shown_at pictures place) (shown_at pictures (place + 1)) }
{}
