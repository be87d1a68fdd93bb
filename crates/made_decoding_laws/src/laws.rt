//! Laws of the definitions.

ghost use Rattle.std.specs.Prelude.{◌≡◌, ℕ, ◌%◌, ◌<◌, Bool, true, List, None, length, map};
ghost use Rattle.std.specs.Prelude.{slice_index_or};
ghost use Rattle.std.specs.List.{concat, range_with_len};
ghost use Rattle.plan_types.specs.declared.picture_plan.PicturePlan.{PicturePlan};
ghost use Rattle.spec_picture_plan.specs.Planned.{planned_of};
ghost use Rattle.spec_picture_build.specs.References.{DecodedPicture};
ghost use Rattle.md5.specs.Md5.{md5};
ghost use Rattle.spec_stated_hashes.specs.Digests.{digest_of};
ghost use Rattle.spec_decoder.specs.declared.form.Form.TheVariants.{I420};
ghost use Rattle.spec_decoder.specs.Decoder.{bytes_of, decoded};
ghost use Rattle.spec_decoder.specs.Output.{OutPicture, bytes_out};
ghost use Rattle.spec_decoder.specs.Hashes.{computed_hash, plane_samples};
ghost use Rattle.spec_made.specs.Stream.{made};
ghost use Rattle.made_laws.specs.Outputs.{shown_at};
ghost use Rattle.made_laws.specs.Streams.{making_at, plan_of};
ghost use Rattle.made_picture_laws.specs.Pictures.{IsDecodedAs, IsDrawn, component_plane};
ghost use Rattle.made_decoding_laws.specs.References.{AreMade, HasReferences, planes_of};
ghost use Rattle.made_decoding_laws.specs.Shown.{AreShown, IsShown, bytes_drawn};
ghost use Rattle.made_decoding_laws.specs.Turns.{AreDrawn, IsDecodedInTurn, numbers_before};

/// Before each picture of the stream of a seed, the samples of both pictures to which others may refer have 8 bits.
pub fn made_samples_are_bytes()
    ensures { (seed j : ℕ) → AreMade (making_at seed j) }
{}

/// Each picture of the stream of a seed, as it is planned from the stream's bytes, is decoded as the picture that is
/// drawn, by every buffer that has the pictures drawn to which it refers at the places that its plan names.
pub fn planned_pictures_are_decoded()
    ensures { (seed pictures j : ℕ) (d : PicturePlan) (buffer : List DecodedPicture) → j < pictures
        → HasReferences (j % 8) (making_at seed j) buffer
        → IsDecodedAs buffer (slice_index_or (planned_of true (made seed pictures)).pictures j d) (planes_of seed j) }
{}

/// The pictures of the stream of a seed, as they are planned, are decoded in turn as they are drawn: nothing stops
/// those before one, and by the buffer that they leave, which has the pictures drawn that their plans keep, it is
/// decoded as the picture drawn (`turn`). So it is by every buffer that has these pictures (`each`).
pub fn made_pictures_are_decoded_in_turn()
    ensures each { (seed j : ℕ) (buffer : List DecodedPicture) → AreDrawn seed (numbers_before seed j) buffer
        → IsDecodedAs buffer (plan_of seed j) (planes_of seed j) }
    ensures turn { (seed j : ℕ) → IsDecodedInTurn seed j }
{}

/// A decoded picture that has the samples drawn of a picture of the stream of a seed, at each place inside it, has its
/// planes, whole and in raster order (`samples`), and so the MD5 that the stream states of each (`hash`).
pub fn made_planes_are_drawn()
    ensures samples { (seed j : ℕ) (picture : DecodedPicture) (c : ℕ) → IsDrawn (planes_of seed j) picture → c < 3
        → plane_samples picture c ≡ component_plane (planes_of seed j) c }
    ensures hash { (seed j : ℕ) (picture : DecodedPicture) (c : ℕ) → IsDrawn (planes_of seed j) picture → c < 3
        → computed_hash picture c ≡ digest_of (md5 (component_plane (planes_of seed j) c)) }
{}

/// Nothing stops the decoding of the stream of a seed, whether hashes are compared or not (`stop`), and as many
/// pictures go out as were asked for (`count`). At each place of the output order goes out the picture that is to be
/// shown there, with the samples that are drawn of it (`shown`).
pub fn made_streams_are_decoded()
    ensures stop { (hash : Bool) (seed pictures : ℕ) → (decoded hash true (made seed pictures)).stop ≡ None }
    ensures count { (hash : Bool) (seed pictures : ℕ)
        → length (decoded hash true (made seed pictures)).pictures ≡ pictures }
    ensures shown { (hash : Bool) (seed pictures : ℕ)
        → AreShown seed (map (shown_at pictures) (range_with_len 0 pictures))
        (decoded hash true (made seed pictures)).pictures }
{}

/// The bytes of a picture that goes out as one of the stream of a seed are the planes drawn (`picture`), and what the
/// decoding of that stream gives as I420 are those of its pictures in output order, one behind the other (`bytes`).
pub fn made_streams_are_written()
    ensures picture { (seed j : ℕ) (out : OutPicture) → IsShown seed j out → bytes_out out ≡ bytes_drawn seed j }
    ensures bytes { (hash : Bool) (seed pictures : ℕ) → bytes_of I420 (decoded hash true (made seed pictures))
        ≡ concat (map (bytes_drawn seed) (map (shown_at pictures) (range_with_len 0 pictures))) }
{}
