//! Laws of the definitions.

ghost use Rattle.std.specs.Prelude.{◌≡◌};
ghost use Rattle.spec_drawn_pictures.specs.Shown.{bytes_shown};
ghost use Rattle.command_line.specs.declared.request.MakeOptions.{MakeOptions};
ghost use Rattle.command_line.specs.Making.{decoded_of};
ghost use Rattle.command_line.specs.Summary.{summary_line, summary_of};

use made_drawing_laws::made_streams_decode_as_drawn;

/// The line that sums a made stream up tells of the pictures that are drawn of its seed: how many, how many bytes they
/// are as they are shown, and the MD5 of these.
pub(crate) fn summaries_tell_drawn_pictures()
    ensures { (options : MakeOptions) → summary_of (decoded_of options)
        ≡ summary_line options.pictures (bytes_shown options.seed options.pictures) }
{
    made_streams_decode_as_drawn();
}
