//! How many pictures are decoded together.

ghost use Rattle.std.specs.Prelude.{◌≡◌};
ghost use Rattle.decoder.specs.Together.{most_of_size, most_together};

use header_types::PictureFormat;
use plan_types::PicturePlan;

/// The most luma samples of pictures that are decoded together, but for one picture that has more. It bounds the memory
/// of a board: four pictures of 1920x1080, one of 3840x2160.
const MOST_LUMA_SAMPLES: u64 = 1 << 23;

/// How many of these pictures, which are of one size, are decoded together at most.
pub(crate) fn most_together(pictures: &[PicturePlan]) -> usize
    ensures { result ≡ most_together pictures.now }
{
    match pictures.first() {
        Some(picture) => most_of_size(&picture.sps.fields().format),
        None => 1,
    }
}

/// How many pictures of a format are.
fn most_of_size(format: &PictureFormat) -> usize
    ensures { result ≡ most_of_size format.now }
{
    let across = u64::from(format.pic_width_in_luma_samples);
    let down = u64::from(format.pic_height_in_luma_samples);
    (MOST_LUMA_SAMPLES / (across * down).max(1)).max(1) as usize
}
