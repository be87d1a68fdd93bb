//! The picture that goes out next (C.5.2.4).

ghost use Rattle.std.specs.Prelude.{◌≡◌, ◌+◌, ◌^◌, ◌<◌, IfSome, length};
ghost use Rattle.spec_output_order.specs.OutputOrder.{next_output, sooner};

use header_types::DpbPicture;
use spec_output_order::NextOutput;

/// The picture that goes out next: of those that are needed for output the one of the least order count, of equal ones
/// the one decoded first.
pub(crate) fn next_output(pictures: &[DpbPicture]) -> Option<NextOutput>
    ensures value { result ≡ next_output pictures.now }
    ensures inside { IfSome result (λ n. n.place < length pictures.now) }
{
    match pictures {
        [] => None,
        [first, rest @ ..] => sooner(first, next_output(rest)),
    }
}

/// The sooner of a picture at place 0 and one of those behind it, whose places count from 0.
fn sooner(picture: &DpbPicture, next: Option<NextOutput>) -> Option<NextOutput>
    requires small { IfSome next (λ n. n.place + 1 < 2 ^ 64) }
    ensures value { result ≡ sooner picture.now next }
{
    let first = NextOutput {
        place: 0,
        poc: picture.poc,
    };
    match next {
        None if picture.needed_for_output => Some(first),
        None => None,
        Some(next) if picture.needed_for_output && picture.poc <= next.poc => Some(first),
        Some(next) => Some(NextOutput {
            place: next.place + 1,
            poc: next.poc,
        }),
    }
}
