//! Sides and lines of components.

ghost use Rattle.std.specs.Prelude.{◌≡◌, ◌≤◌};
ghost use Rattle.sample_lines.specs.LocalityLaws.{luma_line};
ghost use Rattle.sample_words.specs.Contents.{component_side};

/// A component's side, by that of luma.
#[inline(always)]
pub(crate) fn component_side(c: usize, side: u32) -> u32
    ensures { result ≡ component_side c side }
{
    if c == 0 { side } else { side / 2 }
}

/// The luma line in which a line of a component begins.
#[inline(always)]
pub(crate) fn luma_line(c: usize, line: u32) -> u32
    requires { line ≤ 8192 }
    ensures { result ≡ luma_line c line }
{
    if c == 0 { line } else { 2 * line }
}
