//! Laws of what a framer answers.

ghost use Rattle.std.specs.Prelude.{◌≡◌, length};
ghost use Rattle.nal_stream.specs.declared.answer.Next.{Next};
ghost use Rattle.nal_stream.specs.Answers.{told_by};
ghost use Rattle.nal_stream.specs.Framing.{History, IsNext};

/// Two framers that were fed the same bytes, cut in any two ways, and gave as many units gave the same units and answer
/// the same.
pub fn cuts_change_nothing()
    ensures { (g h : History) (m n : Next) → g.fed ≡ h.fed → g.finished ≡ h.finished → length g.given ≡ length h.given
        → IsNext g m → IsNext h n → (g.given ≡ h.given) × (told_by m ≡ told_by n) }
{}
