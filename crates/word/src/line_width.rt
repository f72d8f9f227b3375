// The width at which a line is read.

ghost use Rattle.std.specs.Prelude.{◌≡◌};
ghost use Rattle.word.specs.Word.{IsWidth};
ghost use Rattle.word.specs.line_width.Width.{reading_at};

use crate::Width;

// That of the open sheet; the widest where none is open.
#[tactic(auto, using(crate::proofs::line_width::SearchWidthOf::wanted), unfolding(crate::specs::line_width::Width::reading_at))]
pub fn width_of(width: u64) -> Width
    ensures { (result.bits ≡ reading_at width) × IsWidth result.bits }
{
    if width < 1 {
        return Width { bits: 64 };
    }
    if 64 < width {
        return Width { bits: 64 };
    }
    Width { bits: width }
}
