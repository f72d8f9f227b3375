// What refuses a join.

ghost use Rattle.std.specs.Prelude.{◌≡◌, IfOk};
ghost use Rattle.span.specs.Join.{all_within, is_width, refused};
ghost use Rattle.span.specs.refusal.Refusal.{number_of, told};

use crate::any_hollow;
use crate::interval::Interval;
use word::Width;

/// Why a join is refused: its width, a bound above the top word, or an interval with its low end above its high end.
#[derive(Clone, Copy, Debug, PartialEq, Eq)]
pub enum Refusal {
    Width,
    Bound,
    Order,
}

impl Refusal {
    /// The number of the refusal.
    #[tactic(auto, unfolding(crate::specs::refusal::Refusal::number_of))]
    pub fn number(self) -> u64
        ensures { result ≡ number_of self }
    {
        match self {
            Refusal::Width => 2,
            Refusal::Bound => 5,
            Refusal::Order => 15,
        }
    }
}

// The width, where neither it nor the intervals are refused.
#[tactic(auto, using(crate::proofs::SearchRefused::wanted), unfolding(crate::specs::Join::refused, crate::specs::refusal::Refusal::number_of, crate::specs::refusal::Refusal::told))]
pub(crate) fn accepted(width: u64, h: Interval, x: Interval, y: Interval) -> Result<Width, Refusal>
    ensures number { told result ≡ refused width h x y }
    ensures bits { IfOk result (λ bits. bits.bits ≡ width) }
{
    if !is_width(width) {
        return Err(Refusal::Width);
    }
    let bits = Width { bits: width };
    let unfit = !all_words(bits.top(), h, x, y);
    let reversed = any_hollow(h, x, y);
    if unfit {
        return Err(Refusal::Bound);
    }
    if reversed {
        return Err(Refusal::Order);
    }
    Ok(bits)
}

/// Whether it is a width from 1 to 64.
#[tactic(auto, using(crate::proofs::SearchIsWidth::wanted), unfolding(crate::specs::Join::is_width))]
pub fn is_width(width: u64) -> bool
    ensures { result ≡ is_width width }
{
    (1..=Width::LIMIT).contains(&width)
}

// Whether no bound is above the top word.
#[tactic(auto, unfolding(crate::specs::Join::all_within))]
fn all_words(top: u64, h: Interval, x: Interval, y: Interval) -> bool
    ensures { result ≡ all_within top h x y }
{
    h.within(top) && x.within(top) && y.within(top)
}
