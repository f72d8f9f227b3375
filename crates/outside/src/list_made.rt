// The sheet that a list of rules in numbers makes. Each call that asks it matches on this by itself: one function for all, which took
// the asking as a closure, would be handed the answer's zeros too, and be no plainer.

ghost use Rattle.std.specs.Prelude.{◌≡◌};
ghost use Rattle.outside.specs.handing.Handed.{opening_of, rules_in};
ghost use Rattle.outside.specs.making.Made.{given, makes};

use crate::handing::{NUMBERS, opening};
use crate::making::{Refused, make};
use sheet::Sheet;

/// What a list makes of a fresh sheet.
pub fn made_of(width: u64, edition: u64, rules: &[[u64; NUMBERS]]) -> Result<Sheet, Refused>
    ensures { result ≡ given (makes (opening_of width edition) (rules_in rules.now)) }
{
    make(opening(width, edition), rules)
}
