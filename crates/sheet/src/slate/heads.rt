// A head made, and changed.
ghost use Rattle.std.specs.Prelude.{◌≡◌};
ghost use Rattle.sheet.specs.slate.route.Held.{found_to, head_of};

use crate::slate::{Counts, Head};
use page::Opening;
use rule::bits::Fixed;
use search::verdict::Kept;

impl Head {
    // The head of a sheet.
    pub fn of(opening: Opening, counts: Counts, kept: Kept, fixed: Fixed) -> Head
        ensures { result ≡ head_of opening counts kept fixed }
    {
        Head {
            stands: true,
            opening,
            counts,
            kept,
            fixed,
        }
    }

    // The head with another word on whether all this is a sheet, and other bits.
    pub fn found(self, stands: bool, fixed: Fixed) -> Head
        ensures { result ≡ found_to self stands fixed }
    {
        Head {
            stands,
            opening: self.opening,
            counts: self.counts,
            kept: self.kept,
            fixed,
        }
    }
}
