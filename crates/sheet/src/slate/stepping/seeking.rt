// What is kept of the first rules in the rows: as it is noted, or found anew.
ghost use Rattle.search.specs.rows.route.Rows.{rules_in};
ghost use Rattle.sheet.specs.slate.route.Notes.{Noted};
ghost use Rattle.sheet.specs.slate.stepping.route.Found.{Sought};

use crate::slate::Note;
use rule::Rule;
use search::rows::{InForce, NUMBERS};
use search::verdict::Kept;
use word::Width;

// What is kept of the first n rules, and the bits that they fix. Where no note says it, the search starts at the ends of what was kept
// before.
pub fn find(rows: &[[u64; NUMBERS]; Rule::LIMIT], n: usize, width: Width, before: Kept) -> Note
    requires { Sought width.bits n rows.now before }
    ensures { Noted width.bits n (rules_in rows.now) result }
{
    let note = crate::slate::note_at(rows, n, width);
    if note.known {
        return note;
    }
    let fixed = search::laying::bits_of(rows, n);
    let force = InForce {
        count: n,
        fixed,
        width,
    };
    let kept = search::verdict::laid::narrowed(rows, force, before);
    Note {
        known: true,
        kept,
        fixed,
    }
}
