// Whether head, rows and marks are a sheet at all, what is kept aside.
ghost use Rattle.std.specs.Prelude.{◌≡◌, ◌&&◌, leb};
ghost use Rattle.word.specs.Edition.{terms};
ghost use Rattle.search.specs.rows.route.Rows.{rules_in};
ghost use Rattle.sheet.specs.slate.route.Held.{Room};
ghost use Rattle.sheet.specs.slate.route.Shape.{stands_so, well_shaped};

use crate::slate::Head;
use page::MARKS;
use rule::Rule;
use search::rows::NUMBERS;
use search::verdict::Kept;
use word::{Edition, Width};

// Whether the record is blank, its width being 0.
#[tactic(auto, using(crate::proofs::slate::SearchSlateShapeBlank::wanted), unfolding(crate::specs::slate::route::Shape::stands_so, crate::specs::slate::route::Shape::same_kept))]
pub fn blank(head: Head, rows: &[[u64; NUMBERS]; Rule::LIMIT], marks: &[usize; MARKS]) -> bool
    requires width_value { head.opening.width ≡ 0 }
    requires room { Room rows.now marks.now }
    ensures { result ≡ stands_so head (rules_in rows.now) marks.now }
{
    let edition = head.opening.edition;
    if !edition.same(Edition::Old) {
        return false;
    }
    if head.counts.given != 0 {
        return false;
    }
    if head.counts.marked != 0 {
        return false;
    }
    if head.counts.waiting != 0 {
        return false;
    }
    if head.counts.count != 0 {
        return false;
    }
    if !search::laying::none_from(rows, 0) {
        return false;
    }
    if !crate::marks::all_zero(marks, 0) {
        return false;
    }
    let nothing = Kept {
        verdict: 0,
        smallest: 0,
        largest: 0,
    };
    head.kept == nothing
}

// Whether a record whose width is not 0 has a width of its edition, rules and marks as a sheet may have them.
#[tactic(auto, using(crate::proofs::slate::SearchSlateShapeShaped::wanted), unfolding(page::specs::route::Shape::rules_shaped, crate::specs::slate::route::Shape::well_shaped))]
pub fn shaped(head: Head, rows: &[[u64; NUMBERS]; Rule::LIMIT], marks: &[usize; MARKS]) -> bool
    requires fact { head.opening.width ≡ 0 → ⊥ }
    requires room { Room rows.now marks.now }
    ensures { result ≡ (well_shaped head (rules_in rows.now) marks.now && leb head.opening.width (terms head.opening.edition).widest) }
{
    let width = head.opening.width;
    let edition = head.opening.edition;
    let count = head.counts.count;
    let given = head.counts.given;
    let marked = head.counts.marked;
    let waiting = head.counts.waiting;
    if Rule::LIMIT < given {
        return false;
    }
    if MARKS < marked {
        return false;
    }
    if MARKS - marked < waiting {
        return false;
    }
    if count != crate::slate::in_force(given, marks, marked, waiting) {
        return false;
    }
    if edition.terms().widest < width {
        return false;
    }
    if !search::laying::all_acceptable(rows, given, Width { bits: width }) {
        return false;
    }
    if !search::laying::none_from(rows, given) {
        return false;
    }
    crate::marks::marked_so(marks, marked + waiting, given)
}
