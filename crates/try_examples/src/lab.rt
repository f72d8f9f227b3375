use page::Opening;
use rule::Rule;
use sheet::Sheet;
use word::Edition;

// Whether a lab's links show that no word of 4 bits fits both rules.
pub fn shown(one: Rule, other: Rule, links: &[u64]) -> bool {
    let opening = Opening {
        width: 4,
        edition: Edition::New,
    };
    let opened = Sheet::blank().open(opening);
    let first = opened.sheet.add(Edition::New, one);
    if first.number != 0 {
        return false;
    }
    let second = first.sheet.add(Edition::New, other);
    if second.number != 0 {
        return false;
    }
    let sheet = second.sheet;
    checker::accepts(sheet, links)
}
