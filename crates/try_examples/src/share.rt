use counting::Share;
use page::Opening;
use rule::Rule;
use sheet::Sheet;
use word::Edition;

// What a refusal counts.
fn none(number: u64) -> Share {
    Share {
        number,
        quotient: 0,
        remainder: 0,
    }
}

// How many words of 64 bits fit both rules, with the first of them in the lent buffer, as many as it holds.
pub fn share(one: Rule, other: Rule, words: &mut [u64]) -> Share {
    let opening = Opening {
        width: 64,
        edition: Edition::New,
    };
    let opened = Sheet::blank().open(opening);
    let first = opened.sheet.add(Edition::New, one);
    if first.number != 0 {
        return none(first.number);
    }
    let second = first.sheet.add(Edition::New, other);
    if second.number != 0 {
        return none(second.number);
    }
    let sheet = second.sheet;
    listing::list(sheet, 0, &mut *words);
    counting::count(sheet)
}
