// Sheets to try the calls on, and what calls leave of them.
use page::Opening;
use rule::Rule;
use sheet::Sheet;
use trial::trial_direct::cases;
use word::Edition;

/// The rule of the paper's case 2, which the words from 11 to 14 meet at width 4.
pub fn case2() -> Rule {
    cases::rule_at(cases::at(cases::CASE2).rules, 0)
}

/// The edition that is not the one.
pub fn other(edition: Edition) -> Edition {
    match edition {
        Edition::Old => Edition::New,
        Edition::New => Edition::Old,
    }
}

/// A sheet that is just opened, in the old edition.
pub fn opened(width: u64) -> Sheet {
    opened_in(width, Edition::Old)
}

/// The same in any edition.
pub fn opened_in(width: u64, edition: Edition) -> Sheet {
    Sheet::blank().open(Opening { width, edition }).sheet
}

/// The sheet that is left by adding a rule, in the edition that the sheet has.
pub fn added(sheet: Sheet, rule: Rule) -> Sheet {
    sheet.add(sheet.edition, rule).sheet
}

/// The sheet that is left by setting a mark.
pub fn marked(sheet: Sheet) -> Sheet {
    sheet.mark().sheet
}

/// The sheet that is left by going back.
pub fn gone_back(sheet: Sheet) -> Sheet {
    sheet.back().sheet
}

/// The sheet that is left by going forward.
pub fn gone_forward(sheet: Sheet) -> Sheet {
    sheet.forward().sheet
}

/// The sheet with n rules more.
pub fn filled(sheet: Sheet, n: usize) -> Sheet {
    (0..n).fold(sheet, |more, _| added(more, case2()))
}

/// A sheet with no place free.
pub fn full(edition: Edition) -> Sheet {
    filled(opened_in(4, edition), Rule::LIMIT)
}

/// A sheet on which no further mark may be set.
pub fn all_marks(edition: Edition) -> Sheet {
    (0..Sheet::MARKS).fold(opened_in(4, edition), |more, _| marked(more))
}
