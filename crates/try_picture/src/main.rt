// Draws sheets: a row for each rule in force, and one for all of them. What it prints is foretold by tests/models/try_picture.py, which looks at every word
// of each column. The last sheet is the one before it with another rule kept in its first place, which is no sheet, and so nothing is drawn.
#![tactic(auto)]

use page::Opening;
use picture::column::COLUMNS;
use picture::shade::Cell;
use rule::Rule;
use sheet::Sheet;
use word::Edition;

const STDOUT: i32 = 1;

// One column more than a picture has.
const PAST: u64 = COLUMNS + 1;

fn main() {
    let sums = rule(3, 0, 5, 3);
    let bits = rule(7, 0, 12, 4);
    draw(added(added(opened(4), sums), bits));
    draw(added(opened(1), rule(6, 1, 1, 0)));
    draw(added(added(opened(5), rule(5, 0, 30, 0)), rule(4, 1, 3, 0)));
    draw(added(added(opened(6), rule(1, 0, 9, 40)), rule(7, 0, 33, 1)));
    draw(added(
        added(opened(8), rule(2, 1, 77, 200)),
        rule(7, 0, 0xc0, 0x40),
    ));
    let viewing = added(opened(12), rule(7, 0, 0x800, 0x800));
    let unsettled = added(viewing, rule(8, 1, 0xff0, 30));
    draw(added(unsettled, rule(3, 0, 0, 2100)));
    draw(changed(unsettled));
}

// A row for each rule, a row for all, and a line that ends the sheet.
fn draw(sheet: Sheet) {
    rule_rows(sheet);
    all_row(sheet);
    io::write_all(STDOUT, b"-\n");
}

fn rule_rows(sheet: Sheet) {
    for number in 0..Rule::LIMIT {
        if number < sheet.count {
            rule_row(sheet, number);
        }
    }
}

fn rule_row(sheet: Sheet, number: usize) {
    for column in 0..PAST {
        tell(picture::rule_cells::rule_at(sheet, number, column));
    }
    io::write_all(STDOUT, b"\n");
}

fn all_row(sheet: Sheet) {
    for column in 0..PAST {
        tell(picture::all_cells::all_at(sheet, column));
    }
    io::write_all(STDOUT, b"\n");
}

// Nothing past the last column.
fn tell(cell: Cell) {
    match cell {
        Cell::Fails => said(b'#'),
        Cell::Meets => said(b'.'),
        Cell::Partly => said(b'+'),
        Cell::Nowhere => (),
    }
}

fn said(letter: u8) {
    let letters = [letter];
    io::write_all(STDOUT, &letters);
}

fn opened(width: u64) -> Sheet {
    let answer = Sheet::blank().open(Opening {
        width,
        edition: Edition::New,
    });
    answer.sheet
}

fn added(sheet: Sheet, rule: Rule) -> Sheet {
    let answer = sheet.add(Edition::New, rule);
    answer.sheet
}

fn changed(sheet: Sheet) -> Sheet {
    let mut other = sheet;
    other.rules[0] = rule(3, 0, 0, 9);
    other
}

fn rule(form: u64, sense: u64, c1: u64, c2: u64) -> Rule {
    Rule {
        form,
        sense,
        c1,
        c2,
    }
}
