// Writes sheets for other tools: the eight forms as written and, but for form 7, negated, at each of some widths, as frames and in SMT-LIB.
// What is written is foretold by tests/models/try_outward.py, from the papers and the standard; tests/smt holds both texts to the desk and Z3.
#![tactic(auto)]

use page::Opening;
use rule::Rule;
use sheet::Sheet;
use std::io::Result;
use word::Edition;

fn main(rt: HostRuntime) -> Result<()> {
    tell(&rt, forms(4, 5, 3))?;
    tell(&rt, forms(1, 1, 0))?;
    tell(&rt, forms(64, 0xfedcba9876543210, 0x10))?;
    tell(&rt, forms(33, 0x100000000, 0xffff))?;
    telling::outward::frames(&rt, Sheet::blank())?;
    telling::outward::smt(&rt, Sheet::blank())
}

fn tell(rt: &impl Print, sheet: Sheet) -> Result<()> {
    telling::outward::frames(rt, sheet)?;
    telling::outward::smt(rt, sheet)
}

// A sheet of each form with these constants, as written and then negated. What is refused is left out.
fn forms(width: u64, c1: u64, c2: u64) -> Sheet {
    let mut sheet = Sheet::blank()
        .open(Opening {
            width,
            edition: Edition::New,
        })
        .sheet;
    for form in 1..Rule::FORMS + 1 {
        sheet = added(added(sheet, rule(form, 0, c1, c2)), rule(form, 1, c1, c2));
    }
    sheet
}

// Forms 4, 5 and 6 use c1 only, and the value of form 7 lies in its mask.
fn rule(form: u64, sense: u64, c1: u64, c2: u64) -> Rule {
    let second = match form {
        4..=6 => 0,
        7 => c1 & c2,
        _ => c2,
    };
    Rule {
        form,
        sense,
        c1,
        c2: second,
    }
}

fn added(sheet: Sheet, rule: Rule) -> Sheet {
    let answer = sheet.add(Edition::New, rule);
    answer.sheet
}
