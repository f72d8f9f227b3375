// Tries the desk's calls in both editions on sheets of the widths 1 to 8, against the walk over all words; and that walk against the one
// from turn to turn, which serves where the words are too many.
//
// The counts: drawn has as many sheets as its loop makes, 2000, of up to 200 rules, and ways 8000, of up to six. known has the right
// answer to a sheet, and seven wrong ones.
#![tactic(auto)]

use trial::trial_direct::direct::Table;
use trial::trial_direct::{direct, draw, rules};
use trial::trial_tally::{Count, Tally};
use trial::trial_wheel::bit_rules::FEW;
use trial::trial_wheel::wheel::Wheel;
use trial_sheets::expected::NUMBERS;
use trial_sheets::trial_editions::asked::UNTOUCHED;
use trial_sheets::trial_editions::counts::Both;
use trial_sheets::trial_editions::{asked, known};
use trial_sheets::trial_wide::{sheets, stretches};
use trial_sheets::{drawn as draws, walk};
use word::Width;

// How many sheets are drawn to be asked, and to go both ways on.
const SHEETS: u64 = 2000;

const WALKS: u64 = 8000;

fn main(rt: HostRuntime) {
    drawn().print(&rt, "drawn");
    let _ = println!(rt; "ways {}", ways());
    let _ = println!(rt; "known {}", known::all());
}

// Sheets of any number of rules, asked in both editions.
fn drawn() -> Both {
    let mut table = direct::BLANK;
    (1..SHEETS + 1)
        .map(|i| drawn_sheet(draw::spread(0, i), &mut table))
        .sum()
}

fn drawn_sheet(s: u64, table: &mut Table) -> Both {
    let width = Width { bits: 1 + s % 8 };
    let n = draws::count(s >> 8);
    let rules = sheets::all_taken(draws::rules(s, n, width));
    let rules = &rules[..n];
    if !rules::all_lawful(rules, width) {
        return Both::none();
    }
    let size = direct::size(width);
    let mut buffer = [UNTOUCHED; NUMBERS];
    direct::fill(rules, width, table);
    let walked = walk::walked(&table[..n], size as usize, &mut buffer);
    asked::in_editions(width.bits, size - 1, rules, walked, &buffer)
}

// The two walks on sheets of up to six rules.
fn ways() -> Tally {
    let mut table = direct::BLANK;
    (1..WALKS + 1)
        .map(|i| both_ways(draw::spread(0, i), &mut table))
        .sum()
}

fn both_ways(s: u64, table: &mut Table) -> Tally {
    let width = Width { bits: 1 + s % 8 };
    let wheel = Wheel::of(width.bits);
    let n = 1 + (s >> 8) as usize % FEW;
    let rules = sheets::drawn(s >> 8, wheel);
    let rules = &rules[..n];
    if !rules::all_lawful(rules, width) {
        return Tally::none();
    }
    let mut buffer = [UNTOUCHED; NUMBERS];
    let mut numbers = [UNTOUCHED; NUMBERS];
    direct::fill(rules, width, table);
    let walked = walk::walked(&table[..n], direct::size(width) as usize, &mut buffer);
    let searched = stretches::searched(rules, wheel, &mut numbers);
    Tally::one(walked == searched && buffer == numbers)
}
