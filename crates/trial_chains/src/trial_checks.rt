// One sheet: its chain, the chain changed, or a drawn list where a word fits, each list checked both ways.

ghost use Rattle.std.specs.Prelude.{◌≤◌, ◌<◌, length};
ghost use Rattle.rule.specs.Meaning.{RULES};
ghost use Rattle.chain.specs.Links.{most_links};
ghost use Rattle.trial.specs.trial_direct.Trial.{Narrow};

use crate::trial_links::by_words;
use crate::trial_links::changed::{Change, ROOM};
use crate::trial_links::counts::Counts;
use chain::Link;
use rule::Rule;
use search::verdict::Kept;
use sheet::Sheet;
use trial::trial_direct::direct::{Row, Table};
use trial::trial_direct::{direct, draw, rules};
use trial::trial_tally::{Count, Split};
use trial_sheets::expected::NUMBERS;
use trial_sheets::trial_editions::asked;
use trial_sheets::walk;
use word::{Edition, Width};

// The numbers of a drawn list, of four links.
const DRAWN: usize = 4 * Link::NUMBERS;

/// What is tried on sheet after sheet, and counted: with the right answers expected, or the wrong ones.
#[derive(Clone, Copy)]
pub struct Trial {
    pub counts: Counts,
    wrong: bool,
    table: Table,
}

// A sheet, and the rows of its rules on so many words.
#[derive(Clone, Copy)]
struct Tried<'a> {
    sheet: Sheet,
    rows: &'a [Row],
    size: u64,
    wrong: bool,
    ghost narrow: { (1 ≤ size) × (size ≤ 256) },
}

impl Trial {
    /// Nothing tried yet.
    pub fn new(wrong: bool) -> Trial {
        Trial {
            counts: Counts::zero(),
            wrong,
            table: direct::BLANK,
        }
    }

    /// The lists of one sheet in both editions, or nothing where its rules are not accepted.
    pub fn sheet(&mut self, rules: &[Rule], width: Width, seed: u64)
        requires { Narrow width.bits }
    {
        if !rules::all_lawful(rules, width) {
            return;
        }
        direct::fill(rules, width, &mut self.table);
        let rows = &self.table[..rules.len().min(Rule::LIMIT)];
        for edition in [Edition::Old, Edition::New] {
            let tried = Tried {
                sheet: record(rules, width, edition, rows),
                rows,
                size: direct::size(width),
                wrong: self.wrong,
            };
            if tried.sheet.is_sheet() {
                lists(&mut self.counts, tried, rules, width, seed);
            }
        }
    }
}

// The record of a sheet with the rules. What is kept of them is what the walk over all words finds.
fn record(rules: &[Rule], width: Width, edition: Edition, rows: &[Row]) -> Sheet
    requires { Narrow width.bits }
{
    let kept = walk::walked(rows, direct::size(width) as usize, &mut [0; NUMBERS]);
    asked::record(edition, width.bits, rules, kept)
}

// The lists of a sheet: a drawn one where a word fits, and else the chain.
fn lists(counts: &mut Counts, tried: Tried<'_>, rules: &[Rule], width: Width, seed: u64)
    requires { Narrow width.bits }
{
    let mut buffer = [0; ROOM];
    let links = written(tried.sheet, &mut buffer);
    if links == 0 {
        counts.some = counts.some.wrapping_add(1);
        let list = drawn_list(seed, rules.len() as u64, tried.size);
        let numbers = 3 + 3 * (seed % 4) as usize;
        counts.fitting = counts.fitting.plus(tried.compared(&list[..numbers]));
        return;
    }
    counts.none = counts.none.wrapping_add(1);
    let list = &buffer[..3 * links];
    counts.other = counts.other.plus(without_last(tried, rules, width, list));
    counts.no_sheet = counts.no_sheet.plus(tried.on_no_sheet(list));
    for place in 0..list.len() {
        tried.changed_at(place, list, &mut counts.changed);
    }
}

impl<'a> Tried<'a> {
    // Both checks of a list, with the right answer expected or the wrong one.
    fn compared(&self, list: &[u64]) -> Split {
        let shown = by_words::accepts(self.rows, self.size, list);
        answered(checker::accepts(self.sheet, list), shown != self.wrong)
    }

    // The chain on the record with another verdict kept, which is no sheet's.
    fn on_no_sheet(&self, list: &[u64]) -> Split {
        let spoilt = Sheet {
            kept: Kept {
                verdict: 1,
                ..self.sheet.kept
            },
            ..self.sheet
        };
        answered(checker::accepts(spoilt, list), self.wrong)
    }

    // The chain changed at a place, in each way that applies there.
    fn changed_at(&self, place: usize, list: &[u64], counts: &mut [Split; 7])
        requires { place < length list.now }
    {
        let mut out = [0; ROOM];
        for (change, count) in Change::ALL.iter().zip(counts) {
            if change.applies(place) {
                *count = count.plus(self.compared(change.put(list, place, &mut out)));
            }
        }
    }
}

// The links that asking writes, or none where there are more than a chain has.
fn written(sheet: Sheet, list: &mut [u64; ROOM]) -> usize
    ensures { result ≤ most_links RULES }
{
    let links = sheet.ask(list).links;
    if Link::MOST < links { 0 } else { links }
}

// The chain on the sheet without its last rule.
fn without_last(tried: Tried<'_>, rules: &[Rule], width: Width, list: &[u64]) -> Split
    requires { Narrow width.bits }
{
    let (Some((_, rules)), Some((_, rows))) = (rules.split_last(), tried.rows.split_last()) else {
        return Split::none();
    };
    let fewer = Tried {
        sheet: record(rules, width, tried.sheet.edition, rows),
        rows,
        size: tried.size,
        wrong: tried.wrong,
    };
    fewer.compared(list)
}

// An answer, yes or no, and whether it is the one expected.
fn answered(yes: bool, expected: bool) -> Split {
    Split::one(u64::from(!yes), yes == expected)
}

// Four links of drawn numbers: words and, for reasons, numbers of rules, one that is no rule's, and 255.
fn drawn_list(seed: u64, n: u64, size: u64) -> [u64; DRAWN]
    requires { 1 ≤ size }
{
    let mut list = [0; DRAWN];
    let mut s = seed;
    for (i, place) in list.iter_mut().enumerate() {
        s = draw::next(s);
        *place = drawn(s, i, n, size);
    }
    list
}

fn drawn(s: u64, i: usize, n: u64, size: u64) -> u64
    requires { 1 ≤ size }
{
    if i == 0 {
        return 0;
    }
    if i % 3 != 2 {
        return (s >> 8) % size;
    }
    if s & 3 == 0 {
        Link::BITS
    } else {
        (s >> 8) % n.saturating_add(1)
    }
}
