// The direct side of a trial: what the paper says of each form, in plain numbers, and walks that go one word at a time. It
// shares no code with what is tried.
ghost use Rattle.std.specs.Prelude.{◌≡◌, suc, ◌≤◌, ◌<◌, All};
ghost use Rattle.word.specs.Word.{top};
ghost use Rattle.rule.specs.Meaning.{Lawful};
ghost use Rattle.trial.specs.trial_direct.Trial.{Narrow};

use rule::Rule;
use word::Width;

/// The most words that are gone through.
pub const WORDS: usize = 256;

/// What is said of each word by a rule: 0 where it meets it, else 7 for a rule of form 7, and 1 for any other.
pub type Row = [u8; WORDS];

/// A row for each rule that a sheet may have.
pub type Table = [Row; Rule::LIMIT];

/// A table with nothing said yet.
pub const BLANK: Table = [[0; WORDS]; Rule::LIMIT];

/// What a lent number is before the call. No word of fewer than 64 bits and no reason is so large.
pub const UNTOUCHED: u64 = u64::MAX;

/// How many words there are.
pub fn size(width: Width) -> u64
    requires { Narrow width.bits }
    ensures { (result ≡ suc (top width.bits)) × (result ≤ 256) }
{
    1 << width.bits
}

// "s(a) is a where a < half, else a - 2^w", of n words.
fn signed(n: u64, a: u64) -> i64
    requires { (a < n) × (n ≤ 256) }
{
    if a < n / 2 {
        return a as i64;
    }
    a as i64 - n as i64
}

// "c2 <= (x - c1) and (x - c1) < half", of n words.
fn settled(n: u64, c1: u64, c2: u64, x: u64) -> bool
    requires { (c1 < n) × (x < n) × (n ≤ 256) }
{
    let since = (x + n - c1) % n;
    c2 <= since && since < n / 2
}

/// Whether x meets the rule, by the table of forms.
pub fn meets(rule: Rule, width: Width, x: u64) -> bool
    requires narrow { Narrow width.bits }
    requires lawful { Lawful width.bits rule }
    requires x_bound { x ≤ top width.bits }
{
    let holds = written(rule, width, x);
    if rule.sense == 1 { !holds } else { holds }
}

// A number that is no form forbids nothing.
fn written(rule: Rule, width: Width, x: u64) -> bool
    requires narrow { Narrow width.bits }
    requires lawful { Lawful width.bits rule }
    requires x_bound { x ≤ top width.bits }
{
    let n = size(width);
    let Rule { form, c1, c2, .. } = rule;
    match form {
        1 => (c1 + x) % n <= (c2 + x) % n,
        2 => c1 <= (c2 + x) % n,
        3 => (c1 + x) % n <= c2,
        4 => signed(n, x) <= signed(n, c1),
        5 => signed(n, c1) <= signed(n, x),
        6 => x == c1,
        7 => x & c1 == c2,
        8 => settled(n, c1, c2, x),
        _ => true,
    }
}

// What stands at word x of a rule's row.
fn cell(rule: Rule, width: Width, x: u64) -> u8
    requires narrow { Narrow width.bits }
    requires lawful { Lawful width.bits rule }
    requires x_bound { x ≤ top width.bits }
{
    if meets(rule, width, x) {
        return 0;
    }
    if rule.form == 7 { 7 } else { 1 }
}

/// Fills the first rows of a table, one for each rule. The walks below go by it, and read no place that is not filled, so
/// one table serves many sheets.
pub fn fill(rules: &[Rule], width: Width, table: &mut Table)
    requires narrow { Narrow width.bits }
    requires lawful { All (Lawful width.bits) rules.now }
{
    for (rule, place) in rules.iter().zip(table) {
        *place = row(*rule, width);
    }
}

/// The row of one rule.
pub fn row(rule: Rule, width: Width) -> Row
    requires narrow { Narrow width.bits }
    requires lawful { Lawful width.bits rule }
{
    let mut row = [0; WORDS];
    for x in 0..size(width) {
        row[x as usize] = cell(rule, width, x);
    }
    row
}

// Whether x meets the rules of these rows.
fn fits(rows: &[Row], x: usize) -> bool
    requires { x < 256 }
{
    rows.iter().all(|row| row[x] == 0)
}

/// The first word from p up to below the end that meets the rules of these rows, or the end.
pub fn up(rows: &[Row], end: usize, p: usize) -> usize
    requires { end ≤ 256 }
{
    (p..end).find(|x| fits(rows, *x)).unwrap_or(end)
}

/// One more than the first word from p down that meets the rules of these rows, or 0 where there is none.
pub fn down(rows: &[Row], p: usize) -> usize
    requires { p < 256 }
{
    (0..p + 1)
        .rev()
        .find(|x| fits(rows, *x))
        .map_or(0, |x| x + 1)
}

/// Whether b is one above a.
pub fn is_next(a: u64, b: u64) -> bool {
    a.checked_add(1) == Some(b)
}
