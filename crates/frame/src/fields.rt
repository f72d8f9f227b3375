// What a line is made of, numbers in so many digits, and the lines of an answer, written into a lent buffer from a place on.

ghost use Rattle.std.specs.Prelude.{◌≡◌, ◌+◌, ◌*◌, ◌≤◌, length};
ghost use Rattle.rule.specs.Meaning.{RULES};
ghost use Rattle.chain.specs.Links.{most_links};
ghost use Rattle.frame.specs.fields.Answers.{LINE, SHORT, answer_bytes, kept_line, line_bytes, link_line, link_lines, number_line};
ghost use Rattle.frame.specs.fields.Fields.{byte, word};
ghost use Rattle.frame.specs.fields.Put.{PutAt};

use chain::Link;
use search::verdict::Kept;
use sheet::Sheet;
use word::Edition;

// A number in a line, in so many digits.
#[derive(Clone, Copy)]
pub struct Field {
    pub digits: usize,
    pub number: u64,
}

impl Field {
    // What ends a line.
    pub const NEWLINE: u8 = 10;

    // The digits of a code, and of every number that is no word.
    pub const BYTE: usize = 2;
}

// What an answer's line begins with: accepted, refused, the verdict, a link.
const ACCEPTED: u64 = 0x00;

const REFUSED: u64 = 0xff;

const TOLD: u64 = 0xa0;

pub const LINKED: u64 = 0xc0;

// The most numbers that an answer's line has.
const FIELDS: usize = 4;

// Accepted, or refused with a number.
pub fn put_number(out: &mut [u8], at: usize, number: u64) -> usize
    requires { at + SHORT ≤ length out.old }
    ensures { PutAt out.old at (line_bytes (number_line number)) out.new result }
{
    // A number in no digits writes nothing.
    let none = Field {
        digits: 0,
        number: 0,
    };
    if number == 0 {
        return put_line(out, at, [byte(ACCEPTED), none, none, none]);
    }
    put_line(out, at, [byte(REFUSED), byte(number), none, none])
}

// The verdict, with the smallest and the largest word.
pub fn kept_line(edition: Edition, kept: Kept) -> [Field; FIELDS]
    ensures { result ≡ kept_line edition kept }
{
    let verdict = byte(kept.verdict);
    let smallest = word(edition, kept.smallest);
    let largest = word(edition, kept.largest);
    [byte(TOLD), verdict, smallest, largest]
}

// The first n links of a chain, a line each.
pub fn put_links(
    out: &mut [u8],
    at: usize,
    edition: Edition,
    chain: &[u64; Sheet::LENT],
    n: usize,
) -> usize
    requires n_in_bounds { at + LINE * n ≤ length out.old }
    requires n_bound { n ≤ most_links RULES }
    ensures { PutAt out.old at (answer_bytes (link_lines edition n chain.now)) out.new result }
{
    let mut end = at;
    for i in 0..n {
        let link = chain::link_from(chain, Link::NUMBERS * i);
        end = put_line(out, end, link_line(edition, link));
    }
    end
}

// A link: its first and its last word, and the reason.
fn link_line(edition: Edition, link: Link) -> [Field; FIELDS]
    ensures { result ≡ link_line edition link.from link.to link.reason }
{
    let from = word(edition, link.from);
    let to = word(edition, link.to);
    let reason = byte(link.reason);
    [byte(LINKED), from, to, reason]
}

// A line: its numbers, one after the other, and a byte 10.
pub fn put_line(out: &mut [u8], at: usize, line: [Field; FIELDS]) -> usize
    requires { at + length (line_bytes line) ≤ length out.old }
    ensures { PutAt out.old at (line_bytes line) out.new result }
{
    let mut end = at;
    for i in 0..FIELDS {
        let field = line[i];
        digits::hexadecimal::put(out, end, field.digits, field.number);
        end = end + field.digits;
    }
    out[end] = Field::NEWLINE;
    end + 1
}

// A number in the digits of a code.
fn byte(x: u64) -> Field
    ensures { result ≡ byte x }
{
    Field {
        digits: Field::BYTE,
        number: x,
    }
}

// A number in the digits of an edition's word.
fn word(edition: Edition, x: u64) -> Field
    ensures { result ≡ word edition x }
{
    let digits = edition.terms().digits;
    Field { digits, number: x }
}
