// A link as the desk writes it, in either edition: `c0`, its first and its last word, and the reason, in hexadecimal digits.

ghost use Rattle.std.specs.Prelude.{◌≡◌, ◌≤◌, length};
ghost use Rattle.frame.specs.fields.Fields.{WORD};
ghost use Rattle.citing.specs.linked.Linked.{bare_end, end_of, is_link, link_in, link_of};

use chain::Link;
use frame::fields::{Field, LINKED};
use word::Edition;

/// The link that a line is, if it is one, without its byte 10 and a byte 13 before it.
pub fn read(line: &[u8]) -> Option<Link>
    ensures { result ≡ link_in line.now }
{
    let end = bare_end(line);
    let bare = &line[..end];
    if is_link(bare, Edition::Old) {
        return Some(link_of(bare, Edition::Old));
    }
    if is_link(bare, Edition::New) {
        return Some(link_of(bare, Edition::New));
    }
    None
}

// Whether a line is a link of an edition.
fn is_link(line: &[u8], edition: Edition) -> bool
    ensures { result ≡ is_link edition line.now }
{
    let digits = edition.terms().digits;
    if line.len() != Field::BYTE + digits + digits + Field::BYTE {
        return false;
    }
    if !digits::hexadecimal::all_digits(line) {
        return false;
    }
    digits::hexadecimal::number(line, 0, Field::BYTE) == LINKED
}

// The link that a line is.
fn link_of(line: &[u8], edition: Edition) -> Link
    requires { length line.now ≡ end_of (WORD edition) }
    ensures { result ≡ link_of (WORD edition) line.now }
{
    let digits = edition.terms().digits;
    let to = Field::BYTE + digits;
    let reason = to + digits;
    let end = reason + Field::BYTE;
    Link {
        from: digits::hexadecimal::number(line, Field::BYTE, to),
        to: digits::hexadecimal::number(line, to, reason),
        reason: digits::hexadecimal::number(line, reason, end),
    }
}

// Where a line ends that may end in byte 13.
fn bare_end(line: &[u8]) -> usize
    ensures { (result ≡ bare_end line.now) × (result ≤ length line.now) }
{
    let n = line.len();
    if n == 0 {
        return 0;
    }
    let last = n - 1;
    if line[last] == 13 {
        return last;
    }
    n
}
