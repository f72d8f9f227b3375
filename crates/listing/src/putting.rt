// The words of a section that have the bits, written into a lent buffer in rising order, from each to the next.

ghost use Rattle.std.specs.Prelude.{◌≡◌, ◌+◌, ◌-◌, ◌≤◌, length, take};
ghost use Rattle.word.specs.Word.{IsWidth, top};
ghost use Rattle.rule.specs.bits.route.Fixed.{Tidy};
ghost use Rattle.listing.specs.putting.route.Put.{is_free, put_at, run_words, section_words};

use rule::band::Run;
use rule::bits::Fixed;
use search::rows::InForce;
use search::section::Section;

/// Writes the words of a section from p on that have the bits, where the bands hold it, from a place of the buffer on, and says which
/// place comes after them. The first is looked for, and the others follow one from another.
pub fn put_section(section: Section, force: InForce, p: u64, out: &mut [u64], place: usize) -> usize
    requires width { IsWidth force.width.bits }
    requires p_le_to { (p ≤ section.to) × (section.to ≤ top force.width.bits) }
    requires tidy { Tidy force.fixed × (place ≤ length out.old) }
    ensures value { result ≡ place + length (take (length out.old - place) (section_words section force.fixed p)) }
    ensures out_after { out.new ≡ put_at out.old place (take (length out.old - place) (section_words section force.fixed p)) }
{
    if !section.held {
        return place;
    }
    let last = section.to;
    let fixed = force.fixed;
    if free(fixed) {
        return put_run(Run { from: p, to: last }, out, place);
    }
    let Some(first) = fixed.next(force.width, p) else {
        return place;
    };
    let mut x = first;
    let mut at = place;
    // Each word is found from the one before it, and the place goes back to the caller: an iterator of words is no plainer.
    while at < out.len() {
        if last < x {
            return at;
        }
        out[at] = x;
        at += 1;
        let Some(next) = fixed.after(x) else {
            return at;
        };
        x = next;
    }
    at
}

// Whether no bit is fixed.
fn free(fixed: Fixed) -> bool
    ensures { result ≡ is_free fixed }
{
    match fixed {
        Fixed::Bits { mask, value: _ } => mask == 0,
        Fixed::Clash => false,
    }
}

// Writes the words of a run from a place of the buffer on, one after another, and says which place comes after them.
fn put_run(words: Run, out: &mut [u64], place: usize) -> usize
    requires { (words.from ≤ words.to) × (place ≤ length out.old) }
    ensures value { result ≡ place + length (take (length out.old - place) (run_words words)) }
    ensures out_after { out.new ≡ put_at out.old place (take (length out.old - place) (run_words words)) }
{
    let last = words.to;
    let mut x = words.from;
    let mut at = place;
    // The place has to be known after the last word, and a run of 2^64 words has no length: a zip of places and words is no plainer.
    while at < out.len() {
        out[at] = x;
        at += 1;
        if x == last {
            return at;
        }
        x += 1;
    }
    at
}
