// Calls drawn from a fixed seed, so that every run makes the same ones.
use crate::sheets::other;
use page::Opening;
use rule::Rule;
use sheet::Call;
use trial::trial_direct::draw::next;
use word::Edition;

// Of so many numbers from 0 on, about half are forms.
const ANY: u64 = 2 * Rule::FORMS;

// The seed of the call after: a call draws on four numbers at most.
pub fn further(seed: u64) -> u64 {
    next(next(next(next(seed))))
}

/// A call for a sheet that was opened so, on which something waits or nothing does. Openings are rare, as each starts a page afresh, but
/// on the blank sheet are not. Once something waits most calls are steps, as an add or a mark clears the pile.
pub fn drawn(seed: u64, opening: Opening, waits: bool) -> Call {
    let Opening { width, edition } = opening;
    let more = next(seed);
    if opens(seed, width) {
        return Call::Open(anew(more));
    }
    if waits && seed / 0x1000 % 4 != 0 {
        return step(seed / 0x1_0000);
    }
    match seed / 64 % 64 {
        0..=11 => Call::Mark,
        12..=19 => Call::Back,
        20..=25 => Call::Forward,
        _ => Call::Add(
            frame(seed / 0x10_0000, edition),
            rule(more, next(more), width),
        ),
    }
}

fn step(seed: u64) -> Call {
    if seed % 2 == 0 {
        Call::Back
    } else {
        Call::Forward
    }
}

fn opens(seed: u64, width: u64) -> bool {
    let kind = seed % 256;
    kind == 0 || width == 0 && kind < 64
}

/// Either edition.
pub fn either(seed: u64) -> Edition {
    if seed / 0x1_0000 % 2 == 0 {
        Edition::Old
    } else {
        Edition::New
    }
}

// An opening in either edition. The width is mostly 1 to 6, where words are few and rules clash; else any, with some that are refused.
fn anew(seed: u64) -> Opening {
    let edition = either(seed);
    let width = if seed % 8 == 0 {
        any_width(seed / 8, edition)
    } else {
        1 + seed / 8 % 6
    };
    Opening { width, edition }
}

// From 0 to 15 above the widest of the edition.
fn any_width(seed: u64, edition: Edition) -> u64 {
    match edition {
        Edition::Old => seed % 48,
        Edition::New => seed % 80,
    }
}

// The edition of an add: mostly the sheet's.
fn frame(seed: u64, edition: Edition) -> Edition {
    if seed % 16 == 0 {
        other(edition)
    } else {
        edition
    }
}

/// A rule, each of whose numbers is mostly one that is accepted at the width.
pub fn rule(seed: u64, more: u64, width: u64) -> Rule {
    let form = form(seed);
    let c1 = constant(seed / 0x1_0000, more, width);
    Rule {
        form,
        sense: sense(form, seed / 0x1000),
        c1,
        c2: second(form, seed / 0x1_0000_0000, next(more), width, c1),
    }
}

fn form(seed: u64) -> u64 {
    if seed % 16 == 0 {
        seed / 16 % ANY
    } else {
        1 + seed / 16 % Rule::FORMS
    }
}

// Form 7 is mostly not negated.
fn sense(form: u64, seed: u64) -> u64 {
    match seed % 16 {
        0 => seed / 16 % 4,
        _ if form == 7 => 0,
        _ => seed / 16 % 2,
    }
}

// Mostly a word of the width: as many of the highest bits drawn. Else a small number or one of any size, a word or not.
fn constant(seed: u64, more: u64, width: u64) -> u64 {
    match seed % 64 {
        0 => more / 32 % 100,
        32 => more,
        _ => more >> 64u64.wrapping_sub(width) % 64,
    }
}

// Forms 4 to 6 mostly have no second constant, and form 7 one with no bit that the first lacks.
fn second(form: u64, seed: u64, more: u64, width: u64, c1: u64) -> u64 {
    let any = constant(seed, more, width);
    match form {
        _ if seed % 32 == 1 => any,
        4..=6 => 0,
        7 => any & c1,
        _ => any,
    }
}
