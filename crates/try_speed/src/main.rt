// Work to take the time of. With no argument, or with `ask`, one full sheet of 32 bits is asked again and again; with the argument
// `batch` it is made and asked by the batch call, again and again, and with `calls` by the calls one by one; with `bits` the next
// word that has given bits is looked for, at width 64. A second argument `64` has the sheet be one of 64 bits, in the new edition.
#![tactic(auto)]

mod look;

use batch::Batch;
use page::Opening;
use rule::Rule;
use sheet::Sheet;
use std::env::Env;
use trial_calls::sheets::{added, opened_in};
use trial_calls::trial_lists::{calls, parts, parts_of};
use word::Edition;

const ASKED: u64 = 10_000;

const MADE: u64 = 1_000;

fn main(rt: HostRuntime) {
    let mut word = [0u8; 8];
    let _ = rt.arg(1, &mut word);
    let mut bits = [0u8; 8];
    let _ = rt.arg(2, &mut bits);
    let wide = bits[0] == b'6';
    let opening = opening(wide);
    let rules = rules(wide);
    // By the first letters of the argument.
    match (word[0], word[1]) {
        (b'b', b'i') => look::all(&rt),
        (b'b', _) => tell(&rt, right(MADE, |out| batch_links(opening, &rules, out))),
        (b'c', _) => tell(&rt, right(MADE, |out| call_links(opening, &rules, out))),
        _ => {
            let sheet = full(opening, &rules);
            tell(&rt, right(ASKED, |out| sheet.ask(out).links));
        }
    }
}

fn tell(rt: &impl Print, right: u64) {
    let _ = println!(rt; "{right} answers of {} links", Rule::LIMIT);
}

// The widest sheet of the new edition, or of the old one.
fn opening(wide: bool) -> Opening {
    if wide {
        Opening {
            width: 64,
            edition: Edition::New,
        }
    } else {
        Opening {
            width: 32,
            edition: Edition::Old,
        }
    }
}

// As many as a sheet takes, each of which fails on one part of the words.
fn rules(wide: bool) -> [Rule; Batch::MOST] {
    if wide { parts_of(u64::MAX) } else { parts() }
}

fn full(opening: Opening, rules: &[Rule; Batch::MOST]) -> Sheet {
    let mut sheet = opened_in(opening.width, opening.edition);
    for rule in rules.iter().take(Rule::LIMIT) {
        sheet = added(sheet, *rule);
    }
    sheet
}

// The links that the batch call writes, and the calls one by one.
fn batch_links(opening: Opening, rules: &[Rule; Batch::MOST], out: &mut [u64]) -> usize {
    batch::first(opening, *rules, Rule::LIMIT, out).reply.links
}

fn call_links(opening: Opening, rules: &[Rule; Batch::MOST], out: &mut [u64]) -> usize {
    calls(opening, &rules[..Rule::LIMIT], out).reply.links
}

// How many of so many answers have a link for each part of the wheel.
fn right<F: Fn(&mut [u64]) -> usize>(times: u64, links: F) -> u64
    requires { F.IsAlwaysCallable links }
{
    let mut right: u64 = 0;
    for _ in 0..times {
        let mut out = [0; Sheet::LENT];
        if links(&mut out) == Rule::LIMIT {
            right = right.wrapping_add(1);
        }
    }
    right
}
