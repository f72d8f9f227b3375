// Tries what sequences of calls come to, in both editions, against a clerk's page.
//
// The counts. long: 30 sequences of 200 calls, and full: 30 calls on each of 30 sheets that are all but full; which of them are
// accepted is up to the draws. known: one each against a page that misses a rule, a pile that misses a stretch, and a page of the other
// edition.
#![tactic(auto)]

mod full;
mod long;

use trial::trial_tally::Split;

fn main(rt: HostRuntime) {
    tell(&rt, "long", long::all());
    tell(&rt, "full", full::all());
    let _ = println!(rt; "known {}", long::known());
}

// How many calls were compared, and how many of them were accepted and refused.
fn tell(rt: &impl Print, name: &str, calls: Split) {
    let _ = println!(rt; "{name} {}", calls.joined());
    let _ = println!(rt; "{name} {} accepted, {} refused", calls.first, calls.second);
}
