// A chain that a lab wrote, read from a descriptor line by line and checked against a sheet: what is found of it, in one line on standard output,
// or where the chain is mistaken, on standard error.

mod settling;
mod words;

ghost use Rattle.vet.specs.checking.Checked.{Checked};
ghost use Rattle.vet.specs.status.Status.{number_of};

use crate::gathering::Chain;
use crate::status::Verdict;
use crate::{gathering, lines};
use naming::MOST;
use rule::Rule;
use sheet::Sheet;
use std::io::Eprint;
use std::rt::Files;

/// Checks the chain against a sheet, whose rules have names.
pub fn check(
    rt: &(impl Files + Print + Eprint),
    sheet: Sheet,
    names: &[[u8; MOST]; Rule::LIMIT],
) -> Verdict
    ensures { Checked sheet (number_of result) }
{
    let mut chain = Chain::new();
    if !gathering::read_all(rt, sheet.count, names, &mut chain) {
        return Verdict::Unsaid;
    }
    // Each turn moves a name on, or settles it; no run uses up the turns, since a loop has to end.
    for _ in 0..u64::MAX {
        let found = settling::found_of(sheet, &chain);
        let Some(link) = settling::unshown(found, &chain) else {
            return match words::tell(rt, found, names, &chain) {
                Ok(verdict) => verdict,
                Err(error) => {
                    // What is found could not be written, which is neither yes nor no.
                    lines::say_failed(b"vet: standard output", error);
                    Verdict::Unsaid
                }
            };
        };
        settling::move_on(&mut chain, link, sheet.count, names);
    }
    Verdict::Unsaid
}
