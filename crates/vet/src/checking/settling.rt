// What is found of a chain whose reasons may be names: a name that several rules in force share, as the four of a gate do, stands for
// the first of them that all words of the link fail, and for the first of them where there is none.
ghost use Rattle.std.specs.Prelude.{◌≡◌};
ghost use Rattle.std.specs.Result.{is_ok};
ghost use Rattle.checker.specs.Check.{accepts};
ghost use Rattle.checker.specs.clause.Finding.{finding};
ghost use Rattle.vet.specs.gathering.Read.{numbers_in};

use crate::gathering::Chain;
use checker::finding::Breach;
use naming::MOST;
use rule::Rule;
use sheet::Sheet;

/// What is found of the links of a chain. All holds just where the check says yes.
pub fn found_of(sheet: Sheet, chain: &Chain) -> Result<(), Breach>
    ensures value { result ≡ finding sheet (numbers_in chain.now) }
    ensures result_value { is_ok result ≡ accepts sheet (numbers_in chain.now) }
{
    checker::clause::first(sheet, chain.numbers())
}

/// The link whose reason is a name and which the rule does not show that the name stands for.
pub fn unshown(found: Result<(), Breach>, chain: &Chain) -> Option<usize> {
    let link = match found {
        Err(Breach::BitRule { link }) => link,
        Err(Breach::MeetsRule { link, word: _ }) => link,
        _ => return None,
    };
    let origin = chain.origin(link)?;
    if origin.named { Some(link) } else { None }
}

/// The name of a link stands for the next rule that has it. After the last it is settled, and stands for the first.
pub fn move_on(chain: &mut Chain, link: usize, rules: usize, names: &[[u8; MOST]; Rule::LIMIT]) {
    let Some(number) = chain.reason(link) else {
        return;
    };
    let reason = number as usize;
    let Some(name) = names.get(reason) else {
        return;
    };
    if let Some(next) = same_from(names, rules, name, reason + 1) {
        chain.put_reason(link, next as u64);
        return;
    }
    if let Some(first) = same_from(names, rules, name, 0) {
        chain.put_reason(link, first as u64);
    }
    chain.settle(link);
}

// The first rule in force from a number on that has the name.
fn same_from(
    names: &[[u8; MOST]; Rule::LIMIT],
    rules: usize,
    name: &[u8; MOST],
    from: usize,
) -> Option<usize> {
    for (number, other) in names.iter().enumerate().take(rules).skip(from) {
        if other == name {
            return Some(number);
        }
    }
    None
}
