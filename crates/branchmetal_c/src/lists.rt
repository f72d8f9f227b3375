// The calls without a sheet to keep.
ghost use Rattle.std.specs.Prelude.{◌≡◌};
ghost use Rattle.outside.specs.handing.Handed.{opening_of, rule_in, rules_in, weigh_number, weighed};
ghost use Rattle.outside.specs.making.Made.{makes};
ghost use Rattle.outside.specs.on_lists.Lists.{check_numbers};
ghost use Rattle.outside.specs.on_counts.Counts.{count_numbers, share_in};
ghost use Rattle.outside.specs.on_listings.Listings.{ListedIn};
ghost use Rattle.outside.specs.vetting.Vetted.{Vetted};

use outside::handing::NUMBERS;

/// Whether a word meets a rule.
#[unsafe(no_mangle)]
pub extern "C" fn branchmetal_meets(
    width: u64,
    rule: &[u64; NUMBERS],
    word: u64,
    meets: &mut u64,
) -> u64
    ensures value { result ≡ weigh_number width (rule_in rule.now) word }
    ensures meets_after { meets.new ≡ weighed width (rule_in rule.now) word }
{
    branchmetal::lists::branchmetal_meets(width, rule, word, meets)
}

/// Vets a list: the batch call.
#[unsafe(no_mangle)]
pub extern "C" fn branchmetal_vet(
    width: u64,
    edition: u64,
    rules: &[[u64; NUMBERS]],
    links: &mut [u64],
    answer: &mut [u64; 5],
) -> u64
    ensures { Vetted (opening_of width edition) (rules_in rules.now) links.old links.new answer.new result }
{
    branchmetal::lists::branchmetal_vet(width, edition, rules, links, answer)
}

/// Checks a chain of any maker against a list.
#[unsafe(no_mangle)]
pub extern "C" fn branchmetal_check(
    width: u64,
    edition: u64,
    rules: &[[u64; NUMBERS]],
    links: &[u64],
    answer: &mut [u64; 2],
) -> u64
    ensures value { result ≡ (makes (opening_of width edition) (rules_in rules.now)).number }
    ensures answer_after { answer.new ≡ check_numbers (makes (opening_of width edition) (rules_in rules.now)) links.now }
{
    branchmetal::lists::branchmetal_check(width, edition, rules, links, answer)
}

/// Counts the words that fit a list.
#[unsafe(no_mangle)]
pub extern "C" fn branchmetal_count(
    width: u64,
    edition: u64,
    rules: &[[u64; NUMBERS]],
    answer: &mut [u64; 3],
) -> u64
    ensures value { result ≡ (share_in (makes (opening_of width edition) (rules_in rules.now))).number }
    ensures answer_after { answer.new ≡ count_numbers (makes (opening_of width edition) (rules_in rules.now)) }
{
    branchmetal::lists::branchmetal_count(width, edition, rules, answer)
}

/// Lists the words that fit a list of rules, from a start on.
#[unsafe(no_mangle)]
pub extern "C" fn branchmetal_list(
    width: u64,
    edition: u64,
    rules: &[[u64; NUMBERS]],
    start: u64,
    words: &mut [u64],
    answer: &mut [u64; 2],
) -> u64
    ensures { ListedIn (makes (opening_of width edition) (rules_in rules.now)) start words.old words.new answer.new result }
{
    branchmetal::lists::branchmetal_list(width, edition, rules, start, words, answer)
}
