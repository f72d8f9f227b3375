// What the rules in rows are tested for.
ghost use Rattle.std.specs.Prelude.{◌≡◌, ◌≤◌, drop, length, take};
ghost use Rattle.word.specs.Word.{IsWidth};
ghost use Rattle.rule.specs.Meaning.{RULES};
ghost use Rattle.rule.specs.accept.Accept.{acceptable, every, is_no_rule};
ghost use Rattle.search.specs.rows.route.Rows.{rules_in};

use rule::Rule;
use word::Width;

// Whether none of the first n rules would be refused.
#[tactic(auto, using(crate::proofs::laying::SearchTestingAllAcceptable::wanted), unfolding(rule::specs::accept::Accept::acceptable, rule::specs::accept::Accept::every))]
pub fn all_acceptable(
    rows: &[[u64; crate::rows::NUMBERS]; Rule::LIMIT],
    n: usize,
    width: Width,
) -> bool
    requires width { IsWidth width.bits }
    requires n_bound { (n ≤ RULES) × (length rows.now ≡ RULES) }
    ensures { result ≡ every (acceptable width.bits) (take n (rules_in rows.now)) }
{
    for i in 0..n {
        if rule::accept::refusal_of(crate::rows::rule_at(rows, i), width) != 0 {
            return false;
        }
    }
    true
}

// Whether there is no rule from place n on.
#[tactic(auto, using(crate::proofs::laying::SearchTestingNoneFrom::wanted), unfolding(rule::specs::accept::Accept::every))]
pub fn none_from(rows: &[[u64; crate::rows::NUMBERS]; Rule::LIMIT], n: usize) -> bool
    requires { (n ≤ RULES) × (length rows.now ≡ RULES) }
    ensures { result ≡ every is_no_rule (drop n (rules_in rows.now)) }
{
    for i in n..Rule::LIMIT {
        if !rule::accept::is_no_rule(crate::rows::rule_at(rows, i)) {
            return false;
        }
    }
    true
}
