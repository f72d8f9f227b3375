// The names of rules, kept beside a sheet in a lent array: a row a rule, its name and then zero bytes. An empty row is no name.
#![tactic(auto)]

pub mod by_name;
pub mod named;
pub mod spoken;

ghost use Rattle.std.specs.Prelude.{◌≡◌, eqb, length, position};
ghost use Rattle.naming.specs.Names.{kept, name_in, new_rules, put, row_of};

use gate::Gate;
use line::Statement;
use rule::Rule;

/// The bytes of a row: a name is shorter than a line, and has no zero byte.
pub const MOST: usize = line::LIMIT;

/// Keeps the name of an accepted statement, which was said of a sheet with so many rules in force: no bytes are no name.
#[tactic(auto, unfolding(crate::specs::Names::kept))]
pub fn keep(names: &mut [[u8; MOST]; Rule::LIMIT], statement: Statement, count: usize, name: &[u8])
    ensures { names.new ≡ kept statement count name.now names.old }
{
    put(names, count, new_rules(statement), row_of(name));
}

// How many rules an accepted statement adds.
#[tactic(auto, using(crate::proofs::SearchNewRules::wanted), unfolding(crate::specs::Names::new_rules))]
fn new_rules(statement: Statement) -> usize
    ensures { result ≡ new_rules statement }
{
    match statement {
        Statement::Rule(_) => 1,
        Statement::AtLeast(_) => Gate::RULES,
        Statement::AtMost(_) => Gate::RULES,
        Statement::Within(_, _) => Gate::RULES,
        _ => 0,
    }
}

// The row of a name.
fn row_of(name: &[u8]) -> [u8; MOST]
    ensures { result ≡ row_of name.now }
{
    let mut row = [0; MOST];
    for i in 0..name.len() {
        if i < MOST {
            row[i] = name[i];
        }
    }
    row
}

// Puts a row so many times, from a place on; past the rows nothing.
fn put(names: &mut [[u8; MOST]; Rule::LIMIT], from: usize, times: usize, row: [u8; MOST])
    ensures { names.new ≡ put row times from names.old }
{
    let mut at = from;
    for i in 0..times {
        if at < Rule::LIMIT {
            names[at] = row;
            at += 1;
        }
    }
}

/// How long the name in a row is.
#[tactic(auto, using(crate::proofs::Rows::row_length))]
pub fn length(row: &[u8; MOST]) -> usize
    ensures { result ≡ length (name_in row.now) }
{
    first_zero(row).unwrap_or(MOST)
}

// The place of the first zero byte.
fn first_zero(bytes: &[u8]) -> Option<usize>
    ensures { result ≡ position (λ b. eqb b 0) bytes.now }
{
    bytes.iter().position(|b| *b == 0)
}
