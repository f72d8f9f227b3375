// Rules laid out in rows from a record, packed into one again, and taken away.
ghost use Rattle.std.specs.Prelude.{◌≡◌, map, ◌++◌, ◌-◌, ◌≤◌, drop, length, replicate, take};
ghost use Rattle.rule.specs.Meaning.{RULES};
ghost use Rattle.search.specs.rows.route.Rows.{bare_row, no_row, rules_in};

use rule::Rule;
use rule::band::Band;

// Takes the rules from place n up to m away.
pub fn clear(rows: &mut [[u64; crate::rows::NUMBERS]; Rule::LIMIT], n: usize, m: usize)
    requires { (n ≤ m) × (m ≤ RULES) × (length rows.old ≡ RULES) }
    ensures { rows.new ≡ take n rows.old ++ (replicate (m - n) no_row ++ drop m rows.old) }
{
    let none = [0; crate::rows::NUMBERS];
    for i in n..m {
        rows[i] = none;
    }
}

// Lays the rules of a record out, with no bands yet.
pub fn lay_out(rows: &mut [[u64; crate::rows::NUMBERS]; Rule::LIMIT], packed: [Rule; Rule::LIMIT])
    requires { length rows.old ≡ RULES }
    ensures { (rows.new ≡ map bare_row packed) × (length rows.new ≡ RULES) }
{
    let blank = Band {
        from: 0,
        to: 0,
        inside: false,
    };
    for i in 0..Rule::LIMIT {
        crate::rows::put(rows, i, packed[i], blank);
    }
}

// Packs them into a record again.
pub fn pack(rows: &[[u64; crate::rows::NUMBERS]; Rule::LIMIT]) -> [Rule; Rule::LIMIT]
    requires { length rows.now ≡ RULES }
    ensures { result ≡ rules_in rows.now }
{
    let mut packed = [Rule::NONE; Rule::LIMIT];
    for i in 0..Rule::LIMIT {
        packed[i] = crate::rows::rule_at(rows, i);
    }
    packed
}
