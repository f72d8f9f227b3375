// The bands and the bits of the rules in rows.
ghost use Rattle.std.specs.Prelude.{◌≡◌, ◌≤◌, length, take};
ghost use Rattle.word.specs.Word.{IsWidth};
ghost use Rattle.rule.specs.Meaning.{RULES};
ghost use Rattle.rule.specs.bits.route.Fixed.{fixed_bits};
ghost use Rattle.search.specs.rows.route.Rows.{drawn, rules_in};

use rule::Rule;
use rule::band::Band;
use rule::bits::Fixed;
use word::Width;

// Lays the bands of the first n rules.
pub fn draw(rows: &mut [[u64; crate::rows::NUMBERS]; Rule::LIMIT], n: usize, width: Width)
    requires width { IsWidth width.bits }
    requires n_bound { (n ≤ RULES) × (length rows.old ≡ RULES) }
    ensures { rows.new ≡ drawn width.bits n rows.old }
{
    for i in 0..n {
        let rule = crate::rows::rule_at(rows, i);
        let band = Band::of(rule, width);
        crate::rows::put(rows, i, rule, band);
    }
}

// The bits that the first n rules fix.
pub fn bits_of(rows: &[[u64; crate::rows::NUMBERS]; Rule::LIMIT], n: usize) -> Fixed
    requires { (n ≤ RULES) × (length rows.now ≡ RULES) }
    ensures { result ≡ fixed_bits (take n (rules_in rows.now)) }
{
    let mut fixed = Fixed::Bits { mask: 0, value: 0 };
    for i in 0..n {
        let rule = crate::rows::rule_at(rows, i);
        fixed = fixed.with(rule);
    }
    fixed
}
