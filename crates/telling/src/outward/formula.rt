// A rule as a formula of SMT-LIB. Sums and differences of bit vectors wrap at their width, as the paper's do.

use rule::Rule;
use std::fmt;
use word::line_width::width_of;

/// A rule as written, at so many bits.
#[derive(Clone, Copy)]
pub struct Formula {
    pub rule: Rule,
    pub bits: u64,
}

// The paper's table of forms, a row each: forms 1, 2 and 3 are of the plain order, and form 8 is c2 <= x - c1 and x - c1 < half. A number
// that is no form forbids nothing.
impl fmt::Display for Formula {
    fn fmt<W: fmt::Write>(&self, f: &mut fmt::Formatter<W>) -> fmt::Result {
        let bits = self.bits;
        let a = Constant {
            value: self.rule.c1,
            bits,
        };
        let b = Constant {
            value: self.rule.c2,
            bits,
        };
        match self.rule.form {
            1 => write!(f, "(bvule (bvadd {a} x) (bvadd {b} x))"),
            2 => write!(f, "(bvule {a} (bvadd {b} x))"),
            3 => write!(f, "(bvule (bvadd {a} x) {b})"),
            4 => write!(f, "(bvsle x {a})"),
            5 => write!(f, "(bvsle {a} x)"),
            6 => write!(f, "(= x {a})"),
            7 => write!(f, "(= (bvand x {a}) {b})"),
            8 => {
                let half = Constant {
                    value: width_of(bits).half(),
                    bits,
                };
                write!(
                    f,
                    "(and (bvule {b} (bvsub x {a})) (bvult (bvsub x {a}) {half}))"
                )
            }
            _ => write!(f, "(= x x)"),
        }
    }
}

// A constant of so many bits.
#[derive(Clone, Copy)]
struct Constant {
    value: u64,
    bits: u64,
}

impl fmt::Display for Constant {
    fn fmt<W: fmt::Write>(&self, f: &mut fmt::Formatter<W>) -> fmt::Result {
        write!(f, "(_ bv{} {})", self.value, self.bits)
    }
}
