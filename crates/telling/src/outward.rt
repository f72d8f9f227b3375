// The rules in force on a sheet, written on standard output for other tools: as the desk's frames, and in SMT-LIB.

mod formula;

use formula::Formula;
use rule::Rule;
use sheet::Sheet;
use std::fmt;
use std::io::Result;
use word::{Edition, Width};

/// Writes the frames that open a sheet of this width, add each rule in order, and ask. They are those of the new edition, which has every
/// width.
pub fn frames(rt: &impl Print, sheet: Sheet) -> Result<()> {
    rt.print(Lines(&sheet))
}

/// Writes a sheet in SMT-LIB, logic QF_BV: a constant x of the width, an assertion for each rule, and the question whether some word fits;
/// nothing for a width that no sheet has.
pub fn smt(rt: &impl Print, sheet: Sheet) -> Result<()> {
    if sheet.width < 1 || Width::LIMIT < sheet.width {
        return Ok(());
    }
    rt.print(Script(&sheet))
}

// The rules in force.
fn in_force(sheet: &Sheet) -> &[Rule] {
    &sheet.rules[..sheet.count.min(Rule::LIMIT)]
}

// A sheet as frames, a line each.
#[derive(Clone, Copy)]
struct Lines<'a>(&'a Sheet);

impl fmt::Display for Lines<'_> {
    fn fmt<W: fmt::Write>(&self, f: &mut fmt::Formatter<W>) -> fmt::Result {
        let terms = Edition::New.terms();
        writeln!(f, "{:02x}{:02x}", terms.opens, self.0.width)?;
        for &Rule {
            form,
            sense,
            c1,
            c2,
        } in in_force(self.0) {
            let digits = terms.digits;
            writeln!(
                f,
                "{:02x}{form:02x}{sense:02x}{c1:0digits$x}{c2:0digits$x}",
                terms.adds
            )?;
        }
        writeln!(f, "05")
    }
}

// A sheet as a script.
#[derive(Clone, Copy)]
struct Script<'a>(&'a Sheet);

impl fmt::Display for Script<'_> {
    fn fmt<W: fmt::Write>(&self, f: &mut fmt::Formatter<W>) -> fmt::Result {
        let bits = self.0.width;
        writeln!(f, "(set-logic QF_BV)\n(declare-const x (_ BitVec {bits}))")?;
        for &rule in in_force(self.0) {
            let formula = Formula { rule, bits };
            if rule.sense == 0 {
                writeln!(f, "(assert {formula})")?;
            } else {
                writeln!(f, "(assert (not {formula}))")?;
            }
        }
        writeln!(f, "(check-sat)")
    }
}
