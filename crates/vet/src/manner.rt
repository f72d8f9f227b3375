// What the program writes, by its argument.

use sheet::Sheet;
use std::io::Result;
use std::rt::Env;
use telling::printing::Told;

/// Answers in words, or as objects of JSON; or, at the end of the input, the rules in force for another tool, and no answers; or what is
/// found of a chain. An enum and no trait: the five are all there are, and which one it is an argument says as the program runs.
#[derive(Clone, Copy, PartialEq, Eq)]
pub enum Manner {
    Words,
    Objects,
    Smt,
    Frames,
    Check,
}

impl Manner {
    // As many letters as the longest argument has: a longer one is none of them.
    const LETTERS: usize = 6;

    /// The manner that the program's argument names; words, where there is none.
    pub fn wanted(rt: &impl Env) -> Manner {
        let mut text = [0; Manner::LETTERS];
        match rt.arg(1, &mut text) {
            Ok(n) => Manner::named(&text[..n]),
            Err(_) => Manner::Words,
        }
    }

    fn named(text: &[u8]) -> Manner {
        match text {
            b"json" => Manner::Objects,
            b"smt" => Manner::Smt,
            b"frames" => Manner::Frames,
            b"check" => Manner::Check,
            _ => Manner::Words,
        }
    }

    /// Answers a line, where lines are answered.
    pub fn answer(self, rt: &impl Print, told: Told<'_>) -> Result<()> {
        match self {
            Manner::Words => telling::tell(rt, told),
            Manner::Objects => telling::objects::tell(rt, told),
            _ => Ok(()),
        }
    }

    /// Writes the rules in force, where they are wanted and a sheet is open.
    pub fn write_out(self, rt: &impl Print, sheet: Sheet) -> Result<()> {
        if sheet.width == 0 {
            return Ok(());
        }
        match self {
            Manner::Smt => telling::outward::smt(rt, sheet),
            Manner::Frames => telling::outward::frames(rt, sheet),
            _ => Ok(()),
        }
    }
}
