// The paper's sheets worked by hand, in one table for all that try them. (Case 13 is of refusals, and no sheet.)
ghost use Rattle.std.specs.Prelude.{◌<◌};
ghost use Rattle.trial.specs.trial_direct.Trial.{ROWS};

use rule::Rule;

/// The words from one to another, and why they fail: a rule's number, or 255.
#[derive(Clone, Copy, Debug)]
pub struct Link {
    pub from: u64,
    pub to: u64,
    pub reason: u64,
}

/// A sheet and what the paper says of it. Bit x of the words says whether x fits.
#[derive(Clone, Copy)]
pub struct Case {
    pub bits: u64,
    pub rules: &'static [Rule],
    pub words: u64,
    pub verdict: u64,
    pub smallest: u64,
    pub largest: u64,
    pub links: &'static [Link],
}

/// How many rows there are.
pub const ROWS: usize = 15;

/// The row of case 2, the first that has a rule, and of case 8, which has two links.
pub const CASE2: usize = 2;

pub const CASE8: usize = 9;

/// Cases 1 to 12 at width 4, case 1 at width 1 before them. Case 3 stands as written and negated, and at width 32 last.
pub const CASES: [Case; ROWS] = [
    // Case 1, at width 1.
    Case {
        bits: 1,
        rules: &[],
        words: 0x3,
        verdict: 2,
        smallest: 0,
        largest: 1,
        links: &[],
    },
    // Case 1.
    Case {
        bits: 4,
        rules: &[],
        words: 0xffff,
        verdict: 2,
        smallest: 0,
        largest: 15,
        links: &[],
    },
    // Case 2.
    Case {
        bits: 4,
        rules: &[Rule {
            form: 3,
            sense: 0,
            c1: 5,
            c2: 3,
        }],
        words: 0x7800,
        verdict: 2,
        smallest: 11,
        largest: 14,
        links: &[],
    },
    // Case 3.
    Case {
        bits: 4,
        rules: &[Rule {
            form: 1,
            sense: 0,
            c1: 0,
            c2: 1,
        }],
        words: 0x7fff,
        verdict: 2,
        smallest: 0,
        largest: 14,
        links: &[],
    },
    // Case 3, negated.
    Case {
        bits: 4,
        rules: &[Rule {
            form: 1,
            sense: 1,
            c1: 0,
            c2: 1,
        }],
        words: 0x8000,
        verdict: 1,
        smallest: 15,
        largest: 15,
        links: &[],
    },
    // Case 4.
    Case {
        bits: 4,
        rules: &[Rule {
            form: 1,
            sense: 0,
            c1: 0,
            c2: 0,
        }],
        words: 0xffff,
        verdict: 2,
        smallest: 0,
        largest: 15,
        links: &[],
    },
    // Case 5.
    Case {
        bits: 4,
        rules: &[Rule {
            form: 3,
            sense: 0,
            c1: 0,
            c2: 15,
        }],
        words: 0xffff,
        verdict: 2,
        smallest: 0,
        largest: 15,
        links: &[],
    },
    // Case 6.
    Case {
        bits: 4,
        rules: &[
            Rule {
                form: 4,
                sense: 0,
                c1: 3,
                c2: 0,
            },
            Rule {
                form: 5,
                sense: 0,
                c1: 13,
                c2: 0,
            },
        ],
        words: 0xe00f,
        verdict: 2,
        smallest: 0,
        largest: 15,
        links: &[],
    },
    // Case 7.
    Case {
        bits: 4,
        rules: &[
            Rule {
                form: 3,
                sense: 0,
                c1: 5,
                c2: 3,
            },
            Rule {
                form: 7,
                sense: 0,
                c1: 3,
                c2: 3,
            },
        ],
        words: 0x0800,
        verdict: 1,
        smallest: 11,
        largest: 11,
        links: &[],
    },
    // Case 8.
    Case {
        bits: 4,
        rules: &[
            Rule {
                form: 3,
                sense: 0,
                c1: 5,
                c2: 3,
            },
            Rule {
                form: 7,
                sense: 0,
                c1: 12,
                c2: 4,
            },
        ],
        words: 0,
        verdict: 0,
        smallest: 0,
        largest: 0,
        links: &[
            Link {
                from: 0,
                to: 10,
                reason: 0,
            },
            Link {
                from: 11,
                to: 15,
                reason: 255,
            },
        ],
    },
    // Case of two rules of form 7 that contradict each other, in the place of case 9, a refusal.
    Case {
        bits: 4,
        rules: &[
            Rule {
                form: 7,
                sense: 0,
                c1: 1,
                c2: 1,
            },
            Rule {
                form: 7,
                sense: 0,
                c1: 1,
                c2: 0,
            },
        ],
        words: 0,
        verdict: 0,
        smallest: 0,
        largest: 0,
        links: &[Link {
            from: 0,
            to: 15,
            reason: 255,
        }],
    },
    // Case 10.
    Case {
        bits: 4,
        rules: &[
            Rule {
                form: 6,
                sense: 0,
                c1: 9,
                c2: 0,
            },
            Rule {
                form: 6,
                sense: 1,
                c1: 9,
                c2: 0,
            },
        ],
        words: 0,
        verdict: 0,
        smallest: 0,
        largest: 0,
        links: &[
            Link {
                from: 0,
                to: 8,
                reason: 0,
            },
            Link {
                from: 9,
                to: 9,
                reason: 1,
            },
            Link {
                from: 10,
                to: 15,
                reason: 0,
            },
        ],
    },
    // Case 11.
    Case {
        bits: 4,
        rules: &[
            Rule {
                form: 3,
                sense: 0,
                c1: 0,
                c2: 2,
            },
            Rule {
                form: 3,
                sense: 0,
                c1: 0,
                c2: 2,
            },
            Rule {
                form: 2,
                sense: 0,
                c1: 3,
                c2: 0,
            },
        ],
        words: 0,
        verdict: 0,
        smallest: 0,
        largest: 0,
        links: &[
            Link {
                from: 0,
                to: 2,
                reason: 2,
            },
            Link {
                from: 3,
                to: 15,
                reason: 0,
            },
        ],
    },
    // Case 12.
    Case {
        bits: 4,
        rules: &[Rule {
            form: 8,
            sense: 0,
            c1: 14,
            c2: 3,
        }],
        words: 0x003e,
        verdict: 2,
        smallest: 1,
        largest: 5,
        links: &[],
    },
    // Case 3, negated, at width 32, where the words are too many to be said.
    Case {
        bits: 32,
        rules: &[Rule {
            form: 1,
            sense: 1,
            c1: 0,
            c2: 1,
        }],
        words: 0,
        verdict: 1,
        smallest: 0xffff_ffff,
        largest: 0xffff_ffff,
        links: &[],
    },
];

/// The case of a row.
pub fn at(row: usize) -> Case
    requires { row < ROWS }
{
    CASES[row]
}

/// A rule of a case, or what stands at a place that no rule has taken.
pub fn rule_at(rules: &[Rule], i: usize) -> Rule {
    rules.get(i).copied().unwrap_or(Rule::NONE)
}

impl Link {
    /// The numbers of a link, as a buffer has them.
    pub fn numbers(self) -> [u64; 3] {
        [self.from, self.to, self.reason]
    }
}
