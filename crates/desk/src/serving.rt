// A part of the input, answered and its answers written.

ghost use Rattle.std.specs.Prelude.{◌≡◌, true, ◌≤◌, length};
ghost use Rattle.rule.specs.Meaning.{RULES};
ghost use Rattle.chain.specs.Links.{chain_room};
ghost use Rattle.frame.specs.fields.Answers.{ROOM};
ghost use Rattle.sheet.specs.slate.route.Held.{Held};
ghost use Rattle.desk.specs.feed.route.Statements.{desk_of};
ghost use Rattle.desk.specs.serving.Passed.{Passed};

use crate::feed::State;
use rule::Rule;
use search::rows::NUMBERS;
use sheet::Sheet;
use std::io::Print;

// The state after a part of the input, and whether its answers were taken.
#[derive(Clone, Copy)]
pub struct Served {
    pub state: State,
    pub taken: bool,
}

// Answers a part of the input, with a write each time that the buffer is full and one at the end.
pub fn serve(
    rt: &impl Print,
    state: State,
    rows: &mut [[u64; NUMBERS]; Rule::LIMIT],
    marks: &mut [usize; Sheet::MARKS],
    chain: &mut [u64; Sheet::LENT],
    part: &[u8],
    out: &mut [u8],
) -> Served
    requires held { Held state.head rows.old marks.old }
    requires chain_len { (length chain.old ≡ chain_room RULES) × (ROOM ≤ length out.old) }
    ensures passed { result.taken ≡ true → Passed (desk_of state rows.old marks.old) part.now (desk_of result.state rows.new marks.new) }
    ensures held_2 { Held result.state.head rows.new marks.new × (length chain.new ≡ chain_room RULES) }
{
    let mut state = state;
    let mut at = 0;
    while at < part.len() {
        let fed = crate::feed::feed(state, rows, marks, chain, &part[at..], out);
        let written = fed.written;
        state = fed.state;
        at = at + fed.used;
        let sent = coming::send(rt, &out[..written]);
        if sent.count < written {
            return Served {
                state,
                taken: false,
            };
        }
    }
    Served { state, taken: true }
}
