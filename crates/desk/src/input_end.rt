// The end of the input, on a slate: the last line, which may lack its byte 10.

ghost use Rattle.std.specs.Prelude.{◌≡◌, ◌≤◌, length};
ghost use Rattle.rule.specs.Meaning.{RULES};
ghost use Rattle.chain.specs.Links.{chain_room};
ghost use Rattle.frame.specs.fields.Answers.{ROOM};
ghost use Rattle.frame.specs.exchange.route.Statements.{Finished};
ghost use Rattle.sheet.specs.slate.route.Held.{Held};
ghost use Rattle.desk.specs.feed.route.Statements.{desk_of};

use crate::feed::State;
use frame::Frame;
use rule::Rule;
use search::rows::NUMBERS;
use sheet::Sheet;

// At the end of the input: a line that is begun ends as with a byte 10. Says how many bytes were written.
#[tactic(auto, using(crate::proofs::input_end::Ends::no_answer))]
pub fn finish(
    state: State,
    rows: &mut [[u64; NUMBERS]; Rule::LIMIT],
    marks: &mut [usize; Sheet::MARKS],
    chain: &mut [u64; Sheet::LENT],
    out: &mut [u8],
) -> usize
    requires held { Held state.head rows.old marks.old }
    requires chain_len { (length chain.old ≡ chain_room RULES) × (ROOM ≤ length out.old) }
    ensures { Finished (desk_of state rows.old marks.old) out.old out.new result }
{
    let begun = state.begun;
    let is_empty = begun.len == 0;
    if is_empty {
        return 0;
    }
    let last = [Frame::NEWLINE; 1];
    crate::feed::feed(state, rows, marks, chain, &last, out).written
}
