// The exchange on a slate: lines in and answers out, a part of the input at a time.

ghost use Rattle.std.specs.Prelude.{◌≡◌, length};
ghost use Rattle.rule.specs.Meaning.{RULES};
ghost use Rattle.chain.specs.Links.{chain_room};
ghost use Rattle.sheet.specs.slate.route.Held.{Held};
ghost use Rattle.desk.specs.feed.route.Statements.{FedOn, desk_of};

use crate::next_line::Next;
use frame::Frame;
use frame::exchange::Begun;
use rule::Rule;
use search::rows::NUMBERS;
use sheet::Sheet;
use sheet::slate::Head;

// What is carried from one part of the input to the next beside the arrays: the head, and the line that is not finished.
#[derive(Clone, Copy)]
pub struct State {
    pub head: Head,
    pub begun: Begun,
}

// The state after a part, how much of the part was used, and how many bytes were written.
#[derive(Clone, Copy)]
pub struct Fed {
    pub state: State,
    pub used: usize,
    pub written: usize,
}

// Takes a part of the input, line by line, while the lent buffer has room for an answer.
pub fn feed(
    state: State,
    rows: &mut [[u64; NUMBERS]; Rule::LIMIT],
    marks: &mut [usize; Sheet::MARKS],
    chain: &mut [u64; Sheet::LENT],
    part: &[u8],
    out: &mut [u8],
) -> Fed
    requires held { Held state.head rows.old marks.old }
    requires chain_len { length chain.old ≡ chain_room RULES }
    ensures fed_on { FedOn (desk_of state rows.old marks.old) part.now out.old out.new result rows.new marks.new }
    ensures chain_len_2 { length chain.new ≡ chain_room RULES }
{
    let mut head = state.head;
    let mut begun = state.begun;
    let mut used = 0;
    let mut written = 0;
    while used < part.len() {
        if out.len() - written < Frame::ROOM {
            break;
        }
        match crate::next_line::take(begun, part, used) {
            Next::Rest => {
                begun = begun.with(&part[used..]);
                used = part.len();
            }
            Next::Line(frame, next) => {
                let after = crate::answer::answer(head, rows, marks, chain, frame, out, written);
                head = after.head;
                begun = Begun::none();
                used = next;
                written = after.end;
            }
        }
    }
    Fed {
        state: State { head, begun },
        used,
        written,
    }
}
