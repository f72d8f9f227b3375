// One turn: a read, and what it brought answered.

ghost use Rattle.std.specs.Prelude.{◌≡◌, ◌≤◌, length};
ghost use Rattle.rule.specs.Meaning.{RULES};
ghost use Rattle.chain.specs.Links.{chain_room};
ghost use Rattle.frame.specs.fields.Answers.{ROOM};
ghost use Rattle.sheet.specs.slate.route.Held.{Held};
ghost use Rattle.desk.specs.feed.route.Statements.{desk_of};
ghost use Rattle.desk.specs.one_turn.Turned.{Turned};

use crate::turn::Turn;
use rule::Rule;
use search::rows::NUMBERS;
use sheet::Sheet;

// One read after the last turn, and what is read is answered before the next, so that a conversation can be held.
pub fn take_turn(
    rt: &HostRuntime,
    last: Turn,
    rows: &mut [[u64; NUMBERS]; Rule::LIMIT],
    marks: &mut [usize; Sheet::MARKS],
    chain: &mut [u64; Sheet::LENT],
    input: &mut [u8],
    out: &mut [u8],
) -> Turn
    requires held { Held last.state.head rows.old marks.old }
    requires chain_len { (length chain.old ≡ chain_room RULES) × (ROOM ≤ length out.old) }
    ensures turned { Turned (desk_of last.state rows.old marks.old) input.new result rows.new marks.new }
    ensures held_2 { Held result.state.head rows.new marks.new × (length chain.new ≡ chain_room RULES) }
{
    let heard = crate::one_read::listen(rt, input);
    let n = heard.count;
    let served = crate::serving::serve(rt, last.state, rows, marks, chain, &input[..n], out);
    let after = served.state;
    Turn {
        state: after,
        came: heard.came,
        taken: served.taken,
    }
}
