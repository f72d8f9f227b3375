// Parts of the input, read and answered one after the other.

ghost use Rattle.std.specs.Prelude.{◌≡◌, ◌≤◌, length};
ghost use Rattle.rule.specs.Meaning.{RULES};
ghost use Rattle.chain.specs.Links.{chain_room};
ghost use Rattle.frame.specs.fields.Answers.{ROOM};
ghost use Rattle.sheet.specs.slate.route.Held.{Held, Room};
ghost use Rattle.desk.specs.turns.Turns.{Stops};

use crate::feed::State;
use crate::one_turn::take_turn;
use crate::turn::Turn;
use coming::Came;
use frame::exchange::Begun;
use rule::Rule;
use search::rows::NUMBERS;
use sheet::{Sheet, laid};

// The last turn, and how many turns there were.
#[derive(Clone, Copy)]
pub struct Talk {
    pub turn: Turn,
    pub turns: u64,
}

// Turn after turn, until the input ends, or a read or a write fails. The first turn comes as after a read that was interrupted.
pub fn converse(
    rt: &HostRuntime,
    rows: &mut [[u64; NUMBERS]; Rule::LIMIT],
    marks: &mut [usize; Sheet::MARKS],
    chain: &mut [u64; Sheet::LENT],
    out: &mut [u8],
) -> Talk
    requires room { Room rows.old marks.old }
    requires chain_len { (length chain.old ≡ chain_room RULES) × (ROOM ≤ length out.old) }
    ensures stops { Stops result rows.new marks.new }
    ensures held { Held result.turn.state.head rows.new marks.new × (length chain.new ≡ chain_room RULES) }
{
    let mut input = io::large_buffer();
    let head = laid::lay_out(Sheet::blank(), rows, marks);
    let begun = Begun::none();
    let first = Turn {
        state: State { head, begun },
        came: Came::Interrupted,
        taken: true,
    };
    let mut turn = first;
    let mut turns = 0;
    while turn.goes_on(turns) {
        turn = take_turn(rt, turn, rows, marks, chain, &mut input, out);
        turns += 1;
    }
    Talk { turn, turns }
}
