// A frame's call, made on a slate.

ghost use Rattle.std.specs.Prelude.{◌≡◌, length};
ghost use Rattle.rule.specs.Meaning.{RULES};
ghost use Rattle.chain.specs.Links.{chain_room};
ghost use Rattle.frame.specs.Calls.{call_of};
ghost use Rattle.sheet.specs.slate.route.Held.{Held};
ghost use Rattle.sheet.specs.route.Held.{packed};
ghost use Rattle.desk.specs.frame_call.route.Comes.{ComesTo};

use crate::told::{Called, Told, numbered};
use frame::Frame;
use rule::Rule;
use search::rows::NUMBERS;
use sheet::slate::Head;
use sheet::{Sheet, laid};

// The refusal of a line that is no frame.
const NO_FRAME: u64 = 10;

// Makes a frame's call. What is no frame comes to 10, and no call is made.
pub fn call(
    head: Head,
    rows: &mut [[u64; NUMBERS]; Rule::LIMIT],
    marks: &mut [usize; Sheet::MARKS],
    chain: &mut [u64; Sheet::LENT],
    frame: Frame,
) -> Called
    requires held { Held head rows.old marks.old }
    requires chain_len { length chain.old ≡ chain_room RULES }
    ensures { ComesTo (packed head rows.old marks.old) chain.old (call_of frame) result rows.new marks.new chain.new }
{
    match frame {
        Frame::Open(opening) => numbered(laid::open(head, rows, marks, opening)),
        Frame::Add(edition, rule) => numbered(laid::add(head, rows, marks, edition, rule)),
        Frame::Mark => numbered(laid::mark(head, rows, marks)),
        Frame::Back => numbered(laid::back(head, rows, marks)),
        Frame::Ask => Called {
            head,
            told: Told::Asking(laid::ask(head, rows, chain)),
        },
        Frame::Forward => numbered(laid::forward(head, rows, marks)),
        Frame::NoFrame => Called {
            head,
            told: Told::Number(NO_FRAME),
        },
    }
}
