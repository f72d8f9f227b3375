// A frame answered on a slate: one place makes its call, and one writes what the call comes to into a lent buffer, from a place on.

ghost use Rattle.std.specs.Prelude.{◌≡◌, ◌+◌, ◌≤◌, length};
ghost use Rattle.rule.specs.Meaning.{RULES};
ghost use Rattle.chain.specs.Links.{chain_room};
ghost use Rattle.frame.specs.fields.Answers.{ROOM};
ghost use Rattle.frame.specs.Calls.{call_of};
ghost use Rattle.sheet.specs.slate.route.Held.{Held};
ghost use Rattle.sheet.specs.route.Held.{packed};
ghost use Rattle.desk.specs.frame_call.Chain.{ChainLeft};
ghost use Rattle.desk.specs.answer.Statements.{FrameAnswered};

use crate::frame_call::call;
use crate::told::put;
use frame::Frame;
use rule::Rule;
use rule::bits::Fixed;
use search::rows::NUMBERS;
use sheet::Sheet;
use sheet::slate::Head;

// The head after a frame, and where its answer ends in the lent buffer.
#[derive(Clone, Copy)]
pub struct AfterFrame {
    pub head: Head,
    pub end: usize,
}

// Answers a frame. What is no frame is answered with 10, and no call is made.
pub fn answer(
    head: Head,
    rows: &mut [[u64; NUMBERS]; Rule::LIMIT],
    marks: &mut [usize; Sheet::MARKS],
    chain: &mut [u64; Sheet::LENT],
    frame: Frame,
    out: &mut [u8],
    at: usize,
) -> AfterFrame
    requires held { Held head rows.old marks.old }
    requires chain_len { (length chain.old ≡ chain_room RULES) × (at + ROOM ≤ length out.old) }
    ensures frame_answered { FrameAnswered (packed head rows.old marks.old) frame out.old at out.new result rows.new marks.new }
    ensures chain_len_2 { (length chain.new ≡ chain_room RULES) × ChainLeft (packed head rows.old marks.old) chain.old (call_of frame) chain.new }
{
    let called = call(head, rows, marks, chain, frame);
    let after = called.head;
    let opening = after.opening;
    let edition = opening.edition;
    let end = put(out, at, edition, called.told, chain);
    AfterFrame {
        head: after.found(after.stands, same(after.fixed)),
        end,
    }
}

// The same bits, put together anew: the bytes between a case's number and what it holds are else copied from call to call with the head,
// piece by piece, which takes longer than a short line.
fn same(fixed: Fixed) -> Fixed
    ensures { result ≡ fixed }
{
    match fixed {
        Fixed::Bits { mask, value } => Fixed::Bits { mask, value },
        Fixed::Clash => Fixed::Clash,
    }
}
