// The next line of a part of the input, and the frame that it is where it ends there.

ghost use Rattle.std.specs.Prelude.{◌≡◌, ◌≤◌, length};
ghost use Rattle.desk.specs.next_line.route.Next.{next_of};

use frame::Frame;
use frame::exchange::Begun;

// A line that ends in the part, with its frame and the place after it; or the rest of the part, where it goes on in the next one.
#[derive(Clone, Copy)]
pub enum Next {
    Line(Frame, usize),
    Rest,
}

// What comes next, from a place of the part on, where some of the line may have come before.
#[tactic(auto, using(crate::proofs::next_line::SearchTake::wanted), unfolding(crate::specs::next_line::route::Next::next_of))]
pub fn take(begun: Begun, part: &[u8], used: usize) -> Next
    requires { used ≤ length part.now }
    ensures { result ≡ next_of begun part.now used }
{
    let line = frame::exchange::line_at(part, used);
    let end = used + line.len();
    if end == part.len() {
        return Next::Rest;
    }
    Next::Line(begun.frame(line), end + 1)
}
