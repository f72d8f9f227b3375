// A line that was begun in one part of the input and goes on in the next.
ghost use Rattle.std.specs.Prelude.{◌≡◌};
ghost use Rattle.frame.specs.route.Reading.{frame_of};
ghost use Rattle.frame.specs.exchange.route.Begun.{begun_line, joined, none};

use crate::Frame;
use crate::exchange::Begun;

impl Begun {
    // No line yet.
    pub fn none() -> Begun
        ensures { result ≡ none }
    {
        Begun {
            bytes: [0; Begun::HELD],
            len: 0,
        }
    }

    // With more of the line. Bytes past those that are held change nothing.
    #[tactic(auto, using(crate::proofs::exchange::SearchBegunWith::wanted), unfolding(crate::specs::exchange::route::Begun::joined))]
    pub fn with(self, more: &[u8]) -> Begun
        ensures { result ≡ joined self more.now }
    {
        let mut begun = self;
        for i in 0..more.len() {
            let len = begun.len;
            if Begun::HELD <= len {
                return begun;
            }
            begun.bytes[len] = more[i];
            begun.len = len + 1;
        }
        begun
    }

    // The frame that the line is, where it ends with these bytes. A line that lies whole in them is read there.
    #[tactic(auto, using(crate::proofs::exchange::SearchBegunFrame::wanted))]
    pub fn frame(self, more: &[u8]) -> Frame
        ensures { result ≡ frame_of (begun_line (joined self more.now)) }
    {
        let len = self.len;
        if len == 0 {
            return crate::decode(more);
        }
        held_frame(self.with(more))
    }
}

// The frame that the bytes held are. A line of more bytes than a frame has is none.
fn held_frame(begun: Begun) -> Frame
    ensures { result ≡ frame_of (begun_line begun) }
{
    if Frame::LONGEST < begun.len {
        return Frame::NoFrame;
    }
    crate::decode(&begun.bytes[..begun.len])
}
