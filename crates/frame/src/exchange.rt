// The exchange of lines and answers, a part of the input at a time: what is held of a line that is cut, and what feeding a part
// promises. Where a line ends stands in `input_line`, and is handed on here.

mod holding;

use crate::Frame;
pub use crate::input_line::line_at;

// A line that is not finished: as many of its first bytes as tell which frame it is. Where it has more bytes than a frame,
// one more than those is kept.
#[derive(Clone, Copy)]
pub struct Begun {
    pub bytes: [u8; Begun::HELD],
    pub len: usize,
}

impl Begun {
    pub const HELD: usize = Frame::LONGEST + 1;
}
