// Lines of hexadecimal: which frame a line is. How an answer is written stands in `fields`, and is handed on here.
#![tactic(auto)]

pub mod exchange;
pub mod fields;
pub mod frame_numbers;
pub mod input_line;
pub mod parts;
mod reading;

pub use crate::fields::{Field, kept_line, put_line, put_links, put_number};
use chain::Link;
use page::Opening;
pub use reading::decode;
use rule::Rule;
use word::Edition;

// What a line asks for. An opening and an add are frames of an edition.
#[derive(Clone, Copy)]
pub enum Frame {
    Open(Opening),
    Add(Edition, Rule),
    Mark,
    Back,
    Ask,
    Forward,
    NoFrame,
}

impl Frame {
    // What ends a line.
    pub const NEWLINE: u8 = Field::NEWLINE;

    // The digits of a code, and of every number that is no word.
    pub const BYTE: usize = Field::BYTE;

    // The most digits that a frame has: those of an add, where words have the most.
    pub const LONGEST: usize = 3 * Frame::BYTE + 2 * Edition::DIGITS;

    // The most bytes of a line on the verdict or on a link.
    pub const LINE: usize = 2 * Frame::BYTE + 2 * Edition::DIGITS + 1;

    // How long an answer can be: a line on the verdict, and one for each link.
    pub const ROOM: usize = Frame::LINE * (Link::MOST + 1);
}
