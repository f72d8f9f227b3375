// The span of an operation block by block, for words of any width. An interval is made of blocks, each of all words that have the
// same bits but for their lowest, which are free. Over two blocks the smallest and the largest result are plain: a free bit is set
// or clear as one likes. It shares no code with what is tried.
use crate::trial_spans::words;
use span::{Interval, Op};

// The most blocks that an interval needs: two of each size.
const BLOCKS: usize = 2 * 64;

// The words from the first on that differ from it in free bits alone.
#[derive(Clone, Copy)]
struct Block {
    pub first: u64,
    pub free: u64,
}

impl Block {
    // The largest block that starts at a word and stays within high.
    fn largest(first: u64, high: u64) -> Block {
        let room = high.wrapping_sub(first);
        let free = (room.leading_zeros()..u64::BITS)
            .map(|k| u64::MAX >> k)
            .find(|ones| first & ones == 0 && *ones <= room);
        Block {
            first,
            free: free.unwrap_or(0),
        }
    }

    fn last(self) -> u64 {
        self.first | self.free
    }
}

// The blocks of an interval, one after the other.
#[derive(Clone, Copy)]
struct Blocks {
    pub next: Option<Block>,
    pub high: u64,
}

impl Blocks {
    fn of(i: Interval) -> Blocks {
        Blocks {
            next: Some(Block::largest(i.low, i.high)),
            high: i.high,
        }
    }
}

impl Iterator for Blocks {
    type Item = Block;

    fn next(&mut self) -> Option<Block> {
        let block = self.next?;
        self.next = if block.last() < self.high {
            Some(Block::largest(block.last().wrapping_add(1), self.high))
        } else {
            None
        };
        Some(block)
    }
}

/// What the operation makes of all blocks of x with all of y.
pub fn span(op: Op, top: u64, x: Interval, y: Interval) -> Interval {
    let mut wide = words::NONE;
    for a in Blocks::of(x).take(BLOCKS) {
        for b in Blocks::of(y).take(BLOCKS) {
            wide = words::widened(wide, least(op, top, a, b));
            wide = words::widened(wide, most(op, top, a, b));
        }
    }
    wide
}

// The smallest result of two blocks: of an XOR, a bit that is free in one of them cancels that of the other.
fn least(op: Op, top: u64, a: Block, b: Block) -> u64 {
    let free = a.free | b.free;
    match op {
        Op::Not => a.last() ^ top,
        Op::And => a.first & b.first,
        Op::Or => a.first | b.first,
        Op::Xor => (a.first ^ b.first | free) ^ free,
    }
}

// The largest.
fn most(op: Op, top: u64, a: Block, b: Block) -> u64 {
    match op {
        Op::Not => a.first ^ top,
        Op::And => a.last() & b.last(),
        Op::Or => a.last() | b.last(),
        Op::Xor => a.first ^ b.first | a.free | b.free,
    }
}
