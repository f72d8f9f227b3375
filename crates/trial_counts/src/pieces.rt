// A listing in pieces, each from one above the last word written, compared with the words that are expected.
use crate::seen::Seen;
use sheet::Sheet;

/// The most words that are looked at: all of 8 bits.
pub const WORDS: usize = 256;

/// The most numbers that are lent: one more, so that one stays as it was.
pub const ROOM: usize = WORDS + 1;

/// What a lent number is before the call. The top word of 64 bits would not do: a listing has it.
pub const UNTOUCHED: u64 = 0x5ad5_c0de_2b1f_93a7;

/// The sizes of pieces, and how many words pieces of all of them take.
pub const SIZES: [usize; 5] = [0, 1, 2, 3, 7];

pub const MIXED: usize = 13;

/// Words that fit from a start on, up to a top word: all that there are, or as many as the pieces take.
#[derive(Clone, Copy)]
pub struct Words<'a> {
    pub list: &'a [u64],
    pub top: u64,
}

// Where a listing stands: the next start, and the words that are still to be listed.
#[derive(Clone, Copy)]
struct Place<'a> {
    pub start: u64,
    pub rest: &'a [u64],
}

/// The words from 0 on in pieces of one size, up to the end. Where the size is 0, one piece: it writes nothing, and the start stays.
pub fn alike(sheet: Sheet, words: Words, room: usize) -> Seen {
    let mut seen = Seen::none();
    let mut place = Place::first(words, 0);
    for _ in 0..ROOM {
        seen = seen.plus(place.piece(sheet, room));
        let Some(next) = place.after(words.top, room) else {
            break;
        };
        if room == 0 {
            break;
        }
        place = next;
    }
    seen
}

/// The words from a start on in pieces of 0, 1, 2, 3 and 7, one after another.
pub fn mixed(sheet: Sheet, words: Words, start: u64) -> Seen {
    let mut seen = Seen::none();
    let mut place = Place::first(words, start);
    for room in SIZES {
        seen = seen.plus(place.piece(sheet, room));
        let Some(next) = place.after(words.top, room) else {
            break;
        };
        place = next;
    }
    seen
}

/// One piece from each word on, where the words are all that fit.
pub fn from_each(sheet: Sheet, words: Words, room: usize) -> Seen {
    let mut seen = Seen::none();
    let mut rest = words.list;
    for start in 0..=words.top {
        seen = seen.plus(Place { start, rest }.piece(sheet, room));
        if let Some((first, others)) = rest.split_first() {
            if *first == start {
                rest = others;
            }
        }
    }
    seen
}

/// All words from a start on in one piece.
pub fn at_once(sheet: Sheet, words: Words, start: u64) -> Seen {
    Place::first(words, start).piece(sheet, WORDS)
}

/// Whether a listing from the top word on, the last that fits, writes that word where there is room, and nothing else.
pub fn only(sheet: Sheet, top: u64, room: usize) -> bool {
    let place = Place {
        start: top,
        rest: &[top],
    };
    place.piece(sheet, room).lists.differ == 0
}

/// Whether no number of the buffer was touched.
pub fn untouched(out: &[u64]) -> bool {
    out.iter().all(|number| *number == UNTOUCHED)
}

impl<'a> Place<'a> {
    fn first(words: Words<'a>, start: u64) -> Place<'a> {
        Place {
            start,
            rest: words.list,
        }
    }

    // The words that a piece has, and those after them.
    fn parted(self, room: usize) -> (&'a [u64], &'a [u64]) {
        self.rest.split_at(self.rest.len().min(room))
    }

    // One piece: whether the buffer has its words, and all else is untouched.
    fn piece(self, sheet: Sheet, room: usize) -> Seen {
        let mut out = [UNTOUCHED; ROOM];
        let lent = room % ROOM;
        let listed = listing::list(sheet, self.start, &mut out[..lent]);
        let (words, _) = self.parted(lent);
        let right = listed.number == 0 && listed.written == words.len() && begins(&out, words);
        Seen::listed(words.len(), right)
    }

    // Where a piece leaves off, if more may come. "Nothing more" is what a piece says that is not full, and after the top word there is no
    // start.
    fn after(self, top: u64, room: usize) -> Option<Place<'a>> {
        let (words, rest) = self.parted(room);
        if words.len() < room {
            return None;
        }
        match words.last() {
            None => Some(self),
            Some(last) if *last == top => None,
            Some(last) => Some(Place {
                start: last.wrapping_add(1),
                rest,
            }),
        }
    }
}

// Whether the buffer begins with the words, and is untouched after them.
fn begins(out: &[u64], words: &[u64]) -> bool {
    match out.strip_prefix(words) {
        Some(after) => untouched(after),
        None => false,
    }
}
