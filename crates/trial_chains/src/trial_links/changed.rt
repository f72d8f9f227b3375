// A list of numbers, three a link, changed at one place.

use chain::Link;

/// The numbers of a buffer: as many as a chain may take, and one link more.
pub const ROOM: usize = Link::ROOM + Link::NUMBERS;

/// What is done at a place: nothing, one number raised or lowered by one, its link left out, doubled or moved to the end, or the list cut
/// off before it.
#[derive(Clone, Copy, Debug)]
pub enum Change {
    Nothing,
    Raised,
    Lowered,
    LeftOut,
    Doubled,
    Moved,
    Cut,
}

impl Change {
    /// All of them.
    pub const ALL: [Change; 7] = [
        Change::Nothing,
        Change::Raised,
        Change::Lowered,
        Change::LeftOut,
        Change::Doubled,
        Change::Moved,
        Change::Cut,
    ];

    /// What lists that are changed so are called.
    pub fn name(self) -> &'static str {
        match self {
            Change::Nothing => "written",
            Change::Raised => "raised",
            Change::Lowered => "lowered",
            Change::LeftOut => "left out",
            Change::Doubled => "doubled",
            Change::Moved => "moved",
            Change::Cut => "cut",
        }
    }

    /// Whether it applies at a place: a number may be changed anywhere, a link where it starts, and the list as it is counts once.
    pub fn applies(self, place: usize) -> bool {
        match self {
            Change::Nothing => place == 0,
            Change::LeftOut | Change::Doubled | Change::Moved => place % 3 == 0,
            Change::Raised | Change::Lowered | Change::Cut => true,
        }
    }

    /// Writes the changed list into another. A list that does not fit is cut; at a place past its end a number is not changed.
    pub fn put<'a>(self, list: &[u64], place: usize, out: &'a mut [u64; ROOM]) -> &'a [u64] {
        let place = place.min(list.len());
        let (before, rest) = list.split_at(place - place % 3);
        let (link, after) = rest.split_at(rest.len().min(3));
        let (below, from) = list.split_at(place);
        match self {
            Change::Nothing => joined(list, &[], &[], out),
            Change::Raised => match from.split_first() {
                Some((number, later)) => joined(below, &[number.wrapping_add(1)], later, out),
                None => joined(list, &[], &[], out),
            },
            Change::Lowered => match from.split_first() {
                Some((number, later)) => joined(below, &[number.wrapping_sub(1)], later, out),
                None => joined(list, &[], &[], out),
            },
            Change::LeftOut => joined(before, after, &[], out),
            Change::Doubled => joined(before, link, rest, out),
            Change::Moved => joined(before, after, link, out),
            Change::Cut => joined(below, &[], &[], out),
        }
    }
}

// Three parts, one after another, as far as there is room.
fn joined<'a>(first: &[u64], second: &[u64], third: &[u64], out: &'a mut [u64; ROOM]) -> &'a [u64] {
    let numbers = first.iter().chain(second).chain(third);
    let mut length = 0;
    for (at, (place, number)) in out.iter_mut().zip(numbers).enumerate() {
        *place = *number;
        length = at + 1;
    }
    &out[..length.min(ROOM)]
}
