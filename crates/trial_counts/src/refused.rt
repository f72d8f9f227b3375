// Counts and listings that are refused.
use crate::pieces::{ROOM, UNTOUCHED, untouched};
use sheet::Sheet;

/// Whether counting is refused with the number, with zeros beside it.
pub fn count_refused(sheet: Sheet, number: u64) -> bool {
    let share = counting::count(sheet);
    share.number == number && share.quotient == 0 && share.remainder == 0
}

/// Whether listing is refused with the number, and touches no number lent.
pub fn list_refused(sheet: Sheet, start: u64, room: usize, number: u64) -> bool {
    let mut out = [UNTOUCHED; ROOM];
    let lent = room % ROOM;
    let listed = listing::list(sheet, start, &mut out[..lent]);
    listed.number == number && listed.written == 0 && untouched(&out)
}
