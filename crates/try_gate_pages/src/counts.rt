// The calls of sequences: gates by the number that they get, and the others.
use trial::trial_tally::{Split, Tally};

/// Gates that are accepted, and those refused: on the blank sheet, for its width, for a limit, and for want of room; and other calls.
#[derive(Clone, Copy)]
pub struct Counts {
    accepted: Tally,
    blank: Tally,
    width: Tally,
    limit: Tally,
    room: Tally,
    others: Split,
}

impl Counts {
    pub fn none() -> Counts {
        Counts {
            accepted: Tally::none(),
            blank: Tally::none(),
            width: Tally::none(),
            limit: Tally::none(),
            room: Tally::none(),
            others: Split::none(),
        }
    }

    /// One gate more, that gets a number.
    pub fn gate(&mut self, number: u64, same: bool) {
        let one = Tally::one(same);
        match number {
            0 => self.accepted = self.accepted.plus(one),
            1 => self.blank = self.blank.plus(one),
            13 => self.width = self.width.plus(one),
            14 => self.limit = self.limit.plus(one),
            _ => self.room = self.room.plus(one),
        }
    }

    /// One other call more.
    pub fn other(&mut self, number: u64, same: bool) {
        let kind = if number == 0 { 0 } else { 1 };
        self.others = self.others.plus(Split::one(kind, same));
    }

    pub fn tell(self, rt: &impl Print) {
        let _ = println!(rt; "accepted {}", self.accepted);
        let _ = println!(rt; "blank {}", self.blank);
        let _ = println!(rt; "width {}", self.width);
        let _ = println!(rt; "limit {}", self.limit);
        let _ = println!(rt; "room {}", self.room);
        let _ = println!(rt; "others {}", self.others.joined());
        let _ = println!(rt;
            "others {} accepted, {} refused",
            self.others.first, self.others.second
        );
    }
}
