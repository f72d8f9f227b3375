// How many lists of each kind were compared, by the answer, and how many answers differ.
use crate::trial_links::changed::Change;
use std::fmt;
use trial::trial_tally::{Count, Split, Tally};

/// The sheets, by whether no word fits or some word does; the chain of each sheet, by how it is changed; the chain on the sheet without
/// its last rule, and on a record that is no sheet; and a drawn list on a sheet that a word fits.
#[derive(Clone, Copy, Debug)]
pub struct Counts {
    pub none: u64,
    pub some: u64,
    pub changed: [Split; 7],
    pub other: Split,
    pub no_sheet: Split,
    pub fitting: Split,
}

impl Counts {
    /// Nothing counted yet.
    pub fn zero() -> Counts {
        Counts {
            none: 0,
            some: 0,
            changed: [Split::none(); 7],
            other: Split::none(),
            no_sheet: Split::none(),
            fitting: Split::none(),
        }
    }

    /// The comparisons of all kinds.
    pub fn joined(&self) -> Tally {
        let changed: Split = self.changed.into_iter().sum();
        changed
            .plus(self.other)
            .plus(self.no_sheet)
            .plus(self.fitting)
            .joined()
    }

    /// The lines of the program's output.
    pub fn print(&self, rt: &impl Print) {
        let _ = println!(rt; "sheets {} none, {} one or many", self.none, self.some);
        for (change, split) in Change::ALL.iter().zip(self.changed) {
            let _ = println!(rt; "{} {}", change.name(), Answers(split));
        }
        let _ = println!(rt; "other {}", Answers(self.other));
        let _ = println!(rt; "no sheet {}", Answers(self.no_sheet));
        let _ = println!(rt; "fitting {}", Answers(self.fitting));
    }
}

// Lists by the answer to each: the first kind is yes, and the second no.
#[derive(Clone, Copy)]
struct Answers(Split);

impl fmt::Display for Answers {
    fn fmt<W: fmt::Write>(&self, f: &mut fmt::Formatter<W>) -> fmt::Result {
        let Split {
            first,
            second,
            differ,
            ..
        } = self.0;
        let all = self.0.joined().compared;
        write!(
            f,
            "{all} compared: {first} yes, {second} no, {differ} differ"
        )
    }
}
