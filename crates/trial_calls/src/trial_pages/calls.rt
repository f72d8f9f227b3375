// The desk at a call that the clerk writes down.
use sheet::{Answer, Call, Sheet};

pub fn made(sheet: Sheet, call: Call) -> Answer {
    match call {
        Call::Open(opening) => sheet.open(opening),
        Call::Add(edition, rule) => sheet.add(edition, rule),
        Call::Mark => sheet.mark(),
        Call::Back => sheet.back(),
        Call::Forward => sheet.forward(),
    }
}
