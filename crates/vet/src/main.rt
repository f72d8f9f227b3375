// Sheets as people write them: lines on standard input, answers in words on standard output, up to the first mistake. docs/VET.md says what a
// line may say. With the argument `json` answers are objects; with `smt` or `frames` no line is answered, and at the end the rules in force are
// written for other tools; with `check` what is found of the chain on descriptor 7 is said.
//
// At its end the program writes its status as a digit to descriptor 3, where the script `vet` reads it, and tells it from how the program itself
// ended. 0: all was answered; 1: a read or a write failed; 2: a mistake. For a chain 0: yes; 1: no; 2: a mistake, or a read or a write failed.
#![tactic(auto)]

pub mod checking;
mod feeding;
pub mod gathering;
mod lines;
mod manner;
pub mod status;

use feeding::Run;
use manner::Manner;

// Where the status goes: no `ExitCode`, since what the program does may not change.
const STATUS: i32 = 3;

fn main(rt: HostRuntime) {
    let mut run = Run::start(Manner::wanted(&rt));
    let status = run.answer_all(&rt);
    io::print_decimal(STATUS, u64::from(status));
}
