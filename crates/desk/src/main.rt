// The desk: frames on standard input, a line each, and answers on standard output. The sheet is laid out once, and stays so.
#![tactic(auto)]

pub mod answer;
pub mod feed;
pub mod frame_call;
pub mod input_end;
pub mod next_line;
pub mod one_read;
pub mod one_turn;
pub mod serving;
pub mod told;
pub mod turn;
pub mod turns;

use coming::Came;
use rule::Rule;
use search::rows::NUMBERS;
use sheet::Sheet;

// At the end of the input the last line is answered, which may lack its byte 10. An input that could not be read has no last line.
fn main(rt: HostRuntime) {
    let none = [0; NUMBERS];
    let mut rows = [none; Rule::LIMIT];
    let mut marks: [usize; Sheet::MARKS] = [0; Sheet::MARKS];
    let mut chain = [0; Sheet::LENT];
    let mut out = io::large_buffer();
    let talk = crate::turns::converse(&rt, &mut rows, &mut marks, &mut chain, &mut out);
    if let Came::Nothing = talk.turn.came {
        let n = crate::input_end::finish(
            talk.turn.state,
            &mut rows,
            &mut marks,
            &mut chain,
            &mut out,
        );
        coming::send(&rt, &out[..n]);
    }
}
