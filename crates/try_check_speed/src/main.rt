// Checks a list of 100,000 links on a full sheet of 32 bits ten times, so that the time can be taken: a million links. The list is the
// sheet's chain again and again, which K3 allows: a link may start anywhere in what is covered.
#![tactic(auto)]

use rule::Rule;
use sheet::Sheet;
use trial_calls::sheets;

const NUMBERS: usize = 300000;

const TIMES: u64 = 10;

fn main(rt: HostRuntime) {
    let sheet = full();
    let mut chain = [0; Sheet::LENT];
    let links = sheet.ask(&mut chain).links;
    let mut list = [0; NUMBERS];
    if links <= Rule::LIMIT {
        repeat(&chain[..3 * links], &mut list);
    }
    let yes = (0..TIMES)
        .filter(|_| checker::accepts(sheet, &list))
        .count();
    let _ = println!(rt; "{yes} times yes");
}

// A sheet with no place free, which no word fits: each rule fails a part of the words.
fn full() -> Sheet {
    trial_calls::trial_lists::parts().into_iter().fold(
        sheets::opened(32),
        |sheet, rule| sheets::added(sheet, rule),
    )
}

// The links of a chain, over and over.
fn repeat(chain: &[u64], out: &mut [u64; NUMBERS]) {
    for (place, number) in out.iter_mut().zip(chain.iter().cycle()) {
        *place = *number;
    }
}
