// The functions that the documents show to whoever writes a crate of his own, run on the paper's numbers.
#![tactic(auto)]

mod batch_call;
mod lab;
mod power;
mod share;
mod words;

use rule::Rule;

fn main() {
    let sums = rule(3, 5, 3);
    let bits = rule(7, 12, 4);
    said(
        b"a word of 4 bits fits both rules of case 8: ",
        batch_call::fit(sums, bits),
    );
    said(
        b"a word of 4 bits fits the first of them twice: ",
        batch_call::fit(sums, sums),
    );
    said(
        b"the paper's links show that none does: ",
        lab::shown(sums, bits, &[0, 10, 0, 11, 15, 255]),
    );
    said(
        b"the same with one word left out: ",
        lab::shown(sums, bits, &[0, 10, 0, 12, 15, 255]),
    );
    let mut first = [0; 4];
    let both = share::share(sums, rule(6, 0, 0), &mut first);
    number(
        b"words of 64 bits that fit the first and are 0: ",
        both.remainder,
    );
    let free = share::share(sums, sums, &mut first);
    number(b"words of 64 bits that fit the first: ", free.remainder);
    number(b"the first of them: ", first[0]);
    said(
        b"some reading lies from 5.5 to 20 watts: ",
        power::some_reading(5.5, 20.0),
    );
    said(
        b"some reading lies from 20 to 5.5 watts: ",
        power::some_reading(20.0, 5.5),
    );
    let flags = words::flags();
    number(b"the flags are from ", flags.low);
    number(b"to ", flags.high);
}

fn rule(form: u64, c1: u64, c2: u64) -> Rule {
    Rule {
        form,
        sense: 0,
        c1,
        c2,
    }
}

fn said(what: &[u8], yes: bool) {
    io::write_all(1, what);
    if yes {
        io::write_all(1, b"yes\n");
    } else {
        io::write_all(1, b"no\n");
    }
}

fn number(what: &[u8], n: u64) {
    io::write_all(1, what);
    io::print_decimal(1, n);
    io::write_all(1, b"\n");
}
