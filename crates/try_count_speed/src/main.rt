// Work to take the time of, on words of 64 bits. With the argument `counts` a full sheet is counted again and again; with `free`, `full`
// or `bits` 10,000,000 words are listed, of a sheet with no rule, of the full one or of one with 16 fixed bits. With no argument, a
// little of each. bench/words.rs prints the same lines by a plain loop over the same words.
#![tactic(auto)]

mod sheets;

use counting::Share;
use sheet::Sheet;
use std::env::Env;

const COUNTS: u64 = 10_000;

const BUFFERS: u64 = 2_500;

// The words of a buffer.
const ROOM: usize = 4_000;

// So many counts, and so many buffers: the full sheet's second run of fitting words is listed too.
const LITTLE: u64 = 15;

#[derive(Clone, Copy)]
enum Work {
    Little,
    Counts,
    Free,
    Full,
    Bits,
}

fn main(rt: HostRuntime) {
    let mut word = [0u8; 8];
    let _ = rt.arg(1, &mut word);
    match chosen(word) {
        Work::Little => little(),
        Work::Counts => count(COUNTS),
        Work::Free => list(b"free: ", sheets::free(), BUFFERS),
        Work::Full => list(b"full: ", sheets::full(), BUFFERS),
        Work::Bits => list(b"bits: ", sheets::bits(), BUFFERS),
    }
}

// By the first letters of the argument.
fn chosen(word: [u8; 8]) -> Work {
    if word[0] == b'c' {
        return Work::Counts;
    }
    if word[0] == b'b' {
        return Work::Bits;
    }
    if word[0] != b'f' {
        return Work::Little;
    }
    if word[1] == b'u' {
        return Work::Full;
    }
    Work::Free
}

fn little() {
    count(LITTLE);
    list(b"free: ", sheets::free(), LITTLE);
    list(b"full: ", sheets::full(), LITTLE);
    list(b"bits: ", sheets::bits(), LITTLE);
}

// Prints what counts of the full sheet come to.
fn count(times: u64) {
    let sums = counted(sheets::full(), times);
    io::write_all(1, b"counts: ");
    io::print_decimal(1, times);
    io::write_all(1, b" come to ");
    io::print_decimal(1, sums.quotient);
    io::write_all(1, b" * 2^32 + ");
    io::print_decimal(1, sums.remainder);
    io::write_all(1, b"\n");
}

// The quotients and the remainders of so many counts, each added up. A refusal has zeros, and shows there.
fn counted(sheet: Sheet, times: u64) -> Share {
    let mut quotient: u64 = 0;
    let mut remainder: u64 = 0;
    for _ in 0..times {
        let share = counting::count(sheet);
        quotient = std::num::wrapping_add_u64(quotient, share.quotient);
        remainder = std::num::wrapping_add_u64(remainder, share.remainder);
    }
    Share {
        number: 0,
        quotient,
        remainder,
    }
}

// Prints how many words were written, and what they come to.
fn list(name: &[u8], sheet: Sheet, buffers: u64) {
    let sums = listed(sheet, buffers);
    io::write_all(1, name);
    io::print_decimal(1, sums.words);
    io::write_all(1, b" words come to ");
    io::print_decimal(1, sums.all);
    io::write_all(1, b"\n");
}

// How many words there were, their sum, and the sum of what that was after each word, which tells their order. Both are modulo 2^64.
#[derive(Clone, Copy)]
struct Sums {
    pub words: u64,
    pub sum: u64,
    pub all: u64,
}

// The words that are listed from 0 on, a buffer at a time, each from one above the last word written.
fn listed(sheet: Sheet, buffers: u64) -> Sums {
    let mut out = [0; ROOM];
    let mut sums = Sums {
        words: 0,
        sum: 0,
        all: 0,
    };
    let mut start: u64 = 0;
    for _ in 0..buffers {
        let listing = listing::list(sheet, start, &mut out);
        sums = summed(sums, listing.written, &out);
        start = std::num::wrapping_add_u64(out[ROOM - 1], 1);
    }
    sums
}

// These, and a full buffer. One that is not full shows in how many words were written.
fn summed(sums: Sums, written: usize, out: &[u64; ROOM]) -> Sums {
    let mut sum = sums.sum;
    let mut all = sums.all;
    for i in 0..ROOM {
        sum = std::num::wrapping_add_u64(sum, out[i]);
        all = std::num::wrapping_add_u64(all, sum);
    }
    Sums {
        words: std::num::wrapping_add_u64(sums.words, written as u64),
        sum,
        all,
    }
}
