// One case: the batch call and the calls one by one, on the same list with as many numbers lent.
use batch::Batch;
use page::Opening;
use rule::Rule;
use sheet::{Reply, Sheet};
use trial::trial_tally::{Tally, total};
use trial_calls::answers::{kept, looks};
use trial_calls::trial_lists::{alike, calls};

// What a lent number is before the call. Every number is a word of 64 bits; at this one no link of these lists begins or ends.
const UNTOUCHED: u64 = 0x5a5a_5a5a_5a5a_5a5a;

/// With enough lent for any list: what is answered of the first rules of an array, and at which rule.
pub fn lent_enough(
    opening: Opening,
    rules: &[Rule; Batch::MOST],
    count: usize,
    number: u64,
    place: usize,
) -> Tally {
    compared(opening, rules, count, Sheet::LENT, number, place)
}

/// With just enough lent for as many rules, which are all accepted, and with one number less.
pub fn both_lent(opening: Opening, rules: &[Rule; Batch::MOST], count: usize) -> Tally {
    if Rule::LIMIT < count {
        return Tally::none();
    }
    let wanted = 3 * (4 * count + 1);
    compared(opening, rules, count, wanted, 0, count).plus(compared(
        opening,
        rules,
        count,
        wanted - 1,
        9,
        count,
    ))
}

fn compared(
    opening: Opening,
    rules: &[Rule; Batch::MOST],
    count: usize,
    lent: usize,
    number: u64,
    place: usize,
) -> Tally {
    if Sheet::LENT < lent || Batch::MOST < count {
        return Tally::none();
    }
    let mut out = [UNTOUCHED; Sheet::LENT];
    let batch = batch::first(opening, *rules, count, &mut out[..lent]);
    let mut direct = [UNTOUCHED; Sheet::LENT];
    let one_by_one = calls(opening, &rules[..count], &mut direct[..lent]);
    said(batch, number, place)
        .plus(same_answer(batch, one_by_one))
        .plus(same_numbers(&out, &direct))
}

// The number and the place that the paper gives.
fn said(batch: Batch, number: u64, place: usize) -> Tally {
    looks(&[batch.reply.number == number, batch.place == place])
}

fn same_answer(batch: Batch, direct: Batch) -> Tally {
    let reply = batch.reply;
    let other = direct.reply;
    looks(&[
        reply.number == other.number,
        reply.kept.verdict == other.kept.verdict,
        reply.kept.smallest == other.kept.smallest,
        reply.kept.largest == other.kept.largest,
        reply.links == other.links,
        batch.place == direct.place,
    ])
}

fn same_numbers(out: &[u64], direct: &[u64]) -> Tally {
    total(out.iter().zip(direct).map(|(a, b)| Tally::one(a == b)))
}

/// Wrong expectations: at width 4 case 2 is answered with "many", 11 and 14, and leaves the buffer as it was.
pub fn known(opening: Opening) -> Tally {
    let mut out = [UNTOUCHED; Sheet::LENT];
    let batch = batch::first(opening, alike(), 1, &mut out);
    let reply = Reply {
        number: 9,
        kept: kept(1, 12, 13),
        links: 1,
    };
    said(batch, 9, 0)
        .plus(same_answer(batch, Batch { reply, place: 0 }))
        .plus(same_numbers(&out, &[0; Sheet::LENT]))
}
