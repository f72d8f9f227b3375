// Tries chains of many links, which are found by the order of the bands, on tiles that forbid a few words each: at widths of 6 to 8 against a
// plain search over all words, and at 64 bits the same sheets with every word drawn out to a block, whose links are then drawn out in the same way.
//
// The counts: each width has as many sheets as its loop makes, 150, and 64 bits has all of them. No word fits any: odd words start tiles, and even
// words fail the rule that wants them odd. longer has the sheets whose chain has more than 12 links: up to there it is found by a search over
// all bands. known has three wrong expectations of such a chain: of the reason and of the last word of its 13th link, and of the number of links.
#![tactic(auto)]

mod counts;
mod tiles;

ghost use Rattle.std.specs.Prelude.{◌<◌, ◌≤◌};
ghost use Rattle.trial.specs.trial_direct.Trial.{Narrow};

use counts::{SHORT, Tried};
use rule::Rule;
use tiles::Tiles;
use trial::trial_direct::direct::Table;
use trial::trial_direct::{direct, draw, rules};
use trial::trial_tally::{Count, Tally};
use trial_sheets::expected::{Expected, NUMBERS};
use trial_sheets::trial_editions::asked;
use trial_sheets::trial_editions::asked::UNTOUCHED;
use trial_sheets::walk;
use word::{Edition, Width};

// How many sheets are drawn at each width.
const SHEETS: u64 = 150;

fn main(rt: HostRuntime) {
    over(6, 0).print(&rt, "6");
    over(7, 0).print(&rt, "7");
    over(8, 0).print(&rt, "8");
    let drawn_out = over(6, 58).plus(over(7, 57)).plus(over(8, 56));
    drawn_out.print(&rt, "64");
    let _ = println!(rt; "known {}", known());
}

// The sheets of a width, with every word drawn out by so many bits.
fn over(bits: u64, by: u64) -> Tried
    requires narrow { Narrow bits }
    requires by_bound { by < 64 }
{
    let mut table = direct::BLANK;
    let width = Width { bits };
    let mut tried = Tried::none();
    for i in 1..SHEETS + 1 {
        tried = tried.plus(numbered(i, width, by, &mut table));
    }
    tried
}

fn numbered(i: u64, width: Width, by: u64, table: &mut Table) -> Tried
    requires narrow { Narrow width.bits }
    requires by_bound { by < 64 }
{
    let tiles = tiles::laid(draw::spread(width.bits, i), width);
    sheet(tiles, width, by, |_, _| (), table)
}

// A sheet with each of three wrong expectations: of a reason, of a last word and of how many links there are.
fn known() -> Tally {
    let mut table = direct::BLANK;
    let width = Width { bits: 6 };
    let tiles = tiles::laid(1, width);
    let reason = sheet(
        tiles,
        width,
        0,
        |_, buffer| buffer[3 * SHORT + 2] ^= 1,
        &mut table,
    );
    let last = sheet(
        tiles,
        width,
        0,
        |_, buffer| buffer[3 * SHORT + 1] ^= 1,
        &mut table,
    );
    let links = sheet(
        tiles,
        width,
        0,
        |expected, _| expected.links ^= 1,
        &mut table,
    );
    reason.longer.plus(last.longer).plus(links.longer)
}

// The desk's answer to a sheet compared with the direct one, of which something is changed; or nothing where a rule is not lawful.
fn sheet<F>(tiles: Tiles, width: Width, by: u64, change: F, table: &mut Table) -> Tried
where
    F: FnOnce(&mut Expected, &mut [u64; NUMBERS]),
    requires narrow { Narrow width.bits }
    requires by_bound { by < 64 }
    requires change { F.IsAlwaysCallable change }
{
    let rules = tiles.rules();
    if !rules::all_lawful(rules, width) {
        return Tried::none();
    }
    let mut buffer = [UNTOUCHED; NUMBERS];
    direct::fill(rules, width, table);
    let rows = &table[..rules.len()];
    let mut expected = walk::walked(rows, direct::size(width) as usize, &mut buffer);
    draw_out(&mut buffer, expected.links, by);
    change(&mut expected, &mut buffer);
    compared(
        width.bits + by,
        tiles.drawn_out(by).rules(),
        expected,
        &buffer,
    )
}

// Draws the words of the first links out.
fn draw_out(buffer: &mut [u64; NUMBERS], links: usize, by: u64)
    requires { by < 64 }
{
    let (places, _) = buffer.as_chunks_mut::<3>();
    for place in places.iter_mut().take(links) {
        let [from, to, reason] = *place;
        *place = [from << by, tiles::last(to << by, by), reason];
    }
}

// The answer of a record that keeps what is expected compared with that, in every number of the buffer too.
fn compared(bits: u64, rules: &[Rule], expected: Expected, buffer: &[u64; NUMBERS]) -> Tried {
    let mut numbers = [UNTOUCHED; NUMBERS];
    let sheet = asked::record(Edition::New, bits, rules, expected);
    let answer = asked::asked(sheet, &mut numbers);
    Tried::one(expected, buffer, answer == expected && numbers == *buffer)
}
