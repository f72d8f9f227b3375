// What is to be answered by the paper's words, one word at a time. It shares no code with what is tried.
ghost use Rattle.std.specs.Prelude.{◌<◌, ◌≤◌};

use crate::expected::{Expected, LINKS, NUMBERS};
use std::slice;
use trial::trial_direct::direct;
use trial::trial_direct::direct::Row;

// Where a link starts, where it ends, one above its last word, and why.
#[derive(Clone, Copy)]
struct Stretch {
    start: usize,
    end: usize,
    reason: u64,
}

/// The verdict and its words, and for none the chain, by the rows of the rules.
pub fn walked(rows: &[Row], size: usize, out: &mut [u64; NUMBERS]) -> Expected
    requires { (1 ≤ size) × (size ≤ 256) }
{
    let smallest = direct::up(rows, size, 0);
    if smallest == size {
        return Expected::none(chain(rows, size, out));
    }
    let above = direct::down(rows, size - 1);
    Expected::some(smallest as u64, (above as u64).wrapping_sub(1))
}

// "Stop after the link that ends at the top word; else go on with p = q + 1." A walk that does not end in time differs.
fn chain(rows: &[Row], size: usize, out: &mut [u64; NUMBERS]) -> usize
    requires { size ≤ 256 }
{
    let (places, _) = out.as_chunks_mut::<3>();
    let mut p = 0;
    for (links, place) in places.iter_mut().enumerate() {
        if size <= p {
            return links;
        }
        let link = link_at(rows, size, p);
        *place = [
            link.start as u64,
            (link.end as u64).wrapping_sub(1),
            link.reason,
        ];
        p = link.end;
    }
    LINKS
}

// The link at p. "Links with reason 255 stay": they start at p.
fn link_at(rows: &[Row], size: usize, p: usize) -> Stretch
    requires size_bound { size ≤ 256 }
    requires p_bound { p < 256 }
{
    let furthest = furthest(rows, size, p);
    if furthest.end == p {
        return Stretch {
            start: p,
            end: gap(rows, size, p),
            reason: 255,
        };
    }
    furthest
}

// "Take the rule of furthest reach, the lowest number on a tie", and "start where that rule's run of failing words starts". The end
// is p itself where p fails no rule outside form 7.
fn furthest(rows: &[Row], size: usize, p: usize) -> Stretch
    requires size_bound { size ≤ 256 }
    requires p_bound { p < 256 }
{
    let mut furthest = Stretch {
        start: p,
        end: p,
        reason: 0,
    };
    for (i, row) in rows.iter().enumerate() {
        if row[p] == 1 {
            let own = slice::from_ref(row);
            let end = direct::up(own, size, p);
            if furthest.end < end {
                furthest = Stretch {
                    start: direct::down(own, p),
                    end,
                    reason: i as u64,
                };
            }
        }
    }
    furthest
}

// "the smallest word above p that meets all form 7 rules", or the number of words where there is none
fn gap(rows: &[Row], size: usize, p: usize) -> usize
    requires size_bound { size ≤ 256 }
    requires p_bound { p < 256 }
{
    (p + 1..size).find(|x| meets_bits(rows, *x)).unwrap_or(size)
}

// Whether x meets all form 7 rules.
fn meets_bits(rows: &[Row], x: usize) -> bool
    requires { x < 256 }
{
    rows.iter().all(|row| row[x] != 7)
}
