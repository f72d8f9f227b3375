// The test of an order: the eves rise, and each band stands where its place says.
ghost use Rattle.std.specs.Prelude.{◌≡◌, true, ◌≤◌};
ghost use Rattle.rule.specs.Meaning.{RULES};
ghost use Rattle.search.specs.rows.route.Bands.{Lie};
ghost use Rattle.search.specs.rows.route.Rows.{bands_in};
ghost use Rattle.search.specs.order.route.Order.{AllPlaced, InOrder, Rising};

use crate::order::eve;
use rule::Rule;

// Whether the first n bands are in order.
pub fn stands(
    rows: &[[u64; crate::rows::NUMBERS]; Rule::LIMIT],
    order: &[usize; Rule::LIMIT],
    n: usize,
    top: u64,
) -> bool
    requires { Lie top n (bands_in rows.now) }
    ensures { result ≡ true → InOrder top n (bands_in rows.now) order.now }
{
    if !rises(rows, order, n, top) {
        return false;
    }
    let mut place: [usize; Rule::LIMIT] = [0; Rule::LIMIT];
    places(order, n, &mut place);
    placed(order, n, &place)
}

// Whether the numbers are those of the first n bands, with eves that do not fall.
fn rises(
    rows: &[[u64; crate::rows::NUMBERS]; Rule::LIMIT],
    order: &[usize; Rule::LIMIT],
    n: usize,
    top: u64,
) -> bool
    requires { Lie top n (bands_in rows.now) }
    ensures { result ≡ true → Rising top n (bands_in rows.now) order.now n }
{
    let mut last = 0;
    for k in 0..n {
        let i = order[k];
        if n <= i {
            return false;
        }
        let next = eve(crate::rows::band_at(rows, i, false, top), top);
        if next < last {
            return false;
        }
        last = next;
    }
    true
}

// Notes where each number stands.
fn places(order: &[usize; Rule::LIMIT], n: usize, place: &mut [usize; Rule::LIMIT])
    requires { n ≤ RULES }
{
    for k in 0..n {
        let i = order[k];
        if i < n {
            place[i] = k;
        }
    }
}

// Whether each number below n stands where its place says.
fn placed(order: &[usize; Rule::LIMIT], n: usize, place: &[usize; Rule::LIMIT]) -> bool
    requires { n ≤ RULES }
    ensures { result ≡ true → AllPlaced n order.now n }
{
    for i in 0..n {
        let k = place[i];
        if n <= k {
            return false;
        }
        let is_elsewhere = order[k] != i;
        if is_elsewhere {
            return false;
        }
    }
    true
}
