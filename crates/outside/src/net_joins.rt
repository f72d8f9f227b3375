// The joins that rows are, in the places of a net.

ghost use Rattle.std.specs.Prelude.{◌≡◌, map, replicate};
ghost use Rattle.net.specs.net_tests.Fits.{JOINS};
ghost use Rattle.outside.specs.net_words.Laid.{laid_over};
ghost use Rattle.outside.specs.net_joins.Joined.{join_of, no_join};

use crate::over::lay_over;
use net::net_step::Join;
use net::net_tests::JOINS;
use span::Op;

/// The joins of as many rows as a net has joins. Places not in use have the NOT of word 0.
pub fn joins_in(rows: &[[u64; 4]]) -> [Join; JOINS]
    ensures { result ≡ laid_over (map join_of rows.now) (replicate JOINS no_join) }
{
    let none = Join {
        op: Op::Not,
        h: 0,
        x: 0,
        y: 0,
    };
    let mut joins = [none; JOINS];
    lay_over(rows, &mut joins, join_of);
    joins
}

fn join_of(row: &[u64; 4]) -> Join
    ensures { result ≡ join_of row.now }
{
    Join {
        op: crate::on_words::op_of(row[0]),
        h: row[1] as usize,
        x: row[2] as usize,
        y: row[3] as usize,
    }
}
