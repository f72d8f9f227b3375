// What the check has to say, by the paper's words and one word at a time. It shares no code with what is tried.
ghost use Rattle.std.specs.Prelude.{◌<◌, ◌≤◌};

use trial::trial_direct::direct::Row;

/// Whether the numbers of the list are links that show of each of so many words that it fails, by the rows of the rules.
pub fn accepts(rows: &[Row], size: u64, list: &[u64]) -> bool
    requires { size ≤ 256 }
{
    let (links, rest) = list.as_chunks::<3>();
    // how many words are shown, from 0 on
    let mut shown = 0;
    for link in links {
        let [from, to, reason] = *link;
        if shown < from || to < from || size <= to || !fail(rows, from, to, reason) {
            return false;
        }
        shown = shown.max(to + 1);
    }
    rest.is_empty() && shown == size
}

// Whether each of the words fails.
fn fail(rows: &[Row], from: u64, to: u64, reason: u64) -> bool
    requires { to < 256 }
{
    (from..to + 1).all(|x| fails(rows, x as usize, reason))
}

// Whether a word fails the rule of that number, which is not of form 7, or for 255 one of form 7.
fn fails(rows: &[Row], x: usize, reason: u64) -> bool
    requires { x < 256 }
{
    match rows.get(reason as usize) {
        Some(row) => row[x] == 1,
        None => reason == 255 && rows.iter().any(|row| row[x] == 7),
    }
}
