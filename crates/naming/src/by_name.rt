// The rule that has a name, among the rows of names that are kept beside a sheet.

ghost use Rattle.std.specs.Prelude.{◌≡◌};
ghost use Rattle.naming.specs.by_name.Which.{has_name, number_of};

use crate::MOST;
use rule::Rule;

// Whether the name in a row is this one.
fn has_name(row: &[u8; MOST], name: &[u8]) -> bool
    ensures { result ≡ has_name name.now row.now }
{
    let n = crate::length(row);
    if n != name.len() {
        return false;
    }
    for i in 0..n {
        if row[i] != name[i] {
            return false;
        }
    }
    0 < n
}

/// The number of the first rule in force that has a name.
#[tactic(auto, using(crate::proofs::by_name::SearchNumberOf::wanted), unfolding(crate::specs::by_name::Which::number_of))]
pub fn number_of(names: &[[u8; MOST]; Rule::LIMIT], count: usize, name: &[u8]) -> Option<u64>
    ensures { result ≡ number_of names.now count name.now }
{
    for i in 0..Rule::LIMIT {
        if count <= i {
            return None;
        }
        if has_name(&names[i], name) {
            return Some(i as u64);
        }
    }
    None
}
