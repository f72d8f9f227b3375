// What the programs that try gates share: a plain reading of IEEE 754 by integers, and the gates of patterns.

pub mod direct;
pub mod made;
