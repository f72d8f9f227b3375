// The verdict on rules: how many words fit, none, one or many, with the smallest and the largest of them.

pub mod laid;

// The verdict (0 none, 1 one, 2 many) and the smallest and largest fitting word; for none both are 0.
#[derive(Clone, Copy, PartialEq, Eq)]
pub struct Kept {
    pub verdict: u64,
    pub smallest: u64,
    pub largest: u64,
}
