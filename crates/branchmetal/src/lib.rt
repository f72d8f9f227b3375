// The library's calls on numbers. Every function takes any numbers and answers 0 or the paper's number of a refusal. The crate
// branchmetal_c exports each under its plain name, for C, Rust and Python.
// Rules are rows, answers arrays and statuses numbers here, since C calls these.
#![tactic(auto)]

pub mod lists;
pub mod sheets;
pub mod words;
