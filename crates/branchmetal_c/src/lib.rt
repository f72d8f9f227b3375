// The library for C, Rust and Python: the desk's calls on numbers, each exported under its plain name. Every function takes any numbers
// and answers 0 or the paper's number of a refusal; include/branchmetal.h declares them. A static library has the functions of one crate
// alone, and no other crate may use it, so that each call is exported here and stands in the crate branchmetal with the same clauses.
// Rules are rows, answers arrays and statuses numbers, since C calls these.
#![tactic(auto)]

mod lists;
mod sheets;
mod words;
