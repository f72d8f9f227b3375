// What the programs that try the desk from outside share: the rules to try, the paper's cases, and a search that follows
// the paper one word at a time.

pub mod cases;
pub mod direct;
pub mod draw;
pub mod rules;
