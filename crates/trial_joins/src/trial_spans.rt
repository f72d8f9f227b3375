// What the program that tries joins goes by: joins to try, and a join as the paper has it, over spans that are searched word by
// word or block by block.

pub mod blocks;
pub mod expected;
pub mod made;
pub mod words;
