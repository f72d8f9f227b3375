// What a rule means at any width, 64 bits too, in plain numbers and apart from the desk's code: where its truth may change, and which words
// have the bits of form 7 rules.

pub mod bit_rules;
pub mod meaning;
pub mod turning;
pub mod wheel;
