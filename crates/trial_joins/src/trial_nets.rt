// What a program that tries nets needs: nets that are drawn or made, the plain rule written apart, and a search over all assignments.
// It shares no code with what is tried.

pub mod assignments;
pub mod made;
pub mod plain;
