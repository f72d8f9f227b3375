// What is to be answered to a sheet of few rules at any width, apart from the desk's code; and sheets that are drawn, or numbered.

pub mod corners;
pub mod sheets;
pub mod stretches;
