// Calls that are drawn for a sheet and a page.

pub mod draw;
