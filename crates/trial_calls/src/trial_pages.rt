// The clerk's page, and the desk at the same calls.

pub mod calls;
pub mod clerk;
mod lines;
