// Steps back and forward on a slate. Each first looks whether there is a sheet at all, which the head says; then its own row of the table;
// and what is kept of the rules then in force is as it is noted, or found anew.
mod going_back;
mod going_forward;
mod seeking;

pub use going_back::back;
pub use going_forward::forward;
