// What the programs have in common (L12, L14): the one argument, the file that is read, what is written on standard
// output, and failures, each told in one line on standard error.
//
// The exit status is always 0, so that line is the only sign of a failure.
#![tactic(auto)]

mod asking;
mod names;
mod telling;
mod writing;

pub use asking::{Asked, read_input};
pub use telling::Teller;
pub use writing::write;
