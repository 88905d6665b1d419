// The engine: one accepted sample (A2 to A12) of one loop, on what it read, its PV and the loop's carried record.
#![tactic(auto)]

mod driving;
mod sensing;
mod stepping;
mod writing;

pub use sensing::Sensed;
pub use stepping::{Stepped, step};
pub use writing::{Written, write_words};
