// The status word (B1 to B8): the mode, the alarms with their hold, and the two bits that tell of a fault in
// the alarm settings and of an output at its limit.
#![tactic(auto)]

mod alarm;
mod status;

pub use status::{Seen, status_word};
