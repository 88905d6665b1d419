// What a sample reads of the lent words: a loop's settings, its ramp/soak program, and at a transfer the major loop.
//
// Everything goes through one function, `read_loop`: so a sample's answer depends on what that reads, and on nothing
// else of the table.
#![tactic(auto)]

mod program;
mod reading;
mod settings;
mod transfer;

pub use program::{Pair, Program, read_pair, table_at};
pub use reading::{Former, Reading, read_loop};
pub use settings::{AlarmLimits, Mode1, Mode2, OutputLimits, Settings, Stored, Tuning};
pub use transfer::Major;
