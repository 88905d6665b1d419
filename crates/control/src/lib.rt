// One sample's numbers on plain values: counts of the output, the error, the three terms, and the position and
// velocity forms. Units are 1/262,144 of a count.
#![tactic(auto)]

mod counts;
mod errors;
mod forms;
mod terms;

pub use counts::output_counts;
pub use errors::{error, in_deadband};
pub use forms::{Drive, Limits, position, velocity};
pub use terms::{Inputs, Terms, terms_of};
