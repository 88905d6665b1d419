// The ramp/soak profile of a loop on plain values: its commands, one sample of it, word 27, and the forecast.
#![tactic(auto)]

mod flags;
mod forecasting;
mod moves;
mod sampling;
mod state;

pub use forecasting::forecast;
pub use sampling::{Profiled, sample};
pub use state::Profile;
