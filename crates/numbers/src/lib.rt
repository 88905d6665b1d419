// The engine's numbers: signed 64-bit arithmetic, limits, rounding, full scales, and the square root.
//
// Each function's result is a formula over whole numbers, stated with the definitions of specs/.
// A `requires` is a bound on the arguments; callers show it by the laws that stand beside the
// definitions, and `proofs/Machine` has the step from a bound to the range of 64 bits.
#![tactic(auto)]

mod limits;
mod roots;
mod rounding;
mod scales;
mod signed;

pub use limits::clamp;
pub use roots::root;
pub use rounding::{UNITS, half_away, half_up, nearest_count, scaled, units};
pub use scales::convert;
pub use signed::{difference, with_sign};
