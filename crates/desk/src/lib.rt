// The one door to a desk: every call that reads or changes one comes through here.
//
// A desk is memory that the caller lends: the words of the loops' tables, and the numbers of the loops'
// carried records. Both may hold anything; a call that is refused leaves both as they were (Q8). A loop's
// number, an address and a raw PV may be any 64-bit number: each is tested before it is narrowed (Q7).
#![tactic(auto)]

mod admitting;
mod forecasting;
mod memory;
mod resetting;
mod sampling;
mod showing;
mod storing;

pub use carried::{FIELDS, NUMBERS};
pub use forecasting::forecast;
pub use memory::fitting;
pub use resetting::reset;
pub use sampling::{Line, sample};
pub use showing::fields;
pub use storing::{engine_word, store};
pub use table::WORDS;
