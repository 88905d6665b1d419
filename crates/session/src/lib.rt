// A drill file carried out on a desk, record by record (Q5), and what the program `drill` prints of it (Q6).
#![tactic(auto)]

mod printing;
mod running;
mod turn;

pub use printing::{INPUT, LONGEST, OUTPUT, buffer, drill, input_buffer, output_buffer};
pub use running::{Totals, run};
