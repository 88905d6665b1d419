// What a loop carries from sample to sample: the record, its ranges, and its numbers in the buffer that
// the caller lends.
#![tactic(auto)]

mod former;
mod layout;
mod record;

pub use layout::{
    FIELDS, NUMBERS, numbers_at, numbers_of, out_of_range, put_mark, put_numbers, record_of,
    slot_of,
};
pub use record::{Carried, Past, State};
