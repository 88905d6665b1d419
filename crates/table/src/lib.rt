// The lent words: where a loop's words stand (W1, W2), BCD digits (W3), formats (M3) and modes (M4).
#![tactic(auto)]

mod format;
mod mode;
mod offsets;
mod words;

pub use format::Format;
pub use mode::Mode;
pub use offsets::{
    BIAS, CHANGE, DEADBAND, DEVIATION, DURATION, END, FIRST_FREE, FIRST_TABLE, GAIN, HIGH,
    HIGH_HIGH, HYSTERESIS, LAST_ADDRESS, LAST_TABLE, LOOP_WORDS, LOOPS, LOW, LOW_LOW, MODE_1,
    MODE_2, OUTPUT, OUTPUT_HIGH, OUTPUT_LOW, PAIR_WORDS, PAIRS, PERIOD, POINTER, PROFILE_FAULT,
    PROFILE_FLAGS, PROFILE_TABLE, PV, RATE, RED, RESET, SETPOINT, SLOPE, STATUS, TABLE_WORDS,
    WORDS, YELLOW,
};
pub use words::{bad_digit, base_of, bit, clear_requests, decimal, flag, word_at};
