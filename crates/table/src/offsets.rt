// The lent words (W1), and the offset of each word of a loop (W2), as in the header.
pub const WORDS: usize = 1024;

pub const LOOPS: u8 = 16;

pub const LOOP_WORDS: usize = 32;

pub const FIRST_FREE: u64 = 512; // words from here on belong to no loop

pub const LAST_ADDRESS: u64 = WORDS as u64 - 1;

pub const MODE_1: usize = 0;

pub const MODE_2: usize = 1;

pub const SETPOINT: usize = 2;

pub const PV: usize = 3;

pub const BIAS: usize = 4;

pub const OUTPUT: usize = 5;

pub const STATUS: usize = 6;

pub const PERIOD: usize = 7;

pub const GAIN: usize = 8;

pub const RESET: usize = 9;

pub const RATE: usize = 10;

pub const LOW_LOW: usize = 11;

pub const LOW: usize = 12;

pub const HIGH: usize = 13;

pub const HIGH_HIGH: usize = 14;

pub const YELLOW: usize = 15;

pub const RED: usize = 16;

pub const CHANGE: usize = 17;

pub const HYSTERESIS: usize = 18;

pub const DEADBAND: usize = 19;

pub const OUTPUT_LOW: usize = 24;

pub const OUTPUT_HIGH: usize = 25;

pub const POINTER: usize = 26;

pub const PROFILE_FLAGS: usize = 27;

pub const PROFILE_TABLE: usize = 28;

pub const PROFILE_FAULT: usize = 29;

// A ramp/soak table (G1): where it may begin (G2), its words, and its pairs of a ramp and a soak.
pub const FIRST_TABLE: u16 = 512;

pub const LAST_TABLE: u16 = 992;

pub const TABLE_WORDS: usize = 32;

pub const PAIRS: usize = 8;

pub const PAIR_WORDS: usize = 4;

pub const END: usize = 0;

pub const SLOPE: usize = 1;

pub const DURATION: usize = 2;

pub const DEVIATION: usize = 3;
