// A loop's settings, by subject, and how they are read. A comment gives each word's offset or bit.
ghost use Rattle.std.specs.Prelude.{◌≡◌, ◌≤◌, length};
ghost use Rattle.reading.specs.Settings.{mode1_of, mode2_of, unused_bits, bad_digits, tuning_of, alarm_limits_of, stored_of, settings_of};

use table::{
    BIAS, CHANGE, DEADBAND, Format, GAIN, HIGH, HIGH_HIGH, HYSTERESIS, LOOP_WORDS, LOW, LOW_LOW,
    MODE_1, MODE_2, OUTPUT, OUTPUT_HIGH, OUTPUT_LOW, PERIOD, POINTER, PROFILE_FAULT, PROFILE_FLAGS,
    RATE, RED, RESET, SETPOINT, STATUS, YELLOW, bad_digit, bit, decimal,
};

// M1: the bits of mode 1. Bit 15 has no use and stays as it is.
#[derive(Clone, Copy)]
pub struct Mode1 {
    pub manual: bool, // 0: Manual is requested
    pub automatic: bool, // 1: Automatic is requested
    pub cascade: bool, // 2: Cascade is requested
    pub bumpless: bool, // 3: Bumpless II, else I
    pub reverse: bool, // 4
    pub velocity: bool, // 5: velocity form, else position
    pub root: bool, // 6: square root of the PV
    pub squared: bool, // 7: error squared
    pub deadband: bool, // 8: error deadband on
    pub limited: bool, // 9: derivative gain limit, not built
    pub freeze: bool, // 10: bias freeze
    pub profile: bool, // 11: ramp and soak
    pub level: bool, // 12: monitor the PV
    pub deviation: bool, // 13: monitor the deviation
    pub change: bool, // 14: monitor the rate of change
}

// M2: the bits of mode 2. Bit 8 is ignored.
#[derive(Clone, Copy)]
pub struct Mode2 {
    pub input: Format, // 1 and 9: of PVs and setpoint
    pub output: Format, // 10, 12 and 13: of output, its limits, bias and error
    pub separate: bool, // 10: the output has a format of its own
    pub minutes: bool, // 4: reset in minutes
    pub unused: bool, // a bit that has to be off
}

// W3: the BCD words, in hundredths: of a second, for the reset time by M2 of a minute, for the gain of 1.
#[derive(Clone, Copy)]
pub struct Tuning {
    pub period: u16, // 7
    pub gain: u16, // 8
    pub reset: u16, // 9
    pub rate: u16, // 10
}

#[derive(Clone, Copy)]
pub struct AlarmLimits {
    pub lowlow: u16, // 11
    pub low: u16, // 12
    pub high: u16, // 13
    pub highhigh: u16, // 14
    pub yellow: u16, // 15
    pub red: u16, // 16
    pub change: u16, // 17
    pub hysteresis: u16, // 18
}

#[derive(Clone, Copy)]
pub struct OutputLimits {
    pub low: u16, // 24
    pub high: u16, // 25
}

// The words that a sample writes, but for the PV, as they stood before it.
#[derive(Clone, Copy)]
pub struct Stored {
    pub word: u16, // 0, mode 1
    pub setpoint: u16, // 2
    pub bias: u16, // 4
    pub output: u16, // 5
    pub status: u16, // 6
    pub flags: u16, // 27
    pub fault: u16, // 29
}

#[derive(Clone, Copy)]
pub struct Settings {
    pub stored: Stored,
    pub mode1: Mode1,
    pub mode2: Mode2,
    pub baddigit: bool, // N7: one of words 7 to 10 has a digit above 9
    pub tuning: Tuning,
    pub alarms: AlarmLimits,
    pub limits: OutputLimits,
    pub deadband: u16, // 19
    pub pointer: u16, // 26
}

fn read_mode1(word: u16) -> Mode1
    ensures { result ≡ mode1_of word }
{
    Mode1 {
        manual: bit(word, 0),
        automatic: bit(word, 1),
        cascade: bit(word, 2),
        bumpless: bit(word, 3),
        reverse: bit(word, 4),
        velocity: bit(word, 5),
        root: bit(word, 6),
        squared: bit(word, 7),
        deadband: bit(word, 8),
        limited: bit(word, 9),
        freeze: bit(word, 10),
        profile: bit(word, 11),
        level: bit(word, 12),
        deviation: bit(word, 13),
        change: bit(word, 14),
    }
}

fn unused_bits(word: u16) -> bool
    ensures { result ≡ unused_bits word }
{
    bit(word, 0)
        | bit(word, 2)
        | bit(word, 3)
        | bit(word, 5)
        | bit(word, 6)
        | bit(word, 7)
        | bit(word, 11)
        | bit(word, 14)
        | bit(word, 15)
        | (!bit(word, 10) & (bit(word, 12) | bit(word, 13)))
}

#[tactic(auto, unfolding(crate::specs::Settings::mode2_of))]
fn read_mode2(word: u16) -> Mode2
    ensures { result ≡ mode2_of word }
{
    let input = Format::new(word);
    Mode2 {
        input,
        output: Format::of_output(word, input),
        separate: bit(word, 10),
        minutes: bit(word, 4),
        unused: unused_bits(word),
    }
}

#[tactic(auto, unfolding(crate::specs::Settings::bad_digits))]
fn bad_digits(w: &[u16; LOOP_WORDS]) -> bool
    ensures { result ≡ bad_digits w.now }
{
    bad_digit(w[PERIOD]) | bad_digit(w[GAIN]) | bad_digit(w[RESET]) | bad_digit(w[RATE])
}

#[tactic(auto, unfolding(crate::specs::Settings::tuning_of))]
fn read_tuning(w: &[u16; LOOP_WORDS]) -> Tuning
    ensures { result ≡ tuning_of w.now }
{
    Tuning {
        period: decimal(w[PERIOD]),
        gain: decimal(w[GAIN]),
        reset: decimal(w[RESET]),
        rate: decimal(w[RATE]),
    }
}

fn read_alarm_limits(w: &[u16; LOOP_WORDS]) -> AlarmLimits
    ensures { result ≡ alarm_limits_of w.now }
{
    AlarmLimits {
        lowlow: w[LOW_LOW],
        low: w[LOW],
        high: w[HIGH],
        highhigh: w[HIGH_HIGH],
        yellow: w[YELLOW],
        red: w[RED],
        change: w[CHANGE],
        hysteresis: w[HYSTERESIS],
    }
}

fn read_stored(w: &[u16; LOOP_WORDS]) -> Stored
    ensures { result ≡ stored_of w.now }
{
    Stored {
        word: w[MODE_1],
        setpoint: w[SETPOINT],
        bias: w[BIAS],
        output: w[OUTPUT],
        status: w[STATUS],
        flags: w[PROFILE_FLAGS],
        fault: w[PROFILE_FAULT],
    }
}

// A loop's 32 words.
#[tactic(auto, unfolding(crate::specs::Settings::settings_of))]
pub(crate) fn read_settings(w: &[u16; LOOP_WORDS]) -> Settings
    ensures { result ≡ settings_of w.now }
{
    Settings {
        stored: read_stored(w),
        mode1: read_mode1(w[MODE_1]),
        mode2: read_mode2(w[MODE_2]),
        baddigit: bad_digits(w),
        tuning: read_tuning(w),
        alarms: read_alarm_limits(w),
        limits: OutputLimits {
            low: w[OUTPUT_LOW],
            high: w[OUTPUT_HIGH],
        },
        deadband: w[DEADBAND],
        pointer: w[POINTER],
    }
}
