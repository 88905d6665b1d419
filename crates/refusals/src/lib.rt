// Why a record of a drill file, or a call, is refused: one list of reasons for reader, engine, desk and setup,
// with their numbers (N1 to N14).
#![tactic(auto)]

ghost use Rattle.std.specs.Prelude.{◌≡◌};
ghost use Rattle.refusals.specs.Refusals.{number_of};

// The numbers, as in the header.
pub const ACCEPTED: u8 = 0;

pub const CUT: u8 = 1;

pub const KIND: u8 = 2;

pub const LENGTH: u8 = 3;

pub const LOOP: u8 = 4;

pub const MEMORY: u8 = 5;

pub const STORE: u8 = 6;

pub const DIGIT: u8 = 7;

pub const SETTING: u8 = 8;

pub const ABOVE: u8 = 9;

pub const ROOM: u8 = 10;

pub const TRANSFER: u8 = 11;

pub const SETTING_TIMES: u8 = 12;

pub const SETTING_LIMITS: u8 = 13;

pub const SETTING_SETPOINT: u8 = 14;

#[derive(Clone, Copy, Debug, PartialEq, Eq)]
pub enum Refusal {
    Cut, // N1: the file ends inside the record
    Kind, // N2: the record has no kind, or none that is known
    Length, // N3: its length is not its kind's
    Loop, // N4: no loop of that number
    Memory, // N5: the lent words or numbers do not have their length
    Record, // N5: a number of the loop's carried record is out of range
    Store, // N6: no word of that address may be stored
    Digit, // N7: one of words 7 to 10, or of a profile's table, has a digit above 9
    Setting, // N8: a mode bit, velocity form with Bumpless II, the hysteresis or a ramp's end
    Times, // N12: the period or the reset time
    Limits, // N13: an output limit
    Setpoint, // N14: the setpoint or, in Cascade, the pointer or the word that it names
    Above, // N9: the raw PV is above full scale
    Room, // N10: the room lent for a setup file is shorter than the file
    Transfer, // N11: a transfer without a major loop, or outside its output limits
}

// The number of an answer: 0 where the call is accepted.
pub fn number_of(answer: Result<(), Refusal>) -> u8
    ensures { result ≡ number_of answer }
{
    match answer {
        Ok(()) => ACCEPTED,
        Err(why) => match why {
            Refusal::Cut => CUT,
            Refusal::Kind => KIND,
            Refusal::Length => LENGTH,
            Refusal::Loop => LOOP,
            Refusal::Memory => MEMORY,
            Refusal::Record => MEMORY,
            Refusal::Store => STORE,
            Refusal::Digit => DIGIT,
            Refusal::Setting => SETTING,
            Refusal::Times => SETTING_TIMES,
            Refusal::Limits => SETTING_LIMITS,
            Refusal::Setpoint => SETTING_SETPOINT,
            Refusal::Above => ABOVE,
            Refusal::Room => ROOM,
            Refusal::Transfer => TRANSFER,
        },
    }
}
