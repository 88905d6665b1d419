// Where a loop stands in its profile (H1): the five numbers that it carries, and they with the setpoint.
#[derive(Clone, Copy, Debug, PartialEq, Eq)]
pub struct Profile {
    pub segment: u8, // 0 where none runs, odd a ramp, even a soak: no Option, since H1's number 8 and word 27 (`flags_of`) are this number
    pub hold: bool,
    pub complete: bool,
    pub fraction: u16, // of the setpoint, ten-thousandths of a count
    pub time: u32, // of the soak so far, hundredths of a second
}

#[derive(Clone, Copy, Debug, PartialEq, Eq)]
pub struct Moved {
    pub profile: Profile,
    pub setpoint: u16,
}
