// Word 27 as a sample leaves it (G10).
ghost use Rattle.std.specs.Prelude.{◌≡◌, ◌≤◌};
ghost use Rattle.profile.specs.Flags.{is_soak, deviates, flags_of};

use crate::state::{Moved, Profile};
use table::flag;

const SEGMENT: u16 = 256;

const HELD: u16 = 64;

const DEVIATION: u16 = 32;

const COMPLETE: u16 = 16;

// G10: the PV is further from the setpoint than a deviation that is not 0.
#[tactic(auto, unfolding(crate::specs::Flags::deviates, numbers::specs::Distances::apart))]
fn deviates_by(deviation: u16, setpoint: u16, pv: u16) -> bool
    ensures { result ≡ deviates deviation setpoint pv }
{
    (deviation != 0) & (deviation < setpoint.abs_diff(pv))
}

impl Profile {
    // G1: the even segments are soaks.
    fn is_soak(self) -> bool
        ensures { result ≡ is_soak self.segment }
    {
        (self.segment != 0) & (self.segment % 2 == 0)
    }
}

impl Moved {
    // G10: word 27. `deviation` is that of the pair in which the profile stands.
    #[tactic(auto, unfolding(crate::specs::Flags::flags_of))]
    pub(crate) fn flags_word(self, deviation: u16, pv: u16) -> u16
        requires { self.profile.segment ≤ 16 }
        ensures { result ≡ flags_of self.profile deviation self.setpoint pv }
    {
        let p = self.profile;
        let far = p.is_soak() & deviates_by(deviation, self.setpoint, pv);
        SEGMENT * u16::from(p.segment)
            + flag(p.hold, HELD)
            + flag(far, DEVIATION)
            + flag(p.complete, COMPLETE)
    }
}
