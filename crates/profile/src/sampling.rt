// One sample of a loop's profile, outside Cascade (G4 to G10): profile and setpoint after it, and word 27.
ghost use Rattle.std.specs.Prelude.{◌≡◌, ◌≤◌};
ghost use Rattle.profile.specs.Premises.{Within};
ghost use Rattle.profile.specs.Samples.{sampled_by};

use crate::moves::Command;
use crate::state::{Moved, Profile};
use reading::Program;

#[derive(Clone, Copy, Debug, PartialEq, Eq)]
pub struct Profiled {
    pub profile: Profile,
    pub setpoint: u16,
    pub flags: u16,
}

// `flags` is word 27 as it stood, `setpoint` that of A4: the callers have it and the profile apart. Without a program word 27
// is 0 (G4).
#[tactic(auto, unfolding(crate::specs::Samples::sampled_by, crate::specs::Moves::advanced_by, crate::specs::Flags::flags_of))]
pub fn sample(
    program: Program,
    flags: u16,
    period: u16,
    p: Profile,
    setpoint: u16,
    pv: u16,
) -> Profiled
    requires { Within p × (program.pair.duration ≤ 9999) }
    ensures { result ≡ sampled_by program flags period p setpoint pv }
{
    if program.on {
        let pair = program.pair;
        let now = Moved {
            profile: p,
            setpoint,
        };
        let moved = now.worked(Command::of(flags), pair, period);
        Profiled {
            profile: moved.profile,
            setpoint: moved.setpoint,
            flags: moved.flags_word(pair.deviation, pv),
        }
    } else {
        Profiled {
            profile: p.ended(),
            setpoint,
            flags: 0,
        }
    }
}
