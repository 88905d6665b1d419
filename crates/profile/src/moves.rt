// One sample of a profile (G4 to G9): a command, or the ramp or soak that runs.
ghost use Rattle.std.specs.Prelude.{◌≡◌, ◌≤◌};
ghost use Rattle.profile.specs.Moves.{command_of, ended_of, started_of, with_hold, completed_of, handed_over, jogged_of, toward, parts_of, ramped_to, ramped_by, soaked_by, moved_by, worked_by};

use crate::state::{Moved, Profile};
use reading::Pair;
use table::bit;

pub(crate) const SEGMENTS: u8 = 16;

const PARTS: u32 = 10000; // of a count

pub(crate) const TENTH_OF_A_MINUTE: u32 = 600; // hundredths of a second

#[derive(Clone, Copy, Debug, PartialEq, Eq)]
pub enum Command {
    Start,
    Hold,
    Resume,
    Jog,
    Nothing,
}

impl Command {
    // G5: of bits 0 to 3 of word 27 the lowest one that is on.
    #[tactic(auto, unfolding(crate::specs::Moves::command_of))]
    pub(crate) fn of(flags: u16) -> Command
        ensures { result ≡ command_of flags }
    {
        if bit(flags, 0) {
            Command::Start
        } else if bit(flags, 1) {
            Command::Hold
        } else if bit(flags, 2) {
            Command::Resume
        } else if bit(flags, 3) {
            Command::Jog
        } else {
            Command::Nothing
        }
    }
}

impl Profile {
    // G5: Start.
    const STARTED: Profile = Profile {
        segment: 1,
        hold: false,
        complete: false,
        fraction: 0,
        time: 0,
    };

    // G4: no program.
    pub(crate) fn ended(self) -> Profile
        ensures { result ≡ ended_of self }
    {
        Profile {
            segment: 0,
            hold: false,
            complete: false,
            ..self
        }
    }

    // G5: Hold and Resume, of a profile that runs.
    #[tactic(auto, unfolding(crate::specs::Moves::with_hold))]
    fn with_hold(self, hold: bool) -> Profile
        ensures { result ≡ with_hold hold self }
    {
        if self.segment == 0 {
            self
        } else {
            Profile { hold, ..self }
        }
    }

    // G9: the profile completes.
    fn completed(self) -> Profile
        ensures { result ≡ completed_of self }
    {
        Profile {
            segment: 0,
            hold: false,
            complete: true,
            time: 0,
            ..self
        }
    }

    // G9: the present segment ends: the next one, or completion behind the last.
    #[tactic(auto, unfolding(crate::specs::Moves::handed_over))]
    fn handed_over(self) -> Profile
        ensures { result ≡ handed_over self }
    {
        if self.segment < SEGMENTS {
            Profile {
                segment: self.segment + 1,
                time: 0,
                ..self
            }
        } else {
            self.completed()
        }
    }

    // G5: Jog, of a profile that runs.
    #[tactic(auto, unfolding(crate::specs::Moves::jogged_of))]
    fn jogged(self) -> Profile
        ensures { result ≡ jogged_of self }
    {
        if self.segment == 0 {
            self
        } else {
            self.handed_over()
        }
    }

    // G8: a soak. Pair and period come from the program and from the settings: a struct of both would be built for these calls
    // alone.
    #[tactic(auto, unfolding(crate::specs::Moves::soaked_by))]
    fn soaked(self, pair: Pair, period: u16) -> Profile
        requires { self.time ≤ 6000000 }
        ensures { result ≡ soaked_by pair period self }
    {
        let time = self.time + u32::from(period);
        if TENTH_OF_A_MINUTE * u32::from(pair.duration) <= time {
            self.handed_over()
        } else {
            Profile { time, ..self }
        }
    }
}

// G7: a setpoint with its fraction, in ten-thousandths of a count.
pub(crate) fn parts(setpoint: u16, fraction: u16) -> u32
    ensures { result ≡ parts_of setpoint fraction }
{
    PARTS * u32::from(setpoint) + u32::from(fraction)
}

// G7: `at` moved by a step toward `to`, where it stops.
#[tactic(auto, unfolding(crate::specs::Moves::toward))]
fn moved_toward(at: u32, to: u32, step: u32) -> u32
    ensures { result ≡ toward at to step }
{
    if at < to {
        at.saturating_add(step).min(to)
    } else {
        at.saturating_sub(step).max(to)
    }
}

impl Moved {
    // G7: a ramp that has come to `at`; on its end it hands over.
    #[tactic(auto, unfolding(crate::specs::Moves::ramped_to))]
    fn ramped_to(p: Profile, at: u32, to: u32) -> Moved
        requires { at ≤ 655359999 }
        ensures { result ≡ ramped_to at to p }
    {
        let profile = Profile {
            fraction: (at % PARTS) as u16,
            ..p
        };
        Moved {
            profile: if at == to {
                profile.handed_over()
            } else {
                profile
            },
            setpoint: (at / PARTS) as u16,
        }
    }

    // G7: a ramp. A slope of 0 completes the profile.
    #[tactic(auto, using(crate::proofs::Laws::Moves::toward_high), unfolding(crate::specs::Moves::ramped_by))]
    fn ramped(self, pair: Pair, period: u16) -> Moved
        requires { self.profile.fraction ≤ 9999 }
        ensures { result ≡ ramped_by pair period self.profile self.setpoint }
    {
        if pair.slope == 0 {
            return Moved {
                profile: self.profile.completed(),
                ..self
            };
        }
        let from = parts(self.setpoint, self.profile.fraction);
        let to = parts(pair.end, 0);
        let at = moved_toward(from, to, u32::from(pair.slope) * u32::from(period));
        Moved::ramped_to(self.profile, at, to)
    }

    // G6: a sample without a command: a profile that runs, unless it is held, moves.
    #[tactic(auto, unfolding(crate::specs::Moves::moved_by))]
    fn moved(self, pair: Pair, period: u16) -> Moved
        requires { (self.profile.fraction ≤ 9999) × (self.profile.time ≤ 6000000) }
        ensures { result ≡ moved_by pair period self.profile self.setpoint }
    {
        if self.profile.hold | (self.profile.segment == 0) {
            self
        } else if self.profile.segment % 2 == 1 {
            self.ramped(pair, period)
        } else {
            Moved {
                profile: self.profile.soaked(pair, period),
                ..self
            }
        }
    }

    // G5, G6: the command, or what moves without one.
    #[tactic(auto, unfolding(crate::specs::Moves::worked_by))]
    pub(crate) fn worked(self, command: Command, pair: Pair, period: u16) -> Moved
        requires { (self.profile.fraction ≤ 9999) × (self.profile.time ≤ 6000000) }
        ensures { result ≡ worked_by command pair period self.profile self.setpoint }
    {
        let p = self.profile;
        let profile = match command {
            Command::Start => Profile::STARTED,
            Command::Hold => p.with_hold(true),
            Command::Resume => p.with_hold(false),
            Command::Jog => p.jogged(),
            Command::Nothing => return self.moved(pair, period),
        };
        Moved { profile, ..self }
    }
}
