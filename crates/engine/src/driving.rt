// What moves the output (A6 to A9): where bias and output start, what counts as the past, the terms, and
// the two forms.
ghost use Rattle.std.specs.Prelude.{◌≡◌, ◌≤◌, ◌<◌, nat_abs};
ghost use Rattle.control.specs.Premises.{Tuned, Bounded, Ready};
ghost use Rattle.engine.specs.Driving.{held_of, start_of, kept_in, past_of, position_inputs, velocity_inputs, inputs_of, terms_in, low_units, high_units, moved_in, driven_of};
ghost use Rattle.engine.specs.Premises.{Drivable};

use crate::sensing::Sensed;
use carried::{Carried, Past};
use control::{Drive, Inputs, Limits};
use reading::{Mode2, Reading, Settings};

// A4, A10: word 5 brought inside the output limits.
#[tactic(auto, unfolding(crate::specs::Driving::held_of))]
pub(crate) fn held_word(s: Settings) -> u16
    ensures { result ≡ held_of s }
{
    numbers::clamp(s.stored.output, s.limits.low, s.limits.high)
}

// A4: bias and output to start from.
#[tactic(auto, unfolding(crate::specs::Driving::start_of))]
fn started(entry: bool, held: u16, drive: Drive) -> Drive
    ensures { result ≡ start_of entry held drive }
{
    if !entry {
        return drive;
    }
    let units = numbers::units(held);
    Drive {
        bias: units,
        output: units,
    }
}

// A6: the carried PVs in counts of the output.
#[tactic(auto, unfolding(crate::specs::Driving::kept_in))]
fn kept_in(m: Mode2, kept: Past) -> Past
    requires { 0 < m.input.scale }
    ensures { result ≡ kept_in m kept }
{
    Past {
        last: control::output_counts(m, kept.last),
        prior: control::output_counts(m, kept.prior),
        ..kept
    }
}

impl Sensed {
    // A6: what counts as the past: at an entry and at the first accepted sample the present, so the terms see no change.
    #[tactic(auto, unfolding(crate::specs::Driving::past_of))]
    fn past_in(self, m: Mode2, fresh: bool, kept: Past) -> Past
        requires { 0 < m.input.scale }
        ensures { result ≡ past_of m fresh kept self.converted self.error }
    {
        if fresh {
            Past {
                last: self.converted,
                prior: self.converted,
                error: self.error,
            }
        } else {
            kept_in(m, kept)
        }
    }

    // A7: what the terms act on in position form. It and the next are two, as their definitions are: P and D differ.
    #[tactic(auto, unfolding(crate::specs::Driving::position_inputs))]
    fn position_inputs(self, past: Past) -> Inputs
        ensures { result ≡ position_inputs past self.converted self.error }
    {
        Inputs {
            p: self.error,
            i: self.error,
            d: numbers::difference(self.converted, past.last),
        }
    }

    // What they act on in velocity form. The second difference is the change less the one before.
    #[tactic(auto, unfolding(crate::specs::Driving::velocity_inputs))]
    fn velocity_inputs(self, past: Past) -> Inputs
        requires { (nat_abs past.error ≤ 65535) × (nat_abs self.error ≤ 65535) }
        ensures { result ≡ velocity_inputs past self.converted self.error }
    {
        let change = numbers::difference(self.converted, past.last);
        let before = numbers::difference(past.last, past.prior);
        Inputs {
            p: self.error - past.error,
            i: self.error,
            d: change - before,
        }
    }

    // What they act on in the loop's form: a bool, as the public fields Mode1.velocity and State.velocity are.
    fn inputs_for(self, velocity: bool, past: Past) -> Inputs
        requires { (nat_abs past.error ≤ 65535) × (nat_abs self.error ≤ 65535) }
        ensures { result ≡ inputs_of velocity past self.converted self.error }
    {
        if velocity {
            self.velocity_inputs(past)
        } else {
            self.position_inputs(past)
        }
    }
}

// A7, and A8 or A9 by the form.
#[tactic(auto, unfolding(crate::specs::Driving::moved_in, crate::specs::Driving::terms_in))]
fn moved_in(s: Settings, drive: Drive, inputs: Inputs) -> Drive
    requires { Tuned s.tuning × Bounded inputs × Ready drive (terms_in s inputs) (low_units s) (high_units s) }
    ensures { result ≡ moved_in s drive inputs }
{
    let terms = control::terms_of(s.tuning, s.mode2.minutes, s.mode1.reverse, inputs);
    let limits = Limits {
        low: numbers::units(s.limits.low),
        high: numbers::units(s.limits.high),
    };
    if s.mode1.velocity {
        control::velocity(drive, terms, limits)
    } else {
        control::position(s.mode1.freeze, drive, terms, limits)
    }
}

// A6 to A9: the bias and output after the sample; in Manual there are no terms (A10). `held` is word 5 inside the
// limits.
#[tactic(auto, unfolding(crate::specs::Driving::driven_of, crate::specs::Driving::moved_of))]
pub(crate) fn driven(reading: Reading, carried: Carried, sensed: Sensed, held: u16) -> Drive
    requires { (0 < reading.settings.mode2.input.scale) × Drivable reading carried sensed held }
    ensures { result ≡ driven_of reading carried sensed held }
{
    let s = reading.settings;
    let start = started(sensed.entry, held, carried.drive);
    if reading.mode.is_manual() {
        return start;
    }
    let past = sensed.past_in(s.mode2, !carried.sampled | sensed.entry, carried.past);
    moved_in(s, start, sensed.inputs_for(s.mode1.velocity, past))
}
