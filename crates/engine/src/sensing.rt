// What a sample senses of its PV (A2 to A5): the mode, whether the sample is an entry, the setpoint with its
// profile (G3), and the error.
ghost use Rattle.std.specs.Prelude.{◌≡◌, ◌&&◌, ◌≤◌, ◌<◌};
ghost use Rattle.table.specs.Modes.{is_manual};
ghost use Rattle.engine.specs.Sensing.{setpoint_of, changed, entering, runs_on, target_of, profiled_of, fault_after, error_in, sensed_of};
ghost use Rattle.profile.specs.Premises.{Within};

use carried::State;
use profile::{Profile, Profiled};
use reading::{Program, Reading, Settings};
use table::Mode;

// PV and setpoint, in counts of the input; the PV converted to counts of the output (M7), in which the error is;
// whether the sample is an entry; words 27 and 29; and the loop's state after it.
#[derive(Clone, Copy)]
pub struct Sensed {
    pub pv: u16,
    pub converted: u16,
    pub entry: bool,
    pub setpoint: u16,
    pub error: i64,
    pub flags: u16,
    pub fault: u16,
    pub state: State,
}

// A3: the setpoint.
#[tactic(auto, unfolding(crate::specs::Sensing::setpoint_of))]
fn own_setpoint(reading: Reading) -> u16
    ensures { result ≡ setpoint_of reading }
{
    if reading.mode.is_cascade() {
        reading.remote
    } else {
        reading.settings.stored.setpoint
    }
}

// A4: whether the loop comes from Manual or changes its form.
#[tactic(auto, unfolding(crate::specs::Sensing::changed))]
fn changes(state: State, velocity: bool) -> bool
    ensures { result ≡ changed state velocity }
{
    state.mode.is_manual() | (state.velocity != velocity)
}

// A4: whether the sample is an entry: by such a change, or by the mark of a transfer (A13).
#[tactic(auto, unfolding(crate::specs::Sensing::entering))]
fn enters(state: State, mode: Mode, velocity: bool) -> bool
    ensures { result ≡ entering state mode velocity }
{
    !mode.is_manual() & (changes(state, velocity) | state.mark)
}

// A11: the mark after the sample: in Manual it stays.
fn mark_after(mode: Mode, mark: bool) -> bool
    ensures { result ≡ (is_manual mode && mark) }
{
    mode.is_manual() & mark
}

// G11: a profile runs, held or not.
#[tactic(auto, unfolding(crate::specs::Sensing::runs_on))]
fn runs_on(program: Program, p: Profile) -> bool
    ensures { result ≡ runs_on program p }
{
    program.on & (p.segment != 0)
}

// A3, A4 and A13: the setpoint, forced to the PV at a transfer, and at an entry to Automatic with Bumpless I by a
// change of mode or form, unless a profile runs.
#[tactic(auto, unfolding(crate::specs::Sensing::target_of))]
fn target_of(reading: Reading, change: bool, runs: bool, pv: u16) -> u16
    ensures { result ≡ target_of reading change runs pv }
{
    let forced = change & reading.mode.is_automatic() & !reading.settings.mode1.bumpless & !runs;
    if reading.transfer | forced {
        pv
    } else {
        own_setpoint(reading)
    }
}

// G3: the profile, its setpoint and word 27 after the sample; in Cascade they wait.
#[tactic(auto, unfolding(crate::specs::Sensing::profiled_of))]
fn profiled(reading: Reading, p: Profile, setpoint: u16, pv: u16) -> Profiled
    requires { Within p × (reading.program.pair.duration ≤ 9999) }
    ensures { result ≡ profiled_of reading p setpoint pv }
{
    let flags = reading.settings.stored.flags;
    if reading.mode.is_cascade() {
        Profiled {
            profile: p,
            setpoint,
            flags,
        }
    } else {
        profile::sample(
            reading.program,
            flags,
            reading.settings.tuning.period,
            p,
            setpoint,
            pv,
        )
    }
}

// G2: word 29; in Cascade as it stood.
#[tactic(auto, unfolding(crate::specs::Sensing::fault_after))]
fn fault_after(reading: Reading) -> u16
    ensures { result ≡ fault_after reading }
{
    if reading.mode.is_cascade() {
        reading.settings.stored.fault
    } else {
        reading.program.fault
    }
}

// A5 with the loop's settings. `converted` is the PV in counts of the output.
#[tactic(auto, unfolding(crate::specs::Sensing::error_in))]
fn error_in(s: Settings, target: u16, pv: u16, converted: u16) -> i64
    requires { (0 < s.mode2.input.scale) × (0 < s.mode2.output.scale) }
    ensures { result ≡ error_in s target pv converted }
{
    let setpoint = control::output_counts(s.mode2, target);
    let quiet = control::in_deadband(s.mode1.deadband, s.deadband, target, pv);
    control::error(
        quiet,
        s.mode1.squared,
        s.mode2.output.scale,
        setpoint,
        converted,
    )
}

// A2 to A5, from the carried mode, form, profile and mark.
#[tactic(auto, unfolding(crate::specs::Sensing::sensed_of))]
pub(crate) fn sensed_by(reading: Reading, state: State, pv: u16) -> Sensed
    requires { (0 < reading.settings.mode2.input.scale) × (0 < reading.settings.mode2.output.scale) × Within state.profile × (reading.program.pair.duration ≤ 9999) }
    ensures { result ≡ sensed_of reading state pv }
{
    let s = reading.settings;
    let velocity = s.mode1.velocity;
    let change = changes(state, velocity);
    let runs = runs_on(reading.program, state.profile);
    let target = target_of(reading, change, runs, pv);
    let after = profiled(reading, state.profile, target, pv);
    let converted = control::output_counts(s.mode2, pv);
    Sensed {
        pv,
        converted,
        entry: enters(state, reading.mode, velocity),
        setpoint: after.setpoint,
        error: error_in(s, after.setpoint, pv, converted),
        flags: after.flags,
        fault: fault_after(reading),
        state: State {
            mode: reading.mode,
            velocity,
            profile: after.profile,
            mark: mark_after(reading.mode, state.mark),
        },
    }
}
