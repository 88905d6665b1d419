// The forecast (G12): how many samples remain of a profile. Each ramp hands over to its soak and each soak
// to the next ramp; a segment's samples are counted by a division.
ghost use Rattle.std.specs.Prelude.{◌≡◌, ◌*◌, ◌≤◌, ◌<◌};
ghost use Rattle.profile.specs.Forecasts.{count_of, ramps_from, soaks_from, forecast_of};

use crate::moves::{SEGMENTS, TENTH_OF_A_MINUTE, parts};
use crate::state::Profile;
use reading::read_pair;
use table::TABLE_WORDS;

const SEGMENT_COUNT: usize = SEGMENTS as usize;

// The samples that a way takes by steps: at least one, and as many as cover it.
#[tactic(auto, unfolding(crate::specs::Forecasts::count_of))]
fn count(way: u32, step: u32) -> u64
    requires { 0 < step }
    ensures { result ≡ count_of way step }
{
    if way == 0 {
        return 1; // no division: a ramp that stands at its end, and a soak of no length
    }
    1 + u64::from((way - 1) / step)
}

// The samples of the `left` last segments, of which a ramp is the first and begins at `at`. `ramps` and `soaks` are no `for`
// over the segments: tests/self_calls names their cycle.
#[cycle(ramps_soaks)]
#[tactic(auto, using(crate::proofs::Laws::Forecasts::one_segment))]
fn ramps(table: &[u16; TABLE_WORDS], period: u16, at: u32, left: usize) -> u64
    requires { (left ≤ 16) × (0 < period) }
    ensures equal { result ≡ ramps_from left table.now period at }
    ensures bounded { result ≤ left * 4294967296 }
{
    if left == 0 {
        return 0;
    }
    let pair = read_pair(table, (SEGMENT_COUNT - left) / 2);
    if pair.slope == 0 {
        return 1;
    }
    let to = parts(pair.end, 0);
    count(at.abs_diff(to), u32::from(pair.slope) * u32::from(period))
        + soaks(table, period, to, 0, left - 1)
}

// The same, of which a soak is the first and has lasted `time`; the setpoint stands at `at`.
#[cycle(ramps_soaks)]
#[tactic(auto, using(crate::proofs::Laws::Forecasts::one_segment))]
fn soaks(table: &[u16; TABLE_WORDS], period: u16, at: u32, time: u32, left: usize) -> u64
    requires { (left ≤ 16) × (0 < period) }
    ensures equal { result ≡ soaks_from left table.now period at time }
    ensures bounded { result ≤ left * 4294967296 }
{
    if left == 0 {
        return 0;
    }
    let pair = read_pair(table, (SEGMENT_COUNT - left) / 2);
    let whole = TENTH_OF_A_MINUTE * u32::from(pair.duration);
    let own = count(whole.saturating_sub(time), u32::from(period));
    if left == 1 {
        return own;
    }
    own + ramps(table, period, at, left - 1)
}

// G12: the samples that remain of a profile, with the one that completes it; 0 where none runs.
#[tactic(auto, unfolding(crate::specs::Forecasts::forecast_of))]
pub fn forecast(table: &[u16; TABLE_WORDS], period: u16, p: Profile, setpoint: u16) -> u64
    requires { (p.segment ≤ 16) × (0 < period) }
    ensures { result ≡ forecast_of table.now period p setpoint }
{
    if p.segment == 0 {
        return 0;
    }
    let at = parts(setpoint, p.fraction);
    let left = SEGMENT_COUNT + 1 - usize::from(p.segment);
    if p.segment % 2 == 1 {
        ramps(table, period, at, left)
    } else {
        soaks(table, period, at, p.time, left)
    }
}
