// Q11: the forecast of a loop's profile (G12): refused as a sample with raw PV 0 is, else the samples that remain.
ghost use Rattle.std.specs.Prelude.{◌≡◌, true, cond, ◌+◌, ◌≤◌, ◌<◌, length};
ghost use Rattle.table.specs.Words.{block_at};
ghost use Rattle.reading.specs.Reading.{table_of};
ghost use Rattle.profile.specs.Forecasts.{forecast_of};
ghost use Rattle.desk.specs.Desk.{lent, forecast_at};

use crate::admitting::admit;
use profile::Profile;
use reading::table_at;
use refusals::Refusal;
use table::{PROFILE_TABLE, base_of, word_at};

// The samples that remain where there is a program; else 0.
fn remaining(words: &[u16], number: u8, on: bool, period: u16, p: Profile, setpoint: u16) -> u64
    requires { (on ≡ true → table_of words.now number + 32 ≤ length words.now) × (p.segment ≤ 16) × (0 < period) }
    ensures { result ≡ cond on (forecast_of (block_at words.now (table_of words.now number)) period p setpoint) 0 }
{
    if on {
        let at = word_at(words, base_of(number) + PROFILE_TABLE);
        profile::forecast(table_at(words, usize::from(at)), period, p, setpoint)
    } else {
        0
    }
}

// Q11: the forecast of loop `number`.
pub fn forecast(words: &[u16], numbers: &[i64], number: u64) -> Result<u64, Refusal>
    ensures { result ≡ forecast_at (lent words.now numbers.now) number }
{
    let a = admit(words, numbers, number, 0)?;
    let reading = a.reading;
    Ok(remaining(
        words,
        number as u8,
        reading.program.on,
        reading.settings.tuning.period,
        a.carried.state.profile,
        reading.settings.stored.setpoint,
    ))
}
