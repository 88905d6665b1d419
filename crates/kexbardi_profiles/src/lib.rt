// The C interface on profiles (Q11): the forecast of a loop's profile. include/kexbardi.h declares it.
//
// A library of its own, so that the compiler can put all of a sample into `kexbardi_sample`.
#![tactic(auto)]

ghost use Rattle.std.specs.Prelude.{◌≡◌};
ghost use Rattle.desk.specs.Desk.{lent, forecast_at};
ghost use Rattle.kexbardi_profiles.specs.Told.{told, told_by};

use refusals::{ACCEPTED, number_of};

// Q11: the samples that remain of a loop's profile. 5, 4, 5, 7, 8, 12, 13, 14 or 11, as a sample with raw PV 0 (9 cannot
// happen), and then the count stays.
#[unsafe(no_mangle)]
pub extern "C" fn kexbardi_forecast(
    words: &[u16],
    records: &[i64],
    number: u64,
    samples: &mut u64,
) -> u8
    ensures { told result samples.new ≡ told_by (forecast_at (lent words.now records.now) number) samples.old }
{
    match desk::forecast(words, records, number) {
        Err(why) => number_of(Err(why)),
        Ok(n) => {
            *samples = n;
            ACCEPTED
        }
    }
}
