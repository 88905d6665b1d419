// The C interface on profiles (Q11): the function of the library `kexbardi_profiles` by its name for a C caller.
// include/kexbardi.h declares it.
//
// An object of its own in the archive, so that the compiler can put all of a sample into `kexbardi_sample`.
#![tactic(auto)]

ghost use Rattle.std.specs.Prelude.{◌≡◌};
ghost use Rattle.desk.specs.Desk.{lent, forecast_at};
ghost use Rattle.kexbardi_profiles.specs.Told.{told, told_by};

// Q11: the samples that remain of a loop's profile. 5, 4, 5, 7, 8, 12, 13, 14 or 11, as a sample with raw PV 0 (9 cannot
// happen), and then the count stays.
#[unsafe(no_mangle)]
pub extern "C" fn kexbardi_forecast(
    words: &[u16],
    records: &[i64],
    number: u64,
    samples: &mut u64,
) -> u8
    ensures { told result samples.new ≡ told_by (forecast_at (lent words.now records.now) number) samples.old }
{
    kexbardi_profiles::kexbardi_forecast(words, records, number, samples)
}
