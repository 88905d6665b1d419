// A1: the PV of a sample, measured from its raw PV.
#![tactic(auto)]

ghost use Rattle.std.specs.Prelude.{◌≡◌};
ghost use Rattle.measuring.specs.Measuring.{pv_of, measured_of};

use reading::Reading;

// The raw PV, or the root of it.
#[tactic(auto, using(crate::specs::Measuring::Laws::root_word), unfolding(crate::specs::Measuring::pv_of))]
fn measured(root: bool, scale: u16, raw: u16) -> u16
    ensures { result ≡ pv_of root scale raw }
{
    if root {
        numbers::root(u32::from(raw) * u32::from(scale)) as u16
    } else {
        raw
    }
}

// With the loop's settings.
pub fn measure(reading: Reading, raw: u16) -> u16
    ensures { result ≡ measured_of reading raw }
{
    let s = reading.settings;
    measured(s.mode1.root, s.mode2.input.scale, raw)
}
