// M7: counts of the input in counts of the output.
ghost use Rattle.std.specs.Prelude.{◌≡◌, ◌<◌};
ghost use Rattle.control.specs.Counts.{output_counts};

use reading::Mode2;

// A count of the input, converted where the output has a format of its own. A scale above 0 is no invariant of the format:
// `measuring::measure` takes any.
#[tactic(auto, unfolding(crate::specs::Counts::output_counts))]
pub fn output_counts(m: Mode2, count: u16) -> u16
    requires { 0 < m.input.scale }
    ensures { result ≡ output_counts m count }
{
    if m.separate {
        numbers::convert(m.input.scale, m.output.scale, count)
    } else {
        count
    }
}
