// A count of one full scale in counts of another (M7).
ghost use Rattle.std.specs.Prelude.{◌≡◌, ◌<◌};
ghost use Rattle.numbers.specs.Scales.{converted};

use crate::rounding::half_up;

// M7: `count` of full scale `from` in counts of full scale `to`: the nearest, a half up, and at most `to`.
#[tactic(auto, unfolding(crate::specs::Scales::converted))]
pub fn convert(from: u16, to: u16, count: u16) -> u16
    requires { 0 < from }
    ensures { result ≡ converted from to count }
{
    half_up(u64::from(count) * u64::from(to), u64::from(from)).min(u64::from(to)) as u16
}
