// A number brought inside two limits (A4).
ghost use Rattle.std.specs.Prelude.{◌≡◌};
ghost use Rattle.std.specs.Ordering.{partial_lt};
ghost use Rattle.numbers.specs.Limits.{clamp_by};

// Of any ordered type. The library's `clamp` asks for lo ≤ hi; this one has an answer for any limits.
#[tactic(auto, unfolding(crate::specs::Limits::clamp_by))]
pub fn clamp<T: PartialOrd + Copy>(x: T, lo: T, hi: T) -> T
    ensures { result ≡ clamp_by (partial_lt T.partial_cmp) x lo hi }
{
    if x < lo {
        lo
    } else if hi < x {
        hi
    } else {
        x
    }
}
