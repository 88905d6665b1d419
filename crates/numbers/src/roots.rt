// The square root, to the nearest whole number, by Newton's rounds: no function here calls itself. The library's `isqrt` is not
// used: it takes sixteen rounds, which cost 60 instructions more (S23), and the edit `one_round_too_few` is of the two here.
ghost use Rattle.std.specs.Prelude.{◌≡◌};
ghost use Rattle.numbers.specs.Roots.{root_of};
ghost use Rattle.numbers.specs.Roots.Newton.{Close};

const ROUNDS: u64 = 2;

// A round from 2 to half the number of v's binary digits, where the division is a shift.
#[tactic(auto, using(crate::proofs::Laws::Newton::shifted, crate::proofs::Laws::Newton::first_fits, crate::proofs::Laws::Newton::first_close))]
fn first_guess(v: u32) -> u32
    ensures { Close 10 v result }
{
    let half = (32 - v.leading_zeros()) / 2;
    ((1 << half) + (v >> half) + 1) / 2
}

// A1: the root of v. It is 65,536 above 65,535 × 65,536, so the answer is wider than a word. Rounded up, the mean
// of x and v / x is never below the root; after the rounds it is the root, or one above it.
pub fn root(v: u32) -> u32
    ensures { result ≡ root_of v }
{
    let mut x = first_guess(v);
    for _ in 0..ROUNDS {
        x = (x + v / x + 1) / 2;
    }
    let below = x - 1;
    if u64::from(below) * u64::from(x) < u64::from(v) {
        x
    } else {
        below
    }
}
