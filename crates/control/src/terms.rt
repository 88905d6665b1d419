// A7: the three terms, each rounded to the nearest unit.
ghost use Rattle.std.specs.Prelude.{◌≡◌, false, cond, ◌*◌, ◌^◌, ◌≤◌, ◌<◌, pos, nat_abs, ◌*ℤ◌};
ghost use Rattle.numbers.specs.Fractions.{over, round_to};
ghost use Rattle.control.specs.Terms.{factor_of, exact_p, exact_i, exact_d, negated, terms_of};
ghost use Rattle.control.specs.Premises.{Tuned, Bounded, Small};

use reading::Tuning;
use std::ops::Neg;

// What each term acts on, in counts: in position form the error, the error and the PV's change; in velocity
// form their differences from the sample before, but for the integral.
#[derive(Clone, Copy)]
pub struct Inputs {
    pub p: i64,
    pub i: i64,
    pub d: i64,
}

// The terms, in units. A type of its own: with one for both, counts could be passed for units.
#[derive(Clone, Copy)]
pub struct Terms {
    pub p: i64,
    pub i: i64,
    pub d: i64,
}

// The gain for the integral and derivative terms: a gain of 0 counts as 1.00.
fn factor(gain: u16) -> u16
    ensures { result ≡ factor_of gain }
{
    if gain == 0 { 100 } else { gain }
}

// k × e / d, rounded to the nearest unit.
#[tactic(auto, using(numbers::proofs::Machine::read_back, crate::specs::Terms::Laws::term_is))]
fn term(k: u64, e: i64, d: u64) -> i64
    requires { (k ≤ 9999 * 9999) × ((nat_abs e ≤ 131070) × ((0 < d) × (d < 2 ^ 62))) }
    ensures { result ≡ round_to 262144 (over (pos k *ℤ e) d) }
{
    numbers::scaled(k * numbers::UNITS, e, d)
}

// P. Settings are in hundredths here and below.
#[tactic(auto, unfolding(crate::specs::Terms::exact_p))]
fn proportional(tuning: Tuning, e: i64) -> i64
    requires { Tuned tuning × (nat_abs e ≤ 131070) }
    ensures { result ≡ round_to 262144 (exact_p tuning.gain e) }
{
    term(u64::from(tuning.gain), e, 100)
}

// I: none at reset 9999. `minutes` says that the reset is in minutes.
#[tactic(auto, using(crate::specs::Terms::Laws::no_term), unfolding(crate::specs::Terms::exact_i))]
fn integral(tuning: Tuning, minutes: bool, e: i64) -> i64
    requires { Tuned tuning × (nat_abs e ≤ 131070) }
    ensures { result ≡ round_to 262144 (exact_i (factor_of tuning.gain) tuning.period tuning.reset minutes e) }
{
    let reset = tuning.reset;
    if reset == 9999 {
        return 0;
    }
    let k = u64::from(factor(tuning.gain)) * u64::from(tuning.period);
    let d = if minutes { 6000 } else { 100 };
    term(k, e, d * u64::from(reset))
}

// D, of the PV's change: none at rate 0.
#[tactic(auto, using(crate::specs::Terms::Laws::no_rate), unfolding(crate::specs::Terms::exact_d))]
fn derivative(tuning: Tuning, change: i64) -> i64
    requires { Tuned tuning × (nat_abs change ≤ 131070) }
    ensures { result ≡ round_to 262144 (exact_d (factor_of tuning.gain) tuning.rate tuning.period change) }
{
    let rate = tuning.rate;
    if rate == 0 {
        return 0;
    }
    let k = u64::from(factor(tuning.gain)) * u64::from(rate);
    term(k, change, 100 * u64::from(tuning.period))
}

// The three of a loop that acts directly.
#[tactic(auto, unfolding(crate::specs::Terms::terms_of, crate::specs::Terms::exact_terms))]
fn direct_terms(tuning: Tuning, minutes: bool, inputs: Inputs) -> Terms
    requires { Tuned tuning × Bounded inputs }
    ensures { result ≡ terms_of tuning minutes false inputs }
{
    Terms {
        p: proportional(tuning, inputs.p),
        i: integral(tuning, minutes, inputs.i),
        d: derivative(tuning, inputs.d),
    }
}

// Reverse acting changes the sign of all three.
impl Neg for Terms {
    type Output = Terms;

    ghost can_neg = { Small };

    ghost neg_gives = { λ terms r. r ≡ negated terms };

    fn neg(self) -> Terms {
        Terms {
            p: -self.p,
            i: -self.i,
            d: -self.d,
        }
    }
}

// All three, in the loop's direction.
#[tactic(auto, using(crate::specs::Terms::Laws::terms_high, crate::specs::Terms::Laws::terms_reversed))]
pub fn terms_of(tuning: Tuning, minutes: bool, reverse: bool, inputs: Inputs) -> Terms
    requires { Tuned tuning × Bounded inputs }
    ensures { result ≡ terms_of tuning minutes reverse inputs }
{
    let direct = direct_terms(tuning, minutes, inputs);
    if reverse { -direct } else { direct }
}
