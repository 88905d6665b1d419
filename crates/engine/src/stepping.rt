// One accepted sample on plain values: what it senses, what moves the output, what it writes.
ghost use Rattle.std.specs.Prelude.{◌≡◌};
ghost use Rattle.carried.specs.Ranged.{Ranged};
ghost use Rattle.engine.specs.Steps.{step_of};
ghost use Rattle.engine.specs.Premises.{Usable};

use crate::driving::{driven, held_word};
use crate::sensing::sensed_by;
use crate::writing::{Written, next_record, words_after};
use carried::Carried;
use reading::Reading;

#[derive(Clone, Copy)]
pub struct Stepped {
    pub written: Written,
    pub carried: Carried,
}

// A sample that was judged and accepted, with its PV, of a loop whose record is in range. Reading, record, what is sensed
// and the held word stay parameters, as in the definitions: each step takes others of them, so a struct of all is no plainer.
#[tactic(auto, unfolding(crate::specs::Steps::step_of))]
pub fn step(reading: Reading, carried: Carried, pv: u16) -> Stepped
    requires { Usable reading pv × Ranged carried }
    ensures { result ≡ step_of reading carried pv }
{
    let sensed = sensed_by(reading, carried.state, pv);
    let held = held_word(reading.settings);
    let drive = driven(reading, carried, sensed, held);
    Stepped {
        written: words_after(reading, carried, sensed, held, drive),
        carried: next_record(carried, sensed, drive),
    }
}
