// What a sample reads of the loop's past, by its carried state.
ghost use Rattle.std.specs.Prelude.{◌≡◌};
ghost use Rattle.carried.specs.Former.{former_of};

use crate::record::State;
use reading::Former;

impl From<State> for Former {
    ghost from_gives = { λ state former. former ≡ former_of state };

    fn from(state: State) -> Former {
        Former {
            mode: state.mode,
            segment: state.profile.segment,
        }
    }
}
