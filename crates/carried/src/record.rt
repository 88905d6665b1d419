// The carried record (H1), by subject.
use control::Drive;
use profile::Profile;
use table::Mode;

// What A2, A4 and the profile (G4 to G11) read of the samples before, and the mark of another loop's transfer (A13).
// The plain loop (E3) holds it as well.
#[derive(Clone, Copy, Debug, PartialEq, Eq)]
pub struct State {
    pub mode: Mode,
    pub velocity: bool, // the last form: velocity, else position
    pub profile: Profile,
    pub mark: bool,
}

// The recorded PVs and error. `prior` is the PV before the last.
#[derive(Clone, Copy, Debug, PartialEq, Eq)]
pub struct Past {
    pub last: u16,
    pub prior: u16,
    pub error: i64,
}

#[derive(Clone, Copy)]
pub struct Carried {
    pub state: State,
    pub drive: Drive,
    pub past: Past,
    pub sampled: bool, // a sample of the loop was accepted; no Option<Past>, since `read_back` keeps the past of a record without one
}
