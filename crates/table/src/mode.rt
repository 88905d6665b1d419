// The mode of a loop (M4).
ghost use Rattle.std.specs.Prelude.{◌≡◌};
ghost use Rattle.table.specs.Modes.{is_manual, is_automatic, is_cascade};

#[derive(Clone, Copy, Debug, PartialEq, Eq)]
pub enum Mode {
    Manual,
    Automatic,
    Cascade,
}

impl Mode {
    pub fn is_manual(self) -> bool
        ensures { result ≡ is_manual self }
    {
        self == Mode::Manual
    }

    pub fn is_automatic(self) -> bool
        ensures { result ≡ is_automatic self }
    {
        self == Mode::Automatic
    }

    pub fn is_cascade(self) -> bool
        ensures { result ≡ is_cascade self }
    {
        self == Mode::Cascade
    }
}
