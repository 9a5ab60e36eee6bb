//! What scripts are read for.
ghost use Rattle.std.specs.Prelude.{◌≡◌};
ghost use Rattle.plcr_script.specs.Reading as reading;

/// What a script is read for.
#[derive(Clone, Copy, Debug)]
pub enum Mode {
    /// One script that runs by itself.
    Single,
    /// The script of one of several workers, which has one pass and leaves no change open. The
    /// first has the sizes and values of all.
    Worker { first: bool },
}

impl Mode {
    /// Whether the script is a worker's.
    pub(crate) fn is_worker(self) -> bool
        ensures { result ≡ reading.is_worker self }
    {
        match self {
            Mode::Single => false,
            Mode::Worker { first: _ } => true,
        }
    }

    /// Whether it is a worker's behind the first.
    pub(crate) fn is_later(self) -> bool
        ensures { result ≡ reading.is_later self }
    {
        match self {
            Mode::Single => false,
            Mode::Worker { first } => !first,
        }
    }
}
