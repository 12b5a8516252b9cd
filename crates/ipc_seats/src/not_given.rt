use std::alloc::AllocError;

/// Why an entry of the history is not given.
#[derive(Clone, Copy, PartialEq, Eq, Debug)]
pub enum NotGiven {
    /// Memory let go of it.
    LetGo,
    /// There is no memory for a copy.
    NoMemory,
}

impl From<AllocError> for NotGiven {
    ghost use Rattle.std.specs.Prelude.{◌≡◌};
    ghost use Rattle.ipc_seats.specs.declared.not_given.NotGiven.TheVariants.{NoMemory};

    ghost from_gives = { λ _ given. given ≡ NoMemory };

    fn from(_error: AllocError) -> NotGiven {
        NotGiven::NoMemory
    }
}
