use ipc_compact::Base;
use ipc_history::Entry;

/// What stands beside a history once memory has let go of all that need not be kept: its base, and
/// the entries that are kept.
#[derive(Drop)]
pub struct HeldPart {
    base: Base,
    kept: Vec<Entry>,
}

impl HeldPart {
    ghost use Rattle.std.specs.Prelude.{◌≡◌};

    /// A base with its kept entries.
    pub(crate) fn new(base: Base, kept: Vec<Entry>) -> HeldPart
        ensures base { result.base ≡ base }
        ensures kept { result.kept ≡ kept }
    {
        HeldPart { base, kept }
    }

    /// The base.
    pub fn base(&self) -> &Base
        ensures { result.now ≡ self.now.base }
    {
        &self.base
    }

    /// The entries that are kept, oldest first.
    pub fn kept(&self) -> &[Entry]
        ensures { result.now ≡ self.now.kept.items }
    {
        self.kept.as_slice()
    }
}

/// The entries that a reader of the history has not read, and the part that begins behind them.
/// None where there was no memory for it.
#[derive(Drop)]
pub struct Behind {
    rest: Vec<Entry>,
    part: Option<HeldPart>,
}

impl Behind {
    ghost use Rattle.std.specs.Prelude.{◌≡◌};

    /// Entries, and what begins behind them.
    pub fn new(rest: Vec<Entry>, part: Option<HeldPart>) -> Behind
        ensures rest { result.rest ≡ rest }
        ensures part { result.part ≡ part }
    {
        Behind { rest, part }
    }

    /// The entries, oldest first, and the part.
    pub fn into_parts(self) -> (Vec<Entry>, Option<HeldPart>)
        ensures rest { result.0 ≡ self.rest }
        ensures part { result.1 ≡ self.part }
    {
        let Behind { rest, part } = self;
        (rest, part)
    }
}
