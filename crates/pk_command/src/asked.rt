// What words ask for.
use pk_ctypes::Name;
use std::alloc::AllocError;

/// The options of `run`.
#[derive(Drop)]
pub struct RunOptions {
    /// How many threads iterate, from 1 to 64.
    pub workers: u32,
    /// How often a head is joined before it is widened, from 0 to 16.
    pub delay: u32,
    /// How often a head may be narrowed, from 0 to 8.
    pub narrow: u32,
    /// How many variables an octagon has at most, from 0 to 64.
    pub oct: usize,
    /// How often an element may be run, from 1 to 549755813888.
    pub max_runs: u64,
    /// The name of the function that a run of the text begins with. It may be any text, the empty one too.
    pub entry: Name,
    /// Whether every point is reported.
    pub points: bool,
    /// Whether what is known at a point is let go of as soon as nothing reads it any more.
    pub lean: bool,
    /// Whether each component has an octagon of its own.
    pub packs: bool,
}

/// The options of `order`.
#[derive(Drop)]
pub struct OrderOptions {
    /// The name of the function that a run of the text begins with. It may be any text, the empty one too.
    pub entry: Name,
    /// Whether the peak of the order is told.
    pub peak: bool,
}

/// The options of `gen`.
#[derive(Drop)]
pub struct GenOptions {
    /// What the program is drawn from, from 0 to 2147483647.
    pub seed: u32,
    /// How many blocks the program has, from 1 to 1000.
    pub size: u32,
    /// How many threads iterate, from 1 to 64.
    pub workers: u32,
}

/// The options of `cert`: those of `run`, but for `--points`, `--lean` and `--packs`.
#[derive(Drop)]
pub struct CertOptions {
    /// How many threads iterate, from 1 to 64.
    pub workers: u32,
    /// How often a head is joined before it is widened, from 0 to 16.
    pub delay: u32,
    /// How often a head may be narrowed, from 0 to 8.
    pub narrow: u32,
    /// How many variables the octagon has at most, from 0 to 64.
    pub oct: usize,
    /// How often an element may be run, from 1 to 549755813888.
    pub max_runs: u64,
    /// The name of the function that a run of the text begins with. It may be any text, the empty one too.
    pub entry: Name,
}

/// A command, with its options.
#[derive(Drop)]
pub enum Command {
    Run(RunOptions),
    Order(OrderOptions),
    Gen(GenOptions),
    Cert(CertOptions),
    Check,
}

/// Why words give no command.
#[derive(Clone, Copy, PartialEq, Eq)]
pub enum WordsError {
    Usage,
    Memory,
}

impl From<AllocError> for WordsError {
    ghost use Rattle.std.specs.Prelude.{◌≡◌};
    ghost use Rattle.pk_command.specs.declared.asked.WordsError.TheVariants.{Memory};

    ghost from_gives = { λ _ e. e ≡ Memory };

    fn from(_: AllocError) -> Self {
        WordsError::Memory
    }
}
