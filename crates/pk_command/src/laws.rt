// Laws of the command line.

ghost use Rattle.pk_command.specs.Laws.{CertIsTaken, CertTakesNoFlag, CheckIsTaken, CheckTakesNoOct, GenIsTaken, GenNeedsOptions, OneCommand, OrderIsTaken, RunIsTaken, TakenAsks};

/// The word `run` alone asks for a run with every default.
pub fn run_is_taken()
    ensures { RunIsTaken }
{}

/// The word `order` alone asks for the order from `main`, without its peak.
pub fn order_is_taken()
    ensures { OrderIsTaken }
{}

/// The word `gen` with a seed and a size asks for their program, with the default of its other option.
pub fn gen_is_taken()
    ensures { GenIsTaken }
{}

/// The word `gen` isn't taken without a seed and a size.
pub fn gen_needs_options()
    ensures { GenNeedsOptions }
{}

/// The word `cert` alone asks for a certificate with every default.
pub fn cert_is_taken()
    ensures { CertIsTaken }
{}

/// The word `cert` isn't taken with `--points`, `--lean` or `--packs`, which `run` has.
pub fn cert_takes_no_flag()
    ensures { CertTakesNoFlag }
{}

/// The word `check` alone asks for a check.
pub fn check_is_taken()
    ensures { CheckIsTaken }
{}

/// The word `check` isn't taken with `--oct`, which `run` and `cert` have.
pub fn check_takes_no_oct()
    ensures { CheckTakesNoOct }
{}

/// Words that are taken ask for a command.
pub fn taken_asks()
    ensures { TakenAsks }
{}

/// Words ask for at most one command.
pub fn one_command()
    ensures { OneCommand }
{}
