// Why a run stops.

use std::fmt;

/// Why a run stops at an operation.
#[derive(Clone, Copy, Debug, PartialEq, Eq)]
pub enum Fault {
    Index,
    DivZero,
    Overflow,
    Shift,
    Assert,
}

impl fmt::Display for Fault {
    ghost use Rattle.std.specs.declared.option.Option.TheVariants.{Some};
    ghost use Rattle.pk_ctypes.specs.Words.{fault_text};

    ghost output = { λ fault. Some (fault_text fault) };

    fn fmt<W: fmt::Write>(&self, f: &mut fmt::Formatter<W>) -> fmt::Result {
        match self {
            Fault::Index => write!(f, "index"),
            Fault::DivZero => write!(f, "divzero"),
            Fault::Overflow => write!(f, "overflow"),
            Fault::Shift => write!(f, "shift"),
            Fault::Assert => write!(f, "assert"),
        }
    }
}
