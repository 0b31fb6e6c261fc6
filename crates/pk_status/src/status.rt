// How a command ends.

use pk_ctypes::Quantity;
use pk_front::{Refusal, TextError};
use std::alloc::{AllocError, AllocFailed};
use std::fmt;

/// How a command ends.
#[derive(Drop)]
pub enum Status {
    Ok { unknown: u64 },
    Usage,
    Refused(Refusal),
    Limit { what: Quantity, number: u64 },
    RunLimit { max_runs: u64 },
    /// A certificate has or would have more than 67108864 bytes.
    CertLimit,
    /// The first byte, from 0, with which no certificate of its head, and past the text of its text's graph, goes on.
    CertByte { offset: u64 },
    /// The first point whose line in a certificate tells no state.
    CertState { point: u32 },
    /// The first point at which a certificate doesn't solve the equation of its text's graph.
    CertFails { point: u32 },
    ReadFault,
    WriteFault { sent: usize },
    Memory,
}

impl Status {
    ghost use Rattle.std.specs.Prelude.{◌≡◌};
    ghost use Rattle.pk_status.specs.Statuses.{status_code};

    /// The exit code of the program.
    pub fn code(&self) -> u8
        ensures { result ≡ status_code self.now }
    {
        match self {
            Status::Ok { unknown } => { if *unknown == 0 { 0 } else { 1 } }
            Status::Usage => 2,
            Status::Refused(_) => 3,
            Status::Limit { .. } => 4,
            Status::RunLimit { .. } => 4,
            Status::CertLimit => 4,
            Status::CertByte { .. } => 3,
            Status::CertState { .. } => 3,
            Status::CertFails { .. } => 8,
            Status::ReadFault => 5,
            Status::WriteFault { .. } => 6,
            Status::Memory => 7,
        }
    }
}

impl From<AllocError> for Status {
    ghost use Rattle.std.specs.Prelude.{◌≡◌};
    ghost use Rattle.pk_status.specs.declared.status.Status.TheVariants.{Memory};

    ghost from_gives = { λ _ s. s ≡ Memory };

    fn from(_: AllocError) -> Self {
        Status::Memory
    }
}

impl<T: Drop> From<AllocFailed<T>> for Status {
    ghost use Rattle.std.specs.Prelude.{◌≡◌};
    ghost use Rattle.pk_status.specs.declared.status.Status.TheVariants.{Memory};

    ghost from_gives = { λ _ s. s ≡ Memory };

    fn from(_: AllocFailed<T>) -> Self {
        Status::Memory
    }
}

impl From<TextError> for Status {
    ghost use Rattle.std.specs.Prelude.{◌≡◌};
    ghost use Rattle.pk_status.specs.Statuses.{status_of};

    ghost from_gives = { λ e s. s ≡ status_of e };

    fn from(error: TextError) -> Self {
        match error {
            TextError::Refused(refusal) => Status::Refused(refusal),
            TextError::Limit { what, number } => Status::Limit { what, number },
            TextError::Memory => Status::Memory,
        }
    }
}

/// The line on standard error, without its end; `Ok` has none.
impl fmt::Display for Status {
    ghost use Rattle.std.specs.declared.option.Option.TheVariants.{Some};
    ghost use Rattle.pk_status.specs.Statuses.{status_text};

    ghost output = { λ s. Some (status_text s) };

    fn fmt<W: fmt::Write>(&self, f: &mut fmt::Formatter<W>) -> fmt::Result {
        match self {
            Status::Ok { .. } => Ok(()),
            Status::Usage => write!(f, "pikos: usage"),
            Status::Refused(refusal) => write!(f, "pikos: refused: {refusal}"),
            Status::Limit { what, number } => write!(f, "pikos: limit {what} {number}"),
            Status::RunLimit { max_runs } => write!(f, "pikos: run limit {max_runs}"),
            Status::CertLimit => write!(f, "pikos: limit cert 67108864"),
            Status::CertByte { offset } => write!(f, "pikos: refused: certificate byte {offset}"),
            Status::CertState { point } => write!(f, "pikos: refused: certificate state {point}"),
            Status::CertFails { point } => write!(f, "pikos: certificate fails at point {point}"),
            Status::ReadFault => write!(f, "pikos: read fault"),
            Status::WriteFault { sent } => write!(f, "pikos: write fault after {sent} bytes"),
            Status::Memory => write!(f, "pikos: memory"),
        }
    }
}
