// Why a graph isn't analysed.

ghost use Rattle.std.specs.Prelude.{◌≡◌};
ghost use Rattle.pk_cert_report.specs.Causes.{status_of_cause};

use pk_ctypes::Quantity;
use pk_solver::SolverError;
use pk_status::Status;

// How many packs there may be.
const PACK_LIMIT: u64 = 256;

/// How a command ends about a graph of which the iteration leaves nothing.
pub fn unanalysed_status(why: SolverError, max_runs: u64) -> Status
    ensures { result ≡ status_of_cause max_runs why }
{
    match why {
        SolverError::RunLimit => Status::RunLimit { max_runs },
        SolverError::PackLimit => Status::Limit {
            what: Quantity::Packs,
            number: PACK_LIMIT,
        },
        SolverError::Memory => Status::Memory,
    }
}
